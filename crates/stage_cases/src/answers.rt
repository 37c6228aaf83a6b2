//! The answers to cases: the status, the lines that are told, each after `| `, and what would be done with
//! files, as command_cases has it.

use crate::parts::file_of;
use crate::words::{Asked, read_words};
use case_files::{Answers, Case};
use deb_text::{next_line, push_pieces};
use import_farm::{Imported, ImportedTexts, Inputs, NamedText, Watch};
use import_notes::ImportLines;
use std::alloc::{AllocError, Global};
use target_import::import_for_targets;

/// The answers of target_import.
#[derive(Drop)]
pub struct StageAnswers;

impl<R> Answers<R> for StageAnswers {
    fn answer_to(&self, _rt: &R, alloc: Global, case: &Case) -> Result<Vec<u8>, AllocError> {
        answer(alloc, &case.input, case.question)
    }
}

/// Hears how far the reading of indexes has come, and does nothing.
#[derive(Drop)]
struct NoWatch;

impl Watch for NoWatch {
    fn reads(&mut self, _name: &str, _done: usize, _whole: usize) {}
}

/// Puts the lines of a text behind another, a mark before each.
fn push_marked(text: &mut Vec<u8>, lines: &[u8], mark: &[u8]) -> Result<(), AllocError> {
    let mut rest = lines;
    while let Some((line, behind)) = next_line(rest) {
        push_pieces(text, &[mark, line, b"\n"])?;
        rest = behind;
    }
    Ok(())
}

/// Files of these names.
fn named<'a>(
    alloc: Global,
    input: &'a [u8],
    names: &[&'a str],
) -> Result<Vec<NamedText<'a>>, AllocError> {
    let mut texts = Vec::new(alloc);
    for name in names {
        texts.push(NamedText {
            name: *name,
            bytes: file_of(input, name.as_bytes()),
        })?;
    }
    Ok(texts)
}

/// What words that were read come to.
fn answer_asked<'a>(
    alloc: Global,
    input: &'a [u8],
    asked: Asked<'a>,
) -> Result<Vec<u8>, AllocError> {
    let wish = Vec::from_slice(alloc, file_of(input, asked.wish.as_bytes()))?;
    let packages = named(alloc, input, &asked.packages)?;
    let archive = named(alloc, input, &asked.archive)?;
    let sources = named(alloc, input, &asked.sources)?;
    let inputs = Inputs {
        wish: &wish,
        packages: &packages,
        archive: &archive,
        sources: &sources,
    };
    let mut watch = NoWatch;
    let (imported, explicit) = import_for_targets::<ImportLines, _>(
        alloc,
        inputs,
        &asked.forbidden,
        &mut watch,
    )?;
    told(alloc, &asked, &imported, &explicit)
}

/// What the words of a case come to.
fn answer<'a>(alloc: Global, input: &'a [u8], question: &'a [u8]) -> Result<Vec<u8>, AllocError> {
    let asked = read_words(alloc, question)?;
    answer_asked(alloc, input, asked)
}

/// What is told of an import.
fn told(
    alloc: Global,
    asked: &Asked,
    imported: &Imported,
    wish: &[u8],
) -> Result<Vec<u8>, AllocError> {
    let mut text = Vec::new(alloc);
    match imported {
        Imported::Texts(texts, _, lines) => {
            text.extend_from_slice(b"status 0\n")?;
            push_marked(&mut text, lines, b"| ")?;
            push_texts(&mut text, asked.folder, texts, wish)?;
        }
        Imported::Refused(lines) => {
            text.extend_from_slice(b"status 1\n")?;
            push_marked(&mut text, lines, b"| ")?;
        }
        Imported::Wrong => text.extend_from_slice(b"wrong\n")?,
    }
    Ok(text)
}

/// What is written to a folder.
fn push_texts(
    text: &mut Vec<u8>,
    folder: &str,
    texts: &ImportedTexts,
    wish: &[u8],
) -> Result<(), AllocError> {
    let all: [(&[u8], &[u8]); 4] = [
        (b"packages", &texts.packages),
        (b"sources", &texts.sources),
        (b"farm", &texts.farm),
        (b"wish", wish),
    ];
    push_pieces(text, &[b"made ", folder.as_bytes(), b"\n"])?;
    for (name, bytes) in &all {
        if !bytes.is_empty() {
            push_pieces(
                text,
                &[b"written ", folder.as_bytes(), b"/", *name, b".new\n"],
            )?;
            push_marked(text, bytes, b"> ")?;
        }
    }
    for (name, bytes) in &all {
        if !bytes.is_empty() {
            push_renamed(text, folder.as_bytes(), name)?;
        }
    }
    Ok(())
}

fn push_renamed(text: &mut Vec<u8>, folder: &[u8], name: &[u8]) -> Result<(), AllocError> {
    push_pieces(text, &[b"renamed ", folder, b"/", name, b".new"])?;
    push_pieces(text, &[b" to ", folder, b"/", name, b"\n"])
}
