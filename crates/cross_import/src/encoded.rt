//! The inputs of an import, encoded.

ghost use Rattle.std.specs.Prelude.{◌≡◌, ◌++◌, ◌∷◌, [], map, IfOk, OnOk};
ghost use Rattle.cross_index.specs.EncodedIndex.{IsEncodedIndex};
ghost use Rattle.cross_sources.specs.EncodedSource.{AreEncodedSources};
ghost use Rattle.cross_sources.specs.Relations.{way_of};
ghost use Rattle.cross_import.specs.CrossImport.{AreEach, texts_of};
ghost use Rattle.cross_import.specs.Pushed.{GetsOne, encoded_texts};

use crate::stop::{Stop, stop_in};
use cross_clear::NamedSources;
use cross_index::encode_packages;
use cross_relations::Sides;
use cross_sources::{Asked, encode_sources};
use import_farm::NamedText;
use std::alloc::{AllocError, Global};

/// An encoded text, by the name of the given one.
#[derive(Drop)]
pub struct EncodedText<'a> {
    pub name: &'a str,
    pub text: Vec<u8>,
}

/// Encoded indexes, and how many of their paragraphs are passed over.
#[derive(Drop)]
pub struct EncodedPackages<'a> {
    pub texts: Vec<EncodedText<'a>>,
    pub passed: u64,
}

/// Encodes an index of packages, and puts it behind others.
fn push_packages<'a>(
    alloc: Global,
    made: &mut EncodedPackages<'a>,
    sides: &Sides,
    is_archive: bool,
    given: NamedText<'a>,
) -> Result<(), Stop>
    ensures { OnOk result (GetsOne (IsEncodedIndex sides.now is_archive given.entry.bytes.now)
        (encoded_texts made.old.texts.items) (encoded_texts made.new.texts.items)) }
{
    let encoded = match encode_packages(alloc, sides, is_archive, given.bytes) {
        Ok(encoded) => encoded,
        Err(stop) => return Err(stop_in(alloc, given.name.as_bytes(), stop)),
    };
    made.passed = made.passed.saturating_add(encoded.passed);
    made.texts.push(EncodedText {
        name: given.name,
        text: encoded.text,
    })?;
    Ok(())
}

/// Encodes indexes of packages.
pub fn encode_all<'a>(
    alloc: Global,
    sides: &Sides,
    is_archive: bool,
    givens: &[NamedText<'a>],
) -> Result<EncodedPackages<'a>, Stop>
    ensures { IfOk result (λ made. AreEach (IsEncodedIndex sides.now is_archive)
        (texts_of givens.now) (encoded_texts made.texts.items)) }
{
    let mut made = EncodedPackages {
        texts: Vec::new(alloc),
        passed: 0,
    };
    for given in givens {
        push_packages(alloc, &mut made, sides, is_archive, *given)?;
    }
    Ok(made)
}

/// Encoded indexes of sources, and the sources as they were given.
#[derive(Drop)]
pub struct EncodedSourceTexts<'a> {
    pub texts: Vec<EncodedText<'a>>,
    pub kept: Vec<NamedSources<'a>>,
}

/// Encodes an index of sources, and puts it behind others.
fn push_sources<'a>(
    alloc: Global,
    made: &mut EncodedSourceTexts<'a>,
    of: Asked,
    given: NamedText<'a>,
) -> Result<(), Stop>
    ensures { OnOk result (GetsOne (AreEncodedSources (way_of of.entry) given.entry.bytes.now)
        (encoded_texts made.old.texts.items) (encoded_texts made.new.texts.items)) }
{
    let encoded = match encode_sources(alloc, of, given.bytes) {
        Ok(encoded) => encoded,
        Err(stop) => return Err(stop_in(alloc, given.name.as_bytes(), stop)),
    };
    made.kept.push(NamedSources {
        name: given.name,
        kept: encoded.kept,
    })?;
    made.texts.push(EncodedText {
        name: given.name,
        text: encoded.text,
    })?;
    Ok(())
}

/// Encodes indexes of sources.
pub fn encode_all_sources<'a>(
    alloc: Global,
    of: Asked,
    givens: &[NamedText<'a>],
) -> Result<EncodedSourceTexts<'a>, Stop>
    ensures { IfOk result (λ made. AreEach (AreEncodedSources (way_of of.entry))
        (texts_of givens.now) (encoded_texts made.texts.items)) }
{
    let mut made = EncodedSourceTexts {
        texts: Vec::new(alloc),
        kept: Vec::new(alloc),
    };
    for given in givens {
        push_sources(alloc, &mut made, of, *given)?;
    }
    Ok(made)
}

/// Encoded texts, as an import takes them.
pub fn named<'a, 'b>(
    alloc: Global,
    texts: &'a Vec<EncodedText<'b>>,
) -> Result<Vec<NamedText<'a>>, AllocError>
    ensures { IfOk result (λ made. texts_of made.items ≡ encoded_texts texts.now.items) }
{
    let mut made = Vec::with_capacity(alloc, texts.len())?;
    for one in texts {
        made.push(NamedText {
            name: one.name,
            bytes: &one.text,
        })?;
    }
    Ok(made)
}
