//! Numbers and rows, as tables spell them. A row is words divided by commas, where `8*0` is the
//! word 0 eight times. The row without words is `-`.

use deb_text::cut_at_first;
use std::alloc::{AllocError, Global};

/// The longest run of equal words that is read.
const LONGEST_RUN: u64 = 65_536;

/// The number of a text of digits, up to multiples of 2 to the 64th.
pub fn read_number(digits: &[u8]) -> u64 {
    let mut number = 0u64;
    for digit in digits {
        number = number
            .wrapping_mul(10)
            .wrapping_add(u64::from(digit.wrapping_sub(b'0')));
    }
    number
}

/// Adds a word, or a run of them.
fn push_piece(words: &mut Vec<u64>, piece: &[u8]) -> Result<(), AllocError> {
    let (count, word) = cut_at_first(b'*', piece).unwrap_or((b"1", piece));
    let run = read_number(count).min(LONGEST_RUN) as usize;
    words.resize(words.len().saturating_add(run), read_number(word))
}

/// The words of a row, each or each run of them between commas; `-` for none.
pub fn read_row(alloc: Global, text: &[u8]) -> Result<Vec<u64>, AllocError> {
    let mut words = Vec::new(alloc);
    if text == b"-".as_slice() {
        return Ok(words);
    }
    for piece in text.split(|byte| *byte == b',') {
        push_piece(&mut words, piece)?;
    }
    Ok(words)
}

/// The text of a row, with each run of equal words written once.
pub fn spelled_row(alloc: Global, words: &[u64]) -> Result<String, AllocError> {
    if words.is_empty() {
        return String::from_str(alloc, "-");
    }
    let mut text = String::new(alloc);
    let mut run = 1u64;
    for (place, word) in words.iter().enumerate() {
        if words.get(place + 1) == Some(word) {
            run = run.saturating_add(1);
        } else {
            push_run(&mut text, run, *word)?;
            run = 1;
        }
    }
    Ok(text)
}

/// Adds a word that stands so many times.
fn push_run(text: &mut String, run: u64, word: u64) -> Result<(), AllocError> {
    if !text.is_empty() {
        text.push_str(",")?;
    }
    if run > 1 {
        write!(text, "{run}*")?;
    }
    write!(text, "{word}")
}
