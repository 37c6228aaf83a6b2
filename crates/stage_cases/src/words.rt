//! The words of an import.

use std::alloc::{AllocError, Global};
use std::str;

/// What the words of an import name: indexes, forbidden recipes, the wish and the folder.
#[derive(Drop)]
pub struct Asked<'a> {
    pub archive: Vec<&'a str>,
    pub packages: Vec<&'a str>,
    pub sources: Vec<&'a str>,
    pub forbidden: Vec<&'a str>,
    pub wish: &'a str,
    pub folder: &'a str,
}

/// What the next word is.
#[derive(Clone, Copy)]
enum Next {
    Other,
    Archive,
    Packages,
    Sources,
    Forbidden,
}

fn option_of(word: &[u8]) -> Option<Next> {
    let options: [(&[u8], Next); 4] = [
        (b"--archive", Next::Archive),
        (b"--packages", Next::Packages),
        (b"--sources", Next::Sources),
        (b"--forbid", Next::Forbidden),
    ];
    for (option, next) in &options {
        if word == *option {
            return Some(*next);
        }
    }
    None
}

impl<'a> Asked<'a> {
    /// Takes a word that is no option.
    fn take(&mut self, next: Next, word: &'a str) -> Result<(), AllocError> {
        match next {
            Next::Archive => self.archive.push(word)?,
            Next::Packages => self.packages.push(word)?,
            Next::Sources => self.sources.push(word)?,
            Next::Forbidden => self.forbidden.push(word)?,
            Next::Other => {
                self.wish = self.folder;
                self.folder = word;
            }
        }
        Ok(())
    }
}

/// Reads words that are divided by spaces.
pub fn read_words(alloc: Global, text: &[u8]) -> Result<Asked<'_>, AllocError> {
    let mut asked = Asked {
        archive: Vec::new(alloc),
        packages: Vec::new(alloc),
        sources: Vec::new(alloc),
        forbidden: Vec::new(alloc),
        wish: "",
        folder: "",
    };
    let mut next = Next::Other;
    for piece in text.split(|byte| *byte == b' ') {
        match option_of(piece) {
            Some(option) => next = option,
            None => {
                asked.take(next, str::from_utf8(piece).unwrap_or("?"))?;
                next = Next::Other;
            }
        }
    }
    Ok(asked)
}
