//! What a build gives.

use crate::build_packages::MadePackages;
use crate::error::{BuildStop, Lack};
use deb_fields::Paragraph;
use deb_version::Version;
use debian_index::{Build as Listed, given_names};
use farm_model::Mode;
use std::alloc::{AllocError, Global};
use std::collections::BTreeSet;

/// Of which version of the source the packages are, and which of its packages a build makes.
#[derive(Clone, Copy)]
pub struct Made<'a> {
    pub packages: MadePackages<'a>,
    pub version: &'a Version,
    pub build: Listed<'a>,
}

/// Blocks, each once, in the order in which they came.
#[derive(Drop)]
struct Outputs {
    blocks: Vec<u32>,
    seen: BTreeSet<u32>,
}

impl Outputs {
    fn new(alloc: Global) -> Outputs {
        Outputs {
            blocks: Vec::new(alloc),
            seen: BTreeSet::new(alloc),
        }
    }

    fn push(&mut self, number: Option<u32>) -> Result<(), AllocError> {
        if let Some(number) = number {
            if self.seen.insert(number)? {
                self.blocks.push(number)?;
            }
        }
        Ok(())
    }
}

impl Made<'_> {
    fn find(&self, name: &[u8]) -> Option<u32> {
        self.packages.find(name, self.version)
    }

    /// The blocks of the packages of these names.
    fn found(&self, alloc: Global, names: &[&[u8]]) -> Result<Outputs, AllocError> {
        let mut outputs = Outputs::new(alloc);
        for name in names {
            outputs.push(self.find(name))?;
        }
        Ok(outputs)
    }

    /// The blocks of all packages, in the order of their names.
    fn all(&self, alloc: Global) -> Result<Outputs, AllocError> {
        let mut outputs = Outputs::new(alloc);
        for name in &self.packages.all_names(alloc, self.version)? {
            outputs.push(self.find(name))?;
        }
        Ok(outputs)
    }

    /// The blocks of what the source gives, by its Package-List, or else of all.
    fn given(&self, alloc: Global, paragraph: &Paragraph) -> Result<Outputs, AllocError> {
        match paragraph.field(b"Package-List") {
            Some(list) => {
                let names = given_names(alloc, list, &self.build)?;
                self.found(alloc, &names)
            }
            None => self.all(alloc),
        }
    }

    /// Tells whether a list has packages that builds of a mode make.
    fn has_some(&self, alloc: Global, list: &[u8], mode: Mode) -> Result<bool, AllocError> {
        let build = Listed {
            names: self.build.names,
            profiles: self.build.profiles,
            mode,
        };
        let names = given_names(alloc, list, &build)?;
        Ok(!names.is_empty())
    }

    /// Why the indexes have nothing that the source gives.
    fn lack(&self, alloc: Global, paragraph: &Paragraph) -> Result<Lack, AllocError> {
        let Some(list) = paragraph.field(b"Package-List") else {
            return Ok(Lack::Unindexed);
        };
        let mode = self.build.mode;
        if self.has_some(alloc, list, mode)? {
            return Ok(Lack::Unindexed);
        }
        if !self.has_some(alloc, list, Mode::Full)? {
            return Ok(Lack::NotHere);
        }
        match mode {
            Mode::Indep => Ok(Lack::NoAll),
            _ => Ok(Lack::OnlyAll),
        }
    }

    /// Of the blocks of what the source gives those of the names that are wanted.
    fn wanted(
        &self,
        alloc: Global,
        given: &Outputs,
        wanted: &[Vec<u8>],
    ) -> Result<Outputs, BuildStop> {
        let mut outputs = Outputs::new(alloc);
        for name in wanted {
            match self.find(name) {
                Some(number) if given.seen.contains(&number) => outputs.push(Some(number))?,
                _ => return Err(BuildStop::NotGiven(Vec::from_slice(alloc, name)?)),
            }
        }
        Ok(outputs)
    }

    /// The blocks of what a build gives, of names that are wanted, or else of all that its source
    /// gives.
    ///
    /// # Errors
    ///
    /// The first name that the source does not give; where it gives nothing; where memory is
    /// refused.
    pub fn outputs(
        &self,
        alloc: Global,
        paragraph: &Paragraph,
        wanted: Option<&Vec<Vec<u8>>>,
    ) -> Result<Vec<u32>, BuildStop> {
        let given = self.given(alloc, paragraph)?;
        let outputs = match wanted {
            Some(names) => self.wanted(alloc, &given, names)?,
            None => given,
        };
        if outputs.blocks.is_empty() {
            return Err(BuildStop::NothingGiven(self.lack(alloc, paragraph)?));
        }
        Ok(outputs.blocks)
    }
}
