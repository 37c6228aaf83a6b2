//! The indexes of an import, cut and listed by names.

ghost use Rattle.std.specs.Prelude.{◌++◌, All, IfOk, OnOk};
ghost use Rattle.import_farm.specs.Made.{GetsBlocks, IsBlockIn, IsBlockOf, IsCutOf};
ghost use Rattle.debian_index.specs.Index.{AreBlocks};

use crate::imported::NamedText;
use crate::refusals::{Stop, fault_in};
use crate::watch::Watch;
use deb_profile::ArchNames;
use deb_text::Fault;
use debian_index::{Block, cut_index};
use import_closure::{NameTable, PackageNames, add_source_block};
use std::alloc::{AllocError, Global};

/// The blocks of Packages indexes: those of what builds give, and behind them those of what is
/// there at the beginning. The first stand for both where there are no others.
#[derive(Drop)]
pub struct Packages<'a> {
    pub blocks: Vec<&'a [u8]>,
    pub target: PackageNames,
    pub own: Option<PackageNames>,
}

impl Packages<'_> {
    /// The names of what is there at the beginning.
    pub fn archive(&self) -> &PackageNames {
        match &self.own {
            Some(names) => names,
            None => &self.target,
        }
    }
}

/// Puts the blocks of a text behind others, by their places.
fn push_cut<'a>(blocks: &mut Vec<&'a [u8]>, text: &'a [u8], cut: &[Block]) -> Result<(), AllocError>
    requires { AreBlocks text.now cut.now }
    ensures { OnOk result (GetsBlocks (IsCutOf text.now cut.now) blocks.old.items blocks.new.items) }
{
    for block in cut {
        blocks.push(block.bytes(text))?;
    }
    Ok(())
}

/// Puts the blocks of an index behind others, each as it stands in its text.
fn push_blocks<'a>(alloc: Global, blocks: &mut Vec<&'a [u8]>, text: &'a [u8]) -> Result<(), Fault>
    ensures { OnOk result (GetsBlocks (IsBlockOf text.now) blocks.old.items blocks.new.items) }
{
    let cut = cut_index(alloc, text)?;
    push_cut(blocks, text, &cut)?;
    Ok(())
}

/// The same of an index with a name, a fault told in it.
fn push_text<'a>(alloc: Global, blocks: &mut Vec<&'a [u8]>, text: NamedText<'a>) -> Result<(), Stop>
    ensures { OnOk result (GetsBlocks (IsBlockOf text.entry.bytes.now) blocks.old.items blocks.new.items) }
{
    match push_blocks(alloc, blocks, text.bytes) {
        Ok(()) => Ok(()),
        Err(fault) => Err(fault_in(alloc, text.name.as_bytes(), fault)),
    }
}

/// Where blocks are listed by names.
trait Listing {
    /// Lists the block of a number.
    fn add(&mut self, alloc: Global, number: u32, block: &[u8]) -> Result<(), AllocError>;
}

/// The packages of an architecture.
#[derive(Drop)]
struct PackageListing<'a> {
    architectures: &'a ArchNames,
    names: PackageNames,
}

impl Listing for PackageListing<'_> {
    fn add(&mut self, alloc: Global, number: u32, block: &[u8]) -> Result<(), AllocError> {
        self.names
            .add_block(alloc, self.architectures, number, block)
    }
}

/// Sources.
#[derive(Drop)]
struct SourceListing {
    names: NameTable,
}

impl Listing for SourceListing {
    fn add(&mut self, alloc: Global, number: u32, block: &[u8]) -> Result<(), AllocError> {
        add_source_block(alloc, &mut self.names, number, block)
    }
}

/// Blocks, those of the index of a name from a number on.
#[derive(Clone, Copy)]
struct Added<'a> {
    blocks: &'a [&'a [u8]],
    first: usize,
    name: &'a str,
}

/// Lists the blocks of an index.
fn list<L: Listing, W: Watch>(
    alloc: Global,
    listing: &mut L,
    added: Added,
    watch: &mut W,
) -> Result<(), AllocError> {
    let blocks = added.blocks.get(added.first..).unwrap_or(&[]);
    let mut number = u32::try_from(added.first).unwrap_or(u32::MAX);
    for (at, block) in blocks.iter().enumerate() {
        watch.reads(added.name, at, blocks.len());
        listing.add(alloc, number, block)?;
        number = number.saturating_add(1);
    }
    Ok(())
}

/// Puts the blocks of an index behind others, and lists them.
fn add_text<'a, L: Listing, W: Watch>(
    alloc: Global,
    blocks: &mut Vec<&'a [u8]>,
    listing: &mut L,
    text: NamedText<'a>,
    watch: &mut W,
) -> Result<(), Stop>
    ensures { OnOk result (GetsBlocks (IsBlockOf text.entry.bytes.now) blocks.old.items blocks.new.items) }
{
    watch.reads(text.name, 0, 1);
    let first = blocks.len();
    push_text(alloc, blocks, text)?;
    let added = Added {
        blocks,
        first,
        name: text.name,
    };
    list(alloc, listing, added, watch)?;
    Ok(())
}

/// The same of several indexes.
fn add_all<'a, L: Listing, W: Watch>(
    alloc: Global,
    blocks: &mut Vec<&'a [u8]>,
    listing: &mut L,
    texts: &[NamedText<'a>],
    watch: &mut W,
) -> Result<(), Stop>
    ensures { OnOk result (GetsBlocks (IsBlockIn texts.now) blocks.old.items blocks.new.items) }
{
    for text in texts {
        add_text(alloc, blocks, listing, *text, watch)?;
    }
    Ok(())
}

/// Cuts Packages indexes, and lists their packages by names.
///
/// # Errors
///
/// The first fault of the form of an index, of those of what builds give first.
pub fn read_packages<'a, W: Watch>(
    alloc: Global,
    architectures: &ArchNames,
    target: &[NamedText<'a>],
    archive: &[NamedText<'a>],
    watch: &mut W,
) -> Result<Packages<'a>, Stop>
    ensures { IfOk result (λ packages.
        All (λ block. IsBlockIn (target.now ++ archive.now) block.now) packages.blocks.items) }
{
    let mut blocks = Vec::new(alloc);
    let mut made = PackageListing {
        architectures,
        names: PackageNames::new(alloc),
    };
    add_all(alloc, &mut blocks, &mut made, target, watch)?;
    let mut own = PackageListing {
        architectures,
        names: PackageNames::new(alloc),
    };
    add_all(alloc, &mut blocks, &mut own, archive, watch)?;
    Ok(Packages {
        blocks,
        target: made.names,
        own: if archive.is_empty() {
            None
        } else {
            Some(own.names)
        },
    })
}

/// The blocks of Sources indexes, and their numbers by the names of their sources.
#[derive(Drop)]
pub struct Sources<'a> {
    pub blocks: Vec<&'a [u8]>,
    pub names: NameTable,
}

/// Cuts Sources indexes, and lists their sources by names.
///
/// # Errors
///
/// The first fault of the form of an index.
pub fn read_sources<'a, W: Watch>(
    alloc: Global,
    texts: &[NamedText<'a>],
    watch: &mut W,
) -> Result<Sources<'a>, Stop>
    ensures { IfOk result (λ sources. All (λ block. IsBlockIn texts.now block.now) sources.blocks.items) }
{
    let mut blocks = Vec::new(alloc);
    let mut listing = SourceListing {
        names: NameTable::new(alloc),
    };
    add_all(alloc, &mut blocks, &mut listing, texts, watch)?;
    Ok(Sources {
        blocks,
        names: listing.names,
    })
}
