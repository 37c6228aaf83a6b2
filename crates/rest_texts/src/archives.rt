//! The archive of the farm that goes on.

ghost use Rattle.std.specs.Prelude.{◌≡◌, ◌++◌, ◌∷◌, [], IfOk, OnOk, map};
ghost use Rattle.rest_texts.specs.Said.{named_items, word_item};
ghost use Rattle.rest_texts.specs.Words.{items_came, items_withdrawn};

use crate::lists::{distinct, push_items};
use crate::stop::{Stop, refused};
use crate::words::{Said, item_lines, read_word};
use rest_farm::{Ahead, Item, Items, archive_items, brought_items};
use std::alloc::{AllocError, Global};

/// What is in archives: what the run has left, and what the given farm has; and what is withdrawn by
/// the texts of farms.
#[derive(Clone, Copy)]
pub struct Known<'a> {
    pub left: &'a Items,
    pub given: &'a Items,
    pub gone: &'a [Item],
}

/// The items that words name: those that are withdrawn, and those that came by hand.
#[derive(Drop)]
pub struct NamedItems {
    pub withdrawn: Items,
    pub came: Items,
}

/// The archive of the farm that goes on, what came into it by hand, and what is withdrawn from it.
#[derive(Drop)]
pub struct Archives {
    pub archive: Items,
    pub brought: Items,
    pub gone: Items,
}

fn refused_item(alloc: Global, item: &Item, why: &[&[u8]]) -> Stop {
    refused(item_lines(alloc, item.name(), item.version().text(), why))
}

/// Refuses to withdraw what is not in the archive.
fn judge_withdrawn(alloc: Global, known: Known<'_>, item: &Item) -> Result<(), Stop> {
    if known.left.has_item(item) || known.given.has_item(item) {
        return Ok(());
    }
    Err(refused_item(alloc, item, &[b"it is not in the archive"]))
}

/// Refuses that something came by hand which the run has left, or the farm does not have.
fn judge_came(alloc: Global, known: Known<'_>, item: &Item) -> Result<(), Stop> {
    if known.left.has_item(item) {
        let why = b"the run has it in its archive";
        return Err(refused_item(alloc, item, &[why]));
    }
    if !known.given.has_item(item) {
        let why = b"the farm does not have it in its Archive";
        return Err(refused_item(alloc, item, &[why]));
    }
    Ok(())
}

fn push_withdrawn(
    alloc: Global,
    known: Known<'_>,
    items: &mut Vec<Item>,
    word: &[u8],
) -> Result<(), Stop>
    ensures { OnOk result (items.new.items ≡ items.old.items ++ word_item word.now ∷ []) }
{
    let item = read_word(alloc, word)?;
    judge_withdrawn(alloc, known, &item)?;
    items.push(item)?;
    Ok(())
}

fn push_came(
    alloc: Global,
    known: Known<'_>,
    items: &mut Vec<Item>,
    word: &[u8],
) -> Result<(), Stop>
    ensures { OnOk result (items.new.items ≡ items.old.items ++ word_item word.now ∷ []) }
{
    let item = read_word(alloc, word)?;
    judge_came(alloc, known, &item)?;
    items.push(item)?;
    Ok(())
}

fn withdrawn_items(alloc: Global, known: Known<'_>, words: &[&[u8]]) -> Result<Items, Stop>
    ensures { IfOk result (λ items. items ≡ named_items (map (λ word. word.now) words.now)) }
{
    let mut items = Vec::new(alloc);
    for word in words {
        push_withdrawn(alloc, known, &mut items, word)?;
    }
    Ok(Items::of(alloc, items)?)
}

fn came_items(alloc: Global, known: Known<'_>, words: &[&[u8]]) -> Result<Items, Stop>
    ensures { IfOk result (λ items. items ≡ named_items (map (λ word. word.now) words.now)) }
{
    let mut items = Vec::new(alloc);
    for word in words {
        push_came(alloc, known, &mut items, word)?;
    }
    Ok(Items::of(alloc, items)?)
}

/// The items that words name.
///
/// # Errors
///
/// Refusal 724: no version, an item that is not in the archive, or one that the run has left.
pub fn named_items(alloc: Global, known: Known<'_>, said: Said<'_>) -> Result<NamedItems, Stop>
    ensures withdrawn { IfOk result (λ named. named.withdrawn
        ≡ items_withdrawn said.entry) }
    ensures came { IfOk result (λ named. named.came
        ≡ items_came said.entry) }
{
    let withdrawn = withdrawn_items(alloc, known, said.withdrawn)?;
    let came = came_items(alloc, known, said.came)?;
    Ok(NamedItems { withdrawn, came })
}

fn no_word(alloc: Global, item: &Item) -> Stop {
    let why: [&[u8]; 6] = [
        b"no run has published it: if it came by hand, --came ",
        item.name(),
        b"=",
        item.version().text(),
        b" says so",
        b"",
    ];
    refused_item(alloc, item, &why)
}

/// Refuses what came by hand, and no word says so (724).
fn judge_brought(alloc: Global, came: &Items, brought: &[Item]) -> Result<(), Stop> {
    for item in brought {
        if !came.has_item(item) {
            return Err(no_word(alloc, item));
        }
    }
    Ok(())
}

fn gone_items(alloc: Global, gone: &[Item], withdrawn: &Items) -> Result<Items, AllocError> {
    let mut items = Vec::new(alloc);
    push_items(&mut items, gone)?;
    push_items(&mut items, withdrawn.list())?;
    distinct(alloc, items)
}

/// The archive of the farm that goes on.
///
/// # Errors
///
/// Refusal 724: the given farm has something that no run has left, and no word says that it came by
/// hand.
pub fn archives_of(alloc: Global, known: Known<'_>, named: &NamedItems) -> Result<Archives, Stop> {
    let gone = gone_items(alloc, known.gone, &named.withdrawn)?;
    let brought = brought_items(alloc, known.left, &gone, known.given.list())?;
    judge_brought(alloc, &named.came, &brought)?;
    let brought = Items::of(alloc, brought)?;
    let ahead = Ahead {
        left: known.left,
        brought: &brought,
        gone: &gone,
    };
    let archive = Items::of(alloc, archive_items(alloc, ahead)?)?;
    Ok(Archives {
        archive,
        brought,
        gone,
    })
}
