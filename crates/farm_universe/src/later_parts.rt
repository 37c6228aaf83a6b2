//! What a later paragraph of the farm text says whatever stands before it. Most of the time of a
//! farm text goes into this, and several threads do it.

ghost use Rattle.std.specs.Prelude.{◌<◌, ◌≤◌, IfOk, IfSome, length};
ghost use Rattle.deb_stanza.specs.Stanza.{paragraph_at};
ghost use Rattle.farm_universe.specs.FarmView.{AreLaterParts, IsHeldRead, IsLand, land_view};
ghost use Rattle.farm_universe.specs.Parts.{AreReads};

use crate::bases::{HeldRead, read_held};
use crate::build::build_bytes;
use crate::land::Land;
use crate::paragraph::Paragraph;
use crate::recipe_parts::{RecipeParts, read_recipe_parts};
use crate::side_by_side::PART_BYTES;
use deb_stanza::Paragraphs;
use rayon::prelude::*;
use std::alloc::{AllocError, Global};
use std::thread::Threads;

/// What was read of a paragraph: of a recipe what it builds and gives, of a base chroot also what
/// it holds.
#[derive(Drop)]
pub struct LaterParts {
    pub recipe: RecipeParts,
    pub held: Option<HeldRead>,
}

fn is_recipe(paragraph: &Paragraph) -> bool {
    paragraph.field(b"Recipe").is_some()
}

/// Reads what a base chroot holds, where the paragraph is that of one.
fn read_ahead(alloc: Global, land: &Land, paragraph: &Paragraph) -> Option<HeldRead>
    requires { IsLand (land_view land.now) }
    ensures { IfSome result (IsHeldRead (land_view land.now).table paragraph.now) }
{
    if is_recipe(paragraph) {
        return None;
    }
    Some(read_held(alloc, &land.table, paragraph))
}

/// Reads what a paragraph says whatever stands before it.
pub fn read_later_parts(alloc: Global, land: &Land, paragraph: &Paragraph) -> LaterParts
    requires { IsLand (land_view land.now) }
    ensures { AreLaterParts (land_view land.now) paragraph.now result }
{
    LaterParts {
        recipe: read_recipe_parts(alloc, land, paragraph),
        held: read_ahead(alloc, land, paragraph),
    }
}

/// Reads what the paragraphs from one up to another say whatever stands before them, by as many
/// threads as there are processors.
pub fn read_all_later_parts(
    rt: &(impl Threads + Sync),
    alloc: Global,
    land: &Land,
    paragraphs: &Paragraphs,
    from: usize,
    to: usize,
) -> Result<Vec<LaterParts>, AllocError>
    requires land { IsLand (land_view land.now) }
    requires ascends { from ≤ to }
    requires within { to ≤ length paragraphs.now }
    ensures { IfOk result (λ parts.
        AreReads (AreLaterParts (land_view land.now)) paragraphs.now from to parts.items) }
{
    (from..to)
        .into_par_iter()
        .with_min_len(1)
        .map(
            move |number: usize| -> LaterParts
                requires land { IsLand (land_view land.now) }
                requires there { number < length paragraphs.now }
                ensures { AreLaterParts (land_view land.entry.now)
                    (paragraph_at paragraphs.entry.now number) result }
            { read_later_parts(alloc, land, &Paragraph::new(paragraphs, number)) },
        )
        .collect::<Vec<LaterParts>>(rt, alloc)
}

/// Where a part of the paragraphs ends, for the threads that read it: behind this one, and behind
/// as many more of its kind, recipe or base chroot, as begin within [`PART_BYTES`] bytes of fields
/// and of what builds are read from. A short paragraph may name a long source, and a base chroot
/// takes the time of many recipes.
pub fn part_end(alloc: Global, land: &Land, paragraphs: &Paragraphs, first: usize) -> usize
    requires land { IsLand (land_view land.now) }
    requires there { first < length paragraphs.now }
    ensures some { first < result }
    ensures within { result ≤ length paragraphs.now }
{
    let end = paragraphs.part_end(first, PART_BYTES);
    let paragraph = Paragraph::new(paragraphs, first);
    let kind = is_recipe(&paragraph);
    let mut bytes = build_bytes(alloc, land, &paragraph);
    for next in first + 1..end {
        let paragraph = Paragraph::new(paragraphs, next);
        if bytes >= PART_BYTES || is_recipe(&paragraph) != kind {
            return next;
        }
        bytes = bytes.saturating_add(build_bytes(alloc, land, &paragraph));
    }
    end
}
