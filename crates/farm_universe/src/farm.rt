//! The farm text.

ghost use Rattle.std.specs.Prelude.{◌≡◌, [], IfErr, IfOk, IfSome, OnOk, drop};
ghost use Rattle.deb_text.specs.Answers.{Gives, refusal_of as fault_of};
ghost use Rattle.farm_universe.specs.Before.{Leaves, Refuses, bare_land, before_farm, refused_for};
ghost use Rattle.farm_universe.specs.FarmText.{later_at, tell_later, yard_of, land_at, farm_of};
ghost use Rattle.farm_universe.specs.FarmView.{AreLaterParts, IsHeldRead, IsLand, IsYard, farm_view, land_view, yard_view};
ghost use Rattle.farm_universe.specs.SourceView.{source_view, IsSourceTable};
ghost use Rattle.farm_universe.specs.TableView.{table_view, IsFit};
ghost use Rattle.farm_universe.specs.View.{refusal_of};

use crate::base::Base;
use crate::bases::{HeldRead, add_base, read_held};
use crate::error::{ABSENT, FieldFault, told};
use crate::land::{Land, make_land, tell_head};
use crate::later_parts::{LaterParts, part_end, read_all_later_parts, read_later_parts};
use crate::limits::MOST_RECIPES;
use crate::list::empty_list;
use crate::package_table::PackageTable;
use crate::paragraph::Paragraph;
use crate::recipes::{RecipeList, add_recipe};
use crate::refused::Refused;
use crate::side_by_side::{PART_BYTES, is_short, take_part};
use crate::source_table::SourceTable;
use crate::steps::{ParagraphStep, read_steps};
use crate::universe::assemble;
use deb_profile::ArchNames;
use deb_stanza::Paragraphs;
use deb_text::Fault;
use deb_text::files::FARM;
use item_index::ItemIndex;
use std::alloc::{AllocError, Global};
use std::thread::Threads;

/// How many bytes of recipes and base chroots threads read sooner than one does. They take longer
/// for each byte than packages do.
const FARM_BYTES_FOR_THREADS: usize = PART_BYTES / 16;

/// What the later paragraphs say so far.
#[derive(Drop)]
pub struct Yard {
    pub recipes: RecipeList,
    pub bases: Vec<Base>,
}

/// What the farm text says.
#[derive(Drop)]
pub struct Farm {
    pub land: Land,
    pub yard: Yard,
}

/// What a base chroot holds, where it was not read yet.
fn held_of(alloc: Global, land: &Land, paragraph: &Paragraph, ahead: Option<HeldRead>) -> HeldRead
    requires land { IsLand (land_view land.now) }
    requires ahead { IfSome ahead (IsHeldRead (land_view land.now).table paragraph.now) }
    ensures { IsHeldRead (land_view land.now).table paragraph.now result }
{
    match ahead {
        Some(held) => held,
        None => read_held(alloc, &land.table, paragraph),
    }
}

/// Goes on by a paragraph, of which these parts were read.
#[tactic(auto, unfolding(crate::specs::FarmText::later_at))]
fn add_later(
    alloc: Global,
    land: &Land,
    yard: &mut Yard,
    paragraph: &Paragraph,
    parts: LaterParts,
) -> Result<(), FieldFault>
    requires land { IsLand (land_view land.now) }
    requires yard { IsYard (land_view land.now) yard.old }
    requires parts { AreLaterParts (land_view land.now) paragraph.now parts }
    ensures read { Gives refusal_of (λ _. yard_view yard.new) result
        (later_at (land_view land.now) (yard_view yard.old) paragraph.now) }
    ensures yard { OnOk result (IsYard (land_view land.now) yard.new) }
{
    match paragraph.field(b"Recipe") {
        Some(given) => {
            add_recipe(
                alloc,
                land,
                &mut yard.recipes,
                paragraph,
                given,
                parts.recipe,
            )
        }
        None => {
            let held = held_of(alloc, land, paragraph, parts.held);
            add_base(alloc, &land.table, &mut yard.bases, paragraph, held)
        }
    }
}

/// Goes on by a paragraph, and tells its fault at its line.
#[derive(Drop)]
struct YardStep<'a> {
    land: &'a Land,
}

impl ParagraphStep for YardStep<'_> {
    ghost use Rattle.farm_universe.specs.FarmText as text;

    type SoFar = Yard;

    type Part = LaterParts;

    ghost Said = { text.Yard };

    ghost said = { yard_view };

    ghost ready = { λ s. IsLand (land_view s.land.now) };

    ghost is_part = { λ s p parts. AreLaterParts (land_view s.land.now) p parts };

    ghost fits = { λ s yard. IsYard (land_view s.land.now) yard };

    ghost step = { λ s. tell_later (land_view s.land.now) };

    fn read(&self, alloc: Global, paragraph: &Paragraph) -> LaterParts {
        read_later_parts(alloc, self.land, paragraph)
    }

    #[tactic(auto, using(crate::proofs::ToldLaws::gives_told))]
    fn take(
        &self,
        alloc: Global,
        yard: &mut Yard,
        paragraph: &Paragraph,
        parts: LaterParts,
    ) -> Result<(), Fault> {
        told(
            FARM,
            paragraph,
            add_later(alloc, self.land, yard, paragraph, parts),
        )
    }
}

/// A yard without a recipe and without a base chroot.
fn empty_yard(alloc: Global, land: &Land) -> Result<Yard, AllocError>
    requires { IsLand (land_view land.now) }
    ensures empty { IfOk result
        (λ yard. yard_view yard ≡ record { recipes = []; bases = [] }) }
    ensures yard { IfOk result (IsYard (land_view land.now)) }
{
    Ok(Yard {
        recipes: RecipeList {
            recipes: Vec::new(alloc),
            by_name: ItemIndex::new(alloc, MOST_RECIPES)?,
            taken: land.initial.clone()?,
            entries: 0,
        },
        bases: Vec::new(alloc),
    })
}

/// Reads the paragraphs behind the first.
fn read_yard(alloc: Global, land: &Land, paragraphs: &Paragraphs) -> Result<Yard, Fault>
    requires { IsLand (land_view land.now) }
    ensures read { Gives fault_of yard_view result
        (yard_of (land_view land.now) (drop 1 paragraphs.now)) }
    ensures yard { IfOk result (IsYard (land_view land.now)) }
{
    let empty = empty_yard(alloc, land)?;
    read_steps(alloc, &YardStep { land }, empty, paragraphs, 1)
}

/// Reads the paragraphs behind the first by as many threads as there are processors, unless they
/// are short.
fn read_yard_side_by_side(
    rt: &(impl Threads + Sync),
    alloc: Global,
    land: &Land,
    paragraphs: &Paragraphs,
) -> Result<Yard, Fault>
    requires { IsLand (land_view land.now) }
    ensures read { Gives fault_of yard_view result
        (yard_of (land_view land.now) (drop 1 paragraphs.now)) }
    ensures yard { IfOk result (IsYard (land_view land.now)) }
{
    if is_short(paragraphs, 1, FARM_BYTES_FOR_THREADS) {
        return read_yard(alloc, land, paragraphs);
    }
    let mut yard = empty_yard(alloc, land)?;
    let step = YardStep { land };
    let mut number = 1;
    while number < paragraphs.count() {
        let end = part_end(alloc, land, paragraphs, number);
        let parts = read_all_later_parts(rt, alloc, land, paragraphs, number, end)?;
        take_part(alloc, &step, &mut yard, paragraphs, number, parts)?;
        number = end;
    }
    Ok(yard)
}

/// The packages as they are written, without names of the architecture and an initial archive.
fn bare_land(alloc: Global, table: PackageTable, sources: SourceTable) -> Result<Land, AllocError>
    requires fit { IsFit (table_view table) }
    requires sources { IsSourceTable (source_view sources) }
    ensures bare { IfOk result
        (λ land. land_view land ≡ bare_land (table_view table) (source_view sources)) }
    ensures land { IfOk result (λ land. IsLand (land_view land)) }
{
    let Ok(architectures) = ArchNames::parse(alloc, b"") else {
        return Err(AllocError);
    };
    let Ok(empty) = empty_list(alloc, &table) else {
        return Err(AllocError);
    };
    Ok(Land {
        table,
        sources,
        architectures,
        initial: empty.words,
    })
}

/// The refusal of a farm text for this fault, where this stands before it.
fn refuse(alloc: Global, land: Land, fault: Fault) -> Refused
    requires { IsLand (land_view land) }
    ensures { Refuses result fault (land_view land) }
{
    match empty_yard(alloc, &land) {
        Ok(yard) => Refused {
            fault,
            before: Some(assemble(Farm { land, yard })),
        },
        Err(error) => Refused::from(error),
    }
}

/// Reads what the later paragraphs are read against: the first one, behind packages and sources.
#[tactic(auto, unfolding(crate::specs::FarmText::land_at))]
fn read_land(
    alloc: Global,
    table: PackageTable,
    sources: SourceTable,
    paragraphs: &Paragraphs,
) -> Result<Land, Refused>
    requires fit { IsFit (table_view table) }
    requires sources { IsSourceTable (source_view sources) }
    ensures read { Gives refused_for land_view result
        (land_at (table_view table) (source_view sources) paragraphs.now) }
    ensures land { IfOk result (λ land. IsLand (land_view land)) }
    ensures before { IfErr result (λ refused. Leaves refused
        (before_farm (table_view table) (source_view sources) paragraphs.now)) }
{
    if paragraphs.count() == 0 {
        return Err(Refused::from(Fault::place(FARM, 0, ABSENT)));
    }
    match tell_head(alloc, &table, &Paragraph::new(paragraphs, 0)) {
        Ok(head) => Ok(make_land(alloc, table, sources, head)?),
        Err(fault) => {
            let land = bare_land(alloc, table, sources)?;
            Err(refuse(alloc, land, fault))
        }
    }
}

/// Reads the paragraphs of the farm text.
///
/// # Errors
///
/// 201 at line 0 where there is no paragraph; else the first fault of a paragraph, told at its
/// first line, with what stands before it. [`Fault::MEMORY`] where memory is refused.
#[tactic(auto, unfolding(crate::specs::FarmText::farm_of))]
pub fn read_farm(
    alloc: Global,
    table: PackageTable,
    sources: SourceTable,
    paragraphs: &Paragraphs,
) -> Result<Farm, Refused>
    requires fit { IsFit (table_view table) }
    requires sources { IsSourceTable (source_view sources) }
    ensures read { Gives refused_for farm_view result
        (farm_of (table_view table) (source_view sources) paragraphs.now) }
    ensures land { IfOk result (λ farm. IsLand (land_view farm.land)) }
    ensures yard { IfOk result (λ farm. IsYard (land_view farm.land) farm.yard) }
    ensures before { IfErr result (λ refused. Leaves refused
        (before_farm (table_view table) (source_view sources) paragraphs.now)) }
{
    let land = read_land(alloc, table, sources, paragraphs)?;
    match read_yard(alloc, &land, paragraphs) {
        Ok(yard) => Ok(Farm { land, yard }),
        Err(fault) => Err(refuse(alloc, land, fault)),
    }
}

/// Reads the paragraphs of the farm text as [`read_farm`] does, by as many threads as there are
/// processors.
///
/// # Errors
///
/// Those of [`read_farm`].
#[tactic(auto, unfolding(crate::specs::FarmText::farm_of))]
pub fn read_farm_side_by_side(
    rt: &(impl Threads + Sync),
    alloc: Global,
    table: PackageTable,
    sources: SourceTable,
    paragraphs: &Paragraphs,
) -> Result<Farm, Refused>
    requires fit { IsFit (table_view table) }
    requires sources { IsSourceTable (source_view sources) }
    ensures read { Gives refused_for farm_view result
        (farm_of (table_view table) (source_view sources) paragraphs.now) }
    ensures land { IfOk result (λ farm. IsLand (land_view farm.land)) }
    ensures yard { IfOk result (λ farm. IsYard (land_view farm.land) farm.yard) }
    ensures before { IfErr result (λ refused. Leaves refused
        (before_farm (table_view table) (source_view sources) paragraphs.now)) }
{
    let land = read_land(alloc, table, sources, paragraphs)?;
    match read_yard_side_by_side(rt, alloc, &land, paragraphs) {
        Ok(yard) => Ok(Farm { land, yard }),
        Err(fault) => Err(refuse(alloc, land, fault)),
    }
}
