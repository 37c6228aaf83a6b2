//! The sources of the entries that the waits of a plan name. Each entry is looked for once.

ghost use Rattle.std.specs.Prelude.{◌≡◌, ℕ, ◌<◌, Some, length, slice_get, IfOk, OnOk};
ghost use Rattle.deb_relation.specs.Relations as relations;
ghost use Rattle.plan_model.specs.Plan.{lane};
ghost use Rattle.known_rows.specs.Entries.{IsLonger};
ghost use Rattle.known_rows.specs.EntrySources.{IsNumber, AreMarkNumbers, AreAllSources};
ghost use Rattle.known_rows.specs.Hits.{AreEntrySources};
ghost use Rattle.known_rows.specs.Marks.{AreThere};
ghost use Rattle.known_rows.specs.Supply.{IsWhole};

use crate::column::Source;
use crate::entries::Entries;
use crate::marks::Mark;
use crate::supply::{Supply, sources_of};
use plan_reader::{Instruction, Plan};
use rayon::prelude::*;
use std::alloc::{AllocError, Global};
use std::marker::Model;
use std::thread::Threads;

/// The fewest entries that one thread looks for: to wake another for fewer would take longer.
const ENTRIES_AT_ONCE: usize = 128;

/// The outputs that satisfy an entry, of each lane the first.
#[derive(Drop)]
pub struct Sources {
    sources: Vec<Source>,
}

impl Model for Sources {
    ghost use Rattle.std.specs.Prelude.{List};
    ghost use Rattle.known_rows.specs.declared.column.Source.{Source};

    ghost Value = { List Source };

    ghost view = { λ sources. sources.sources.items };
}

impl Sources {
    /// The sources as a list.
    pub fn sources(&self) -> &[Source]
        ensures { result.now ≡ self.now }
    {
        &self.sources
    }
}

/// The entries that the waits of a plan name, and for each of its marks the number of its entry.
#[derive(Drop)]
pub struct Named<'p> {
    pub entries: Entries<'p>,
    pub numbers: Vec<usize>,
}

/// The number of the entry of a wait. A `when` has none, and gets any.
fn number_of<'p>(plan: &'p Plan, mark: Mark, entries: &mut Entries<'p>) -> Result<usize, AllocError>
    requires lane { mark.lane < length plan.now.lanes }
    requires place { mark.place < length (lane plan.now.lanes mark.lane).instructions }
    ensures number { IfOk result (IsNumber plan.entry.now.lanes entries.new mark) }
    ensures longer { IsLonger entries.old entries.new }
{
    match &plan.lane(mark.lane).instructions()[mark.place] {
        Instruction::Wait(entry) => Ok(entries.number(entry)?),
        Instruction::When { .. }
        | Instruction::Unpack { .. }
        | Instruction::Configure(_)
        | Instruction::Deconfigure(_)
        | Instruction::Remove(_)
        | Instruction::Build(_)
        | Instruction::Publish(_)
        | Instruction::Otherwise
        | Instruction::EndWhen => Ok(0),
    }
}

/// Lists the entries of the waits of a plan.
pub fn named_entries<'p>(
    alloc: Global,
    plan: &'p Plan,
    marks: &[Mark],
) -> Result<Named<'p>, AllocError>
    requires { AreThere plan.now.lanes marks.now }
    ensures { IfOk result (λ named. AreMarkNumbers plan.now.lanes named.entries marks.now
        named.numbers.items (length marks.now)) }
{
    let mut entries = Entries::new(alloc)?;
    let mut numbers = Vec::with_capacity(alloc, marks.len())?;
    for w in 0..marks.len() {
        numbers.push(number_of(plan, marks[w], &mut entries)?)?;
    }
    Ok(Named { entries, numbers })
}

/// The sources of the entry of a number.
fn entry_sources(
    alloc: Global,
    supply: Supply<'_>,
    entries: &Entries<'_>,
    number: usize,
) -> Result<Sources, AllocError>
    requires supply { IsWhole supply }
    requires there { number < length entries.now }
    ensures { IfOk result (λ sources. (e : relations.Entry) → slice_get entries.now number ≡ Some e
        → AreEntrySources supply.entry.universe.now supply.entry.plan.now.lanes e sources) }
{
    let row = supply
        .tables
        .entry_row(alloc, supply.universe, entries.entry(number))?;
    Ok(Sources {
        sources: sources_of(alloc, supply, &row)?,
    })
}

/// The sources of each of the entries, by as many threads as there are processors.
pub fn all_sources(
    rt: &(impl Threads + Sync),
    alloc: Global,
    supply: Supply<'_>,
    entries: &Entries<'_>,
) -> Result<Vec<Sources>, AllocError>
    requires { IsWhole supply }
    ensures { IfOk result (λ all. AreAllSources supply.entry.universe.now
        supply.entry.plan.now.lanes entries.now all.items) }
{
    let all = (0..entries.len())
        .into_par_iter()
        .with_min_len(ENTRIES_AT_ONCE)
        .map(
            move |number: usize| -> Result<Sources, AllocError>
                requires supply { IsWhole supply }
                requires there { number < length entries.now }
                ensures { IfOk result (λ sources. (e : relations.Entry)
                    → slice_get entries.entry.now number ≡ Some e
                    → AreEntrySources supply.entry.universe.now supply.entry.plan.now.lanes e
                    sources) }
            { entry_sources(alloc, supply, entries, number) },
        )
        .collect::<Result<Vec<Sources>, AllocError>>(rt, alloc)??;
    Ok(all)
}
