//! Notes as objects.

ghost use Rattle.std.specs.Prelude.{◌≡◌, ◌∷◌, [], Some, IfOk, OnOk, option_map};
ghost use Rattle.explain_answers.specs.Facts as facts;
ghost use Rattle.explain_answers.specs.Facts.{Number, Words, about, held, with_fact, with_facts};
ghost use Rattle.explain_lanes.specs.Notes as notes;
ghost use Rattle.explain_lanes.specs.Notes.{place_facts};
ghost use Rattle.plan_reader.specs.Variants.{variant_text};
ghost use Rattle.serde_json.specs.View.{view};

use deb_relation::Entry;
use explain_faults::FaultFacts;
use explain_lanes::entries::{entry_of, field_text, need_of};
use explain_lanes::{Further, Note, NotePlace, Told};
use explain_reasons::Reason;
use farm_universe::{Universe, Variant};
use plan_reader::{Origin, Plan, lane_name, name_of, push_entry, push_variant};
use serde_json::{Map, Value, put};
use shown_text::{line_list, text_value};
use std::alloc::{AllocError, Global};

/// What notes are on: texts that can be read, as a universe and the plan over it; or a text that is
/// refused, by what the refusal is about.
#[derive(Clone, Copy)]
pub enum Subject<'a> {
    Farm(&'a Universe, &'a Plan),
    Fault(&'a FaultFacts),
}

/// Whether members stand in an object now: not where memory is refused.
type Added = Result<(), AllocError>;

/// The members of a note. What is none is no member.
#[derive(Drop)]
struct NoteObject {
    alloc: Global,
    members: Map<String, Value>,
}

impl NoteObject {
    /// Adds a number.
    fn number(&mut self, word: &str, number: Option<u64>) -> Added
        ensures { OnOk result (held self.new ≡ with_fact (held self.old) (Number word.now number)) }
    {
        match number {
            Some(number) => put(&mut self.members, self.alloc, word, Value::from(number)),
            None => Ok(()),
        }
    }

    /// Adds three numbers.
    fn three(&mut self, a: (&str, u64), b: (&str, u64), c: (&str, u64)) -> Added
        ensures { OnOk result (held self.new ≡ with_facts (held self.old)
            (Number a.entry.0.now (Some a.entry.1) ∷ Number b.entry.0.now (Some b.entry.1)
            ∷ Number c.entry.0.now (Some c.entry.1) ∷ [])) }
    {
        self.number(a.0, Some(a.1))?;
        self.number(b.0, Some(b.1))?;
        self.number(c.0, Some(c.1))
    }

    /// Adds a text.
    fn text(&mut self, word: &str, text: Option<&[u8]>) -> Added
        ensures { OnOk result (held self.new ≡ with_fact (held self.old)
            (Words word.now (option_map (λ t. t.now) text.entry))) }
    {
        let Some(text) = text else {
            return Ok(());
        };
        let value = text_value(self.alloc, text)?;
        put(&mut self.members, self.alloc, word, value)
    }

    /// Adds a variant.
    fn variant(&mut self, word: &str, universe: &Universe, variant: Variant) -> Added
        ensures { OnOk result (held self.new ≡ with_fact (held self.old)
            (Words word.now (Some (variant_text universe.now variant)))) }
    {
        let mut text = Vec::new(self.alloc);
        push_variant(&mut text, universe, variant)?;
        self.text(word, Some(text.as_slice()))
    }

    /// Adds a field, and an entry of it.
    fn asked(&mut self, field: &[u8], entry: Option<&Entry>) -> Added
        ensures { OnOk result (held self.new ≡ with_facts (held self.old)
            (facts.asked_facts field.now (option_map (λ e. e.now) entry.entry))) }
    {
        self.text("field", Some(field))?;
        let Some(entry) = entry else {
            return Ok(());
        };
        let mut text = Vec::new(self.alloc);
        push_entry(&mut text, entry)?;
        self.text("entry", Some(text.as_slice()))
    }
}

/// Adds what a reason is about.
fn add_reason(note: &mut NoteObject, universe: &Universe, reason: Reason) -> Added
    ensures { OnOk result (held note.new
        ≡ with_facts (held note.old) (facts.reason_facts universe.now reason)) }
{
    match reason {
        Reason::OverBudget {
            spent,
            cost,
            budget,
        } => note.three(("spent", spent), ("cost", cost), ("budget", budget)),
        Reason::Full {
            used,
            added,
            capacity,
        } => note.three(("used", used), ("added", added), ("capacity", capacity)),
        Reason::Missing(name) | Reason::Unsettled(name) | Reason::WrongState(name) => {
            note.text("package", Some(name_of(universe, name)))
        }
        Reason::Unmet(variant, field, entry) | Reason::StillNeeded(variant, field, entry) => {
            note.variant("variant", universe, variant)?;
            note.asked(field_text(field), entry_of(universe, variant, field, entry))
        }
        Reason::BuildNeed(recipe, entry) => {
            note.text("recipe", Some(universe.recipe_name(recipe)))?;
            note.asked(b"Build-Depends", need_of(universe, recipe, entry))
        }
        Reason::Conflict(variant, other) | Reason::Breaks(variant, other) => {
            note.variant("variant", universe, variant)?;
            note.variant("other", universe, other)
        }
        Reason::BuildConflict(recipe, variant) => {
            note.text("recipe", Some(universe.recipe_name(recipe)))?;
            note.variant("variant", universe, variant)
        }
        Reason::Essential(variant) => note.variant("variant", universe, variant),
        Reason::NotBuilt(recipe) => note.text("recipe", Some(universe.recipe_name(recipe))),
    }
}

/// Adds what is told of a farm.
fn add_told(note: &mut NoteObject, universe: &Universe, plan: &Plan, told: Told) -> Added
    ensures { OnOk result (held note.new
        ≡ with_facts (held note.old) (facts.told_facts universe.now plan.now.lanes told)) }
{
    match told {
        Told::Trap(reason) => add_reason(note, universe, reason),
        Told::Uneven(name) => note.text("package", Some(name_of(universe, name))),
        Told::Stuck(_, Some(next)) => note.text("waits_for", Some(lane_name(plan, next))),
        Told::Circle(first) => note.text("lane", Some(lane_name(plan, first))),
        Told::FromStart(variant) => note.variant("variant", universe, variant),
        Told::Coming(variant, more) => {
            note.variant("variant", universe, variant)?;
            note.number("more", Some(more as u64))
        }
        Told::Stuck(_, None) | Told::Text(_) => Ok(()),
    }
}

/// Adds what is told further.
fn add_further(note: &mut NoteObject, universe: &Universe, plan: &Plan, further: &Further) -> Added
    ensures { OnOk result (held note.new ≡ with_facts (held note.old)
        (facts.further_facts universe.now plan.now.lanes (notes.further_facts further.now))) }
{
    let mut texts = Vec::new(note.alloc);
    match further {
        Further::Nothing => Ok(()),
        Further::MayBe(variants) => {
            for variant in variants {
                let mut text = Vec::new(note.alloc);
                push_variant(&mut text, universe, *variant)?;
                texts.push(text_value(note.alloc, &text)?)?;
            }
            put(&mut note.members, note.alloc, "may_be", Value::Array(texts))
        }
        Further::Needs(needs) => note.number("needs", *needs),
        Further::Lanes(lanes) => {
            for lane in lanes {
                texts.push(text_value(note.alloc, lane_name(plan, *lane))?)?;
            }
            put(&mut note.members, note.alloc, "lanes", Value::Array(texts))
        }
    }
}

/// Adds what a refusal of a text is about.
fn add_fault(note: &mut NoteObject, fault: &FaultFacts) -> Added
    ensures { OnOk result (held note.new ≡ with_facts (held note.old) (facts.fault_facts fault.now)) }
{
    let item = match fault.item {
        Some(place) => Some(place.checked_add(1).ok_or(AllocError)? as u64),
        None => None,
    };
    note.text("field", fault.field)?;
    note.number("item", item)?;
    note.number("item_line", fault.item_line.map(|line| line as u64))?;
    note.text("word", fault.word.as_deref())?;
    note.number("plan_line", fault.plan_line.map(|line| u64::from(line)))
}

/// Adds an instruction's line in the plan, and that of the `use` that brings it in.
fn add_lines(note: &mut NoteObject, origin: Option<Origin>) -> Added
    ensures { OnOk result (held note.new ≡ with_facts (held note.old) (facts.line_facts origin)) }
{
    note.number("plan_line", origin.map(|origin| u64::from(origin.line)))?;
    let used = origin.and_then(|origin| origin.used);
    note.number("use_line", used.map(|line| u64::from(line)))
}

/// Adds an instruction, and what is known of it, where there is one.
fn add_place(note: &mut NoteObject, place: &Option<NotePlace>) -> Added
    ensures { OnOk result (held note.new ≡ with_facts (held note.old)
        (facts.where_facts (option_map place_facts place.now))) }
{
    let Some(place) = place else {
        return Ok(());
    };
    note.number("instruction", Some(place.instruction))?;
    note.text("lane", Some(place.lane.as_slice()))?;
    add_lines(note, place.origin)?;
    note.text("trap", place.trap.map(|trap| trap.text().as_bytes()))
}

/// A note as an object.
fn reason_value(alloc: Global, subject: Subject<'_>, note: &Note) -> Result<Value, AllocError>
    ensures { IfOk result (λ value. view value
        ≡ facts.reason_data (about subject.entry) note.now) }
{
    let mut lines = Vec::from_slice(alloc, &note.head)?;
    lines.extend_from_slice(&note.text)?;
    let members = Map::new(alloc);
    let mut made = NoteObject { alloc, members };
    made.text("kind", Some(note.told.word().as_bytes()))?;
    put(&mut made.members, alloc, "lines", line_list(alloc, &lines)?)?;
    match subject {
        Subject::Farm(universe, plan) => {
            add_told(&mut made, universe, plan, note.told)?;
            add_further(&mut made, universe, plan, &note.further)?;
        }
        Subject::Fault(fault) => add_fault(&mut made, fault)?,
    }
    add_place(&mut made, &note.place)?;
    Ok(Value::Object(made.members))
}

/// Gives notes as a list of objects.
pub fn reason_list(alloc: Global, subject: Subject<'_>, notes: &[Note]) -> Result<Value, AllocError>
    ensures { IfOk result (λ value. view value
        ≡ facts.reasons_data (about subject.entry) notes.now) }
{
    let mut values = Vec::new(alloc);
    for note in notes {
        values.push(reason_value(alloc, subject, note)?)?;
    }
    Ok(Value::Array(values))
}
