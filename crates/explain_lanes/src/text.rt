//! Lines of notes: words, and what stands in their places.

use crate::subject::Subject;
use crate::variants::{has, has_some, likely_names, satisfies};
use deb_relation::Entry;
use deb_text::push_pieces;
use explain_faults::{NearNames, is_near_or_longer};
use farm_universe::{Universe, Variant};
use itoa::Buffer;
use may_rows::{MayHold, variant_count};
use plan_reader::{
    Origin, Plan, lane_name, name_of, push_entry, push_instruction, push_variant, version_of,
};
use std::alloc::AllocError;

/// Whether words stand in a text now: not where memory is refused.
pub type Said = Result<(), AllocError>;

/// What stands in the place of a `%`.
#[derive(Clone, Copy)]
pub enum Piece<'a> {
    Words(&'a [u8]),
    Number(u64),
    Name(u32),
    Package(Variant),
    /// `recipe NAME`.
    Recipe(u32),
    Entry(&'a Entry),
    Lane(usize),
    /// `(instruction N, plan line M)`, of a lane's instruction, by its place.
    At(usize, usize),
    /// The plan's line of it.
    Line(usize, usize),
    /// The same, with the instruction.
    Instruction(usize, usize),
}

/// Lines that tell of a plan over a universe.
#[derive(Drop)]
pub struct Text<'a> {
    pub universe: &'a Universe,
    pub plan: &'a Plan,
    pub bytes: Vec<u8>,
}

impl<'a> Text<'a> {
    /// No lines.
    pub(crate) fn new(of: Subject<'a>) -> Text<'a> {
        Text {
            universe: of.universe,
            plan: of.plan,
            bytes: Vec::new(of.alloc),
        }
    }

    fn push_instruction(&mut self, lane: usize, place: usize) -> Said {
        push_place(&mut self.bytes, self.plan.lines().origin(lane, place))?;
        push_pieces(&mut self.bytes, &[b": "])?;
        if lane >= self.plan.lanes() {
            return Ok(());
        }
        match self.plan.instruction(lane, place) {
            Some(instruction) => push_instruction(&mut self.bytes, self.universe, instruction),
            None => Ok(()),
        }
    }

    fn push_at(&mut self, lane: usize, place: usize) -> Said {
        let number = place.saturating_add(1) as u64;
        push_count(&mut self.bytes, b"(instruction ", number)?;
        if let Some(origin) = self.plan.lines().origin(lane, place) {
            push_count(&mut self.bytes, b", plan line ", u64::from(origin.line))?;
        }
        push_pieces(&mut self.bytes, &[b")"])
    }

    /// The versions of a set, a space before each: where there is an entry, those that do not
    /// satisfy it.
    fn push_versions(&mut self, name: u32, unmet: Option<&Entry>, set: u64) -> Said {
        for bit in 0..variant_count(self.universe, name) {
            let variant = Variant { name, bit };
            let is_met = matches!(unmet, Some(entry) if satisfies(self.universe, entry, variant));
            if has(set, variant) && !is_met {
                push_pieces(&mut self.bytes, &[b" ", version_of(self.universe, variant)])?;
            }
        }
        Ok(())
    }

    /// Tells whether all versions of a set satisfy an entry that is asked for.
    fn all_satisfy(&self, name: u32, unmet: Option<&Entry>, set: u64) -> bool {
        let Some(entry) = unmet else {
            return false;
        };
        for bit in 0..variant_count(self.universe, name) {
            let variant = Variant { name, bit };
            if has(set, variant) && !satisfies(self.universe, entry, variant) {
                return false;
            }
        }
        true
    }

    /// Puts a name and what may be held of it at the end: of a configured name, where there is an
    /// entry that is not met, what does not satisfy it; where an unpack asks for that, what was
    /// configured last. A package that is unpacked never meets a need of its own.
    pub(crate) fn push_held(
        &mut self,
        state: &MayHold,
        name: u32,
        unmet: Option<&Entry>,
        asks: bool,
    ) -> Said {
        let here = state.here_word(name);
        push_pieces(&mut self.bytes, &[name_of(self.universe, name)])?;
        if here == 0 {
            return push_pieces(&mut self.bytes, &[b": absent"]);
        }
        if state.ready_word(name) != 0 {
            if self.all_satisfy(name, unmet, here) {
                let own = b": configured, which does not count for itself";
                return push_pieces(&mut self.bytes, &[own]);
            }
            push_pieces(&mut self.bytes, &[b": configured, may be"])?;
            return self.push_versions(name, unmet, here);
        }
        push_pieces(&mut self.bytes, &[b": unpacked, may be"])?;
        self.push_versions(name, None, here)?;
        let last = state.last_word(name);
        if !asks || unmet.is_none() {
            Ok(())
        } else if has_some(self.universe, name, last) {
            push_pieces(&mut self.bytes, &[b", last configured"])?;
            self.push_versions(name, None, last)
        } else {
            push_pieces(&mut self.bytes, &[b", not surely configured before"])
        }
    }

    fn push(&mut self, piece: Piece<'_>) -> Said {
        let universe = self.universe;
        let text = &mut self.bytes;
        match piece {
            Piece::Words(words) => push_pieces(text, &[words]),
            Piece::Number(number) => push_count(text, b"", number),
            Piece::Name(name) => push_pieces(text, &[name_of(universe, name)]),
            Piece::Package(variant) => push_variant(text, universe, variant),
            Piece::Recipe(recipe) => push_pieces(text, &[b"recipe ", universe.recipe_name(recipe)]),
            Piece::Entry(entry) => push_entry(text, entry),
            Piece::Lane(lane) => push_pieces(text, &[lane_name(self.plan, lane)]),
            Piece::At(lane, place) => self.push_at(lane, place),
            Piece::Line(lane, place) => push_place(text, self.plan.lines().origin(lane, place)),
            Piece::Instruction(lane, place) => self.push_instruction(lane, place),
        }
    }

    /// Puts words at the end, with one of the pieces in the place of each `%`.
    pub fn say(&mut self, words: &[u8], pieces: &[Piece<'_>]) -> Said {
        let mut left = pieces.iter();
        for byte in words {
            if *byte != b'%' {
                self.bytes.push(*byte)?;
            } else if let Some(piece) = left.next() {
                self.push(*piece)?;
            }
        }
        Ok(())
    }

    /// The names that could meet an entry. Where there are none, says that no package is or provides
    /// what it asks for, with the names that are near one of its alternatives'.
    pub(crate) fn likely_or_near(
        &mut self,
        of: Subject<'_>,
        entry: &Entry,
    ) -> Result<Vec<u32>, AllocError> {
        let likely = likely_names(of, entry)?;
        if !likely.is_empty() {
            return Ok(likely);
        }
        let universe = self.universe;
        let mut near = NearNames::new(of.alloc);
        for number in 0..universe.names() {
            let name = name_of(universe, number);
            let mut atoms = entry.alternatives().iter();
            if atoms.any(|atom| is_near_or_longer(atom.name(), name)) {
                near.keep(name)?;
            }
        }
        self.say(b"  no package is or provides that", &[])?;
        near.push(&mut self.bytes, b"")?;
        self.say(b"\n", &[])?;
        Ok(likely)
    }
}

/// Puts words and a number behind a text.
fn push_count(text: &mut Vec<u8>, words: &[u8], number: u64) -> Said {
    let mut digits = Buffer::new();
    let number = digits.format(number);
    push_pieces(text, &[words, number.as_bytes()])
}

/// Puts `plan line N` behind a text, and `, by the use at line N` where a block brings the
/// instruction in.
fn push_place(text: &mut Vec<u8>, origin: Option<Origin>) -> Said {
    let Some(origin) = origin else {
        return push_pieces(text, &[b"plan"]);
    };
    push_count(text, b"plan line ", u64::from(origin.line))?;
    match origin.used {
        Some(line) => push_count(text, b", by the use at line ", u64::from(line)),
        None => Ok(()),
    }
}
