//! Where variants come from, and which would make an instruction safe, as lines.

ghost use Rattle.plan_verifier.specs.Stage.{IsWhole};

use crate::subject::{Publication, Spot, Subject};
use crate::text::Piece::{Lane, Line, Name, Package};
use crate::text::{Piece, Said, Text};
use crate::variants::{has, has_some, is_initial, is_known, likely_names, satisfies, satisfying};
use crate::why::Inquiry;
use deb_relation::Entry;
use explain_reasons::{Pin, Reason, is_safe_with, wanted_word};
use farm_universe::Variant;
use known_rows::KnownWords;
use may_rows::variant_count;
use plan_reader::Instruction;
use std::alloc::AllocError;

/// How many versions of unpacks are tried.
const MOST_TRIED: u32 = 8;

/// Who publishes a variant, as a line: nobody, or by these words the lane itself, or another.
pub fn push_publisher(
    text: &mut Text<'_>,
    at: Spot<'_>,
    variant: Variant,
    own: &[u8],
    other: &[u8],
) -> Said {
    let package = Package(variant);
    match at.of.publications.of(variant) {
        None => text.say(b"  nobody publishes %\n", &[package]),
        Some(found) if found.lane == at.lane => text.say(own, &[package, found.piece()]),
        Some(found) => text.say(other, &[package, Lane(found.lane), found.piece()]),
    }
}

/// How a variant comes into the archive, where it does. Tells whether a wait could make sure of it:
/// not where it is there from the start, nor where the lane publishes it later.
fn push_source(text: &mut Text<'_>, at: Spot<'_>, variant: Variant) -> Result<bool, AllocError> {
    if is_initial(at.of.universe, variant) {
        text.say(b"it is in the archive from the start", &[])?;
        return Ok(false);
    }
    let Some(found) = at.of.publications.of(variant) else {
        return Ok(true);
    };
    let is_later = found.lane == at.lane && found.instruction > at.place;
    if found.lane != at.lane {
        text.say(b"lane % publishes it %", &[Lane(found.lane), found.piece()])?;
    } else if is_later {
        text.say(b"this lane publishes it later %", &[found.piece()])?;
    } else {
        text.say(b"this lane publishes it %", &[found.piece()])?;
    }
    Ok(!is_later)
}

/// Tells whether nothing meets an entry but what the lane of an instruction publishes there or later.
fn is_met_later_alone(at: Spot<'_>, entry: &Entry) -> Result<bool, AllocError> {
    let meets = satisfying(at.of, entry)?;
    let mut is_met = false;
    for variant in &meets {
        if is_initial(at.of.universe, *variant) {
            return Ok(false);
        }
        if let Some(found) = at.of.publications.of(*variant) {
            if found.lane != at.lane || found.instruction <= at.place {
                return Ok(false);
            }
            is_met = true;
        }
    }
    Ok(is_met)
}

/// The first wait ahead of another lane's publication, in no branch, for what the lane of an
/// instruction alone publishes, there or later.
fn wait_ahead(at: Spot<'_>, found: Publication) -> Result<Option<usize>, AllocError> {
    let plan = at.of.plan;
    if found.lane >= plan.lanes() || found.lane == at.lane {
        return Ok(None);
    }
    let mut open: usize = 0;
    for place in 0..found.instruction.saturating_sub(1) {
        match plan.instruction(found.lane, place) {
            Some(Instruction::When { .. }) => open = open.saturating_add(1),
            Some(Instruction::EndWhen) => open = open.saturating_sub(1),
            Some(Instruction::Wait(entry)) => {
                if open == 0 && is_met_later_alone(at, entry)? {
                    return Ok(Some(place));
                }
            }
            _ => {}
        }
    }
    Ok(None)
}

/// Puts behind a text that no run has a variant by an instruction, where the lane that publishes it
/// waits ahead of that for what the lane of the instruction publishes later.
fn push_no_run(text: &mut Text<'_>, at: Spot<'_>, variant: Variant) -> Said {
    if is_initial(at.of.universe, variant) {
        return Ok(());
    }
    let Some(found) = at.of.publications.of(variant) else {
        return Ok(());
    };
    let Some(place) = wait_ahead(at, found)? else {
        return Ok(());
    };
    let words =
        b", but in no run by then: ahead of that it waits % for what this lane publishes later";
    text.say(words, &[Piece::At(found.lane, place)])
}

/// The place of the last unpack of a name in the lane, up to this instruction.
fn last_unpack(at: Spot<'_>, name: u32) -> Option<usize> {
    at.instructions()[..=at.place].iter().rposition(|instruction| {
        matches!(instruction, Instruction::Unpack { name: unpacked, .. } if *unpacked == name)
    })
}

/// Puts where a variant comes from behind a text that a lane may hold at an instruction, or may take
/// there: nothing where its name has no other version.
pub fn push_origin(text: &mut Text<'_>, at: Spot<'_>, variant: Variant) -> Said {
    if variant_count(at.of.universe, variant.name) < 2 {
        return Ok(());
    }
    let package = Package(variant);
    let Some(unpack) = last_unpack(at, variant.name) else {
        return text.say(b"  % is in the base chroot\n", &[package]);
    };
    let pieces = [package, Piece::Instruction(at.lane, unpack)];
    text.say(b"  % may be taken by %; ", &pieces)?;
    push_source(text, at, variant)?;
    push_no_run(text, at, variant)?;
    text.say(b"\n", &[])
}

/// A variant that satisfies an entry, of those that are in the archive from the start or that some
/// lane publishes: the one that is found first.
fn satisfier(of: Subject<'_>, entry: &Entry) -> Option<Variant> {
    (0..of.universe.names()).find_map(|name| {
        (0..variant_count(of.universe, name))
            .map(|bit| Variant { name, bit })
            .find(|variant| {
                satisfies(of.universe, entry, *variant)
                    && (is_initial(of.universe, *variant) || of.publications.of(*variant).is_some())
            })
    })
}

impl<K: KnownWords> Inquiry<'_, '_, '_, K> {
    /// What of a name is surely in the archive at a place of the lane, up to the instruction, as a
    /// word.
    fn sure_word(&self, place: usize, name: u32) -> u64
        requires { IsWhole K.known self.now.stage.now }
    {
        let (stage, at) = (self.stage, self.spot);
        if name >= stage.universe.names() {
            return 0;
        }
        stage
            .known
            .word(stage.universe, at.lane, place.min(at.place), name)
    }

    /// Tells whether a variant is surely in the archive ahead of the instruction.
    fn is_sure(&self, variant: Variant) -> bool
        requires { IsWhole K.known self.now.stage.now }
    {
        has(self.sure_word(self.spot.place, variant.name), variant)
    }

    /// Puts a line behind a text where another lane publishes a variant after one that is surely
    /// there, and tells whether it does.
    fn push_one_by_one(&self, text: &mut Text<'_>, variant: Variant) -> Result<bool, AllocError>
        requires { IsWhole K.known self.now.stage.now }
    {
        let at = self.spot;
        let Some(found) = at.of.publications.of(variant) else {
            return Ok(false);
        };
        if found.lane == at.lane || self.is_sure(variant) {
            return Ok(false);
        }
        let outputs = at.of.universe.outputs(found.recipe);
        let ahead = outputs
            .iter()
            .copied()
            .take_while(|output| *output != variant);
        let ahead = ahead.filter(|output| self.is_sure(*output)).last();
        let (Some(ahead), Some(last)) = (ahead, outputs.last()) else {
            return Ok(false);
        };
        let both = [Lane(found.lane), Package(variant), Package(ahead)];
        text.say(
            b"  outputs come one by one: lane % publishes % after %, ",
            &both,
        )?;
        let words = b"which is surely there; a wait for %, the last of them, is a wait for all\n";
        text.say(words, &[Package(*last)])?;
        Ok(true)
    }

    /// Puts behind a text how each variant of a name stands that the instruction unpacks, and a
    /// line for the lowest one that it wants and that comes one by one with others.
    pub fn push_missing(&self, text: &mut Text<'_>, name: u32) -> Said
        requires { IsWhole K.known self.now.stage.now }
    {
        let (at, universe) = (self.spot, self.spot.of.universe);
        let sure = self.sure_word(at.place, name);
        if !has_some(universe, name, sure) {
            text.say(b"  surely in the archive: no version of %\n", &[Name(name)])?;
        }
        for bit in 0..variant_count(universe, name) {
            let variant = Variant { name, bit };
            if has(sure, variant) {
                text.say(b"  surely in the archive: %\n", &[Package(variant)])?;
            } else {
                let own = b"  published later: %, by this lane %\n";
                let other = b"  may be there: %, which lane % publishes %\n";
                push_publisher(text, at, variant, own, other)?;
            }
        }
        let wanted = wanted_word(universe, at.of.plan, at.lane, at.place);
        for bit in 0..variant_count(universe, name) {
            let variant = Variant { name, bit };
            if has(wanted, variant) && self.push_one_by_one(text, variant)? {
                return Ok(());
            }
        }
        Ok(())
    }

    /// Puts what would meet an entry behind a text, and whether it is there by then.
    pub fn push_remedy(&self, text: &mut Text<'_>, entry: &Entry) -> Said
        requires { IsWhole K.known self.now.stage.now }
    {
        let Some(variant) = satisfier(self.spot.of, entry) else {
            return Ok(());
        };
        text.say(b"  % satisfies it: ", &[Package(variant)])?;
        if push_source(text, self.spot, variant)? && !self.is_sure(variant) {
            text.say(b", and no wait makes sure of it here", &[])?;
        }
        text.say(b"\n", &[])?;
        self.push_one_by_one(text, variant)?;
        Ok(())
    }

    /// The highest variant of a name that its last unpack wants, where no block brings that in, that
    /// is surely in the archive there, and with which the instruction is safe by the rules of the
    /// verdict. `left` is how many may still be tried.
    #[tactic(auto, using(farm_universe::proofs::PlaceLaws::named))]
    fn mending(&self, name: u32, left: &mut u32) -> Result<Option<Pin>, AllocError>
        requires { IsWhole K.known self.now.stage.now }
    {
        let (at, stage) = (self.spot, self.stage);
        let Some(place) = last_unpack(at, name) else {
            return Ok(None);
        };
        let origin = stage.plan.lines().origin(at.lane, place);
        if !matches!(origin, Some(origin) if origin.used.is_none()) {
            return Ok(None);
        }
        let place = place.min(at.place);
        let wanted = wanted_word(stage.universe, stage.plan, at.lane, place);
        let sure = self.sure_word(place, name) & wanted;
        for bit in (0..variant_count(stage.universe, name)).rev() {
            let variant = Variant { name, bit };
            if !is_known(stage.universe, variant) || !has(sure, variant) {
                continue;
            }
            if *left == 0 {
                return Ok(None);
            }
            *left -= 1;
            let pin = Pin { place, variant };
            if is_safe_with(at.of.alloc, stage, at.lane, at.place, pin)? {
                return Ok(Some(pin));
            }
        }
        Ok(None)
    }

    /// Puts a line behind a text for a version of an unpack that makes the instruction safe, where
    /// this entry is not surely met: the first of some that are tried, of the package that has the
    /// entry, and of those that could meet it.
    pub fn push_pin(&self, text: &mut Text<'_>, entry: &Entry) -> Said
        requires { IsWhole K.known self.now.stage.now }
    {
        let mut names = likely_names(self.spot.of, entry)?;
        if let Reason::Unmet(variant, ..) = self.reason {
            names.retain(|name| *name != variant.name);
            names.insert(0, variant.name)?;
        }
        let mut left = MOST_TRIED;
        for name in &names {
            if let Some(pin) = self.mending(*name, &mut left)? {
                let pieces = [Line(self.spot.lane, pin.place), Package(pin.variant)];
                return text.say(b"  %: unpack % makes this instruction safe\n", &pieces);
            }
        }
        Ok(())
    }
}
