//! What is said below the line that refuses a certificate.

use crate::cert_known::{Claim, too_many};
use crate::cert_places::{Place, next_step, places, row_ahead};
use cert_text::{BAD_ORDER, BAD_TEXT, CertFault, Certificate, read};
use deb_stanza::{OwnLine, TEXT_TOO_LONG, numbered_lines};
use deb_text::{Fault, is_blank_line};
use explain_faults::{line_at, push_fault_note};
use explain_lanes::Publications;
use explain_lanes::text::Piece::{Instruction, Lane, Number, Package};
use explain_lanes::text::{Said, Text};
use plan_reader::Planned;
use shown_text::push_escaped;
use std::alloc::{AllocError, Global};

/// The most bytes of a line that are shown.
const MOST_SHOWN: usize = 200;

/// The lines of a certificate that say something, neither blank nor comments, and the instructions
/// that have one.
#[derive(Clone, Copy)]
struct About<'a> {
    alloc: Global,
    said: &'a [OwnLine<'a>],
    places: &'a [Place],
}

/// Puts the sentence of a code behind a text.
fn push_sentence(alloc: Global, text: &mut Text<'_>, code: u16) -> Said {
    let (file, line) = (0, 0);
    push_fault_note(alloc, &mut text.bytes, &Fault { file, line, code }, b"")
}

/// Puts a line of the certificate behind a text.
fn push_line(text: &mut Text<'_>, number: u64, line: &[u8]) -> Said {
    text.say(b"cert line %: ", &[Number(number)])?;
    push_escaped(&mut text.bytes, &line[..MOST_SHOWN.min(line.len())])?;
    text.say(b"\n", &[])
}

/// Puts the plan's line of an instruction behind a text.
fn push_plan_line(text: &mut Text<'_>, place: Place) -> Said {
    text.say(b"%\n", &[Instruction(place.lane, place.at)])
}

impl About<'_> {
    /// The line of a place among those that say something, if it has one.
    fn push_said(self, text: &mut Text<'_>, place: usize) -> Said {
        match self.said.get(place) {
            Some(line) => push_line(text, line.number as u64, line.bytes),
            None => Ok(()),
        }
    }

    /// The line that says what a lane knows ahead of a place.
    fn push_row(self, text: &mut Text<'_>, place: Place) -> Said {
        let row = row_ahead(text.plan, place);
        match self.places.iter().position(|place| Some(*place) == row) {
            Some(at) => self.push_said(text, at.saturating_add(1)),
            None => Ok(()),
        }
    }

    /// What is not the certificate's at a line, 0 for the whole, and what should stand there.
    fn push_text(self, text: &mut Text<'_>, cert: &[u8], line: u32) -> Said {
        if line == 0 {
            return push_sentence(self.alloc, text, TEXT_TOO_LONG);
        }
        if let Some(bytes) = line_at(cert, line) {
            push_line(text, u64::from(line), bytes)?;
        }
        push_sentence(self.alloc, text, BAD_TEXT)?;
        let line = line as usize;
        let ahead = self.said.iter().filter(|said| said.number < line).count();
        if ahead == 0 {
            return text.say(b"  it is `cert 1`\n", &[]);
        }
        let Some(place) = self.places.get(ahead - 1) else {
            return text.say(b"  it is `order LANE`, of a lane of the plan\n", &[]);
        };
        let number = (place.at as u64).saturating_add(1);
        let pieces = [Lane(place.lane), Number(number)];
        text.say(b"  it begins with `known % %:`, and lists ", &pieces)?;
        text.say(b"variants that are not in Archive, in their order\n", &[])
    }

    /// Why an item of the order, by its number from 1, is no step; past the last, what is left.
    fn push_order(self, text: &mut Text<'_>, order: &[u32], item: u64) -> Said {
        let (universe, plan) = (text.universe, text.plan);
        let ahead = item.saturating_sub(1).min(order.len() as u64) as usize;
        let before = &order[..ahead];
        let item = order.get(ahead);
        let left = match item {
            Some(lane) => next_step(universe, plan, before, *lane as usize),
            None => (0..plan.lanes()).find_map(|lane| next_step(universe, plan, before, lane)),
        };
        let rows = self.places.len().saturating_add(1);
        self.push_said(text, rows.saturating_add(ahead))?;
        if let Some(place) = left {
            push_plan_line(text, place)?;
        }
        push_sentence(self.alloc, text, BAD_ORDER)?;
        match (item, left) {
            (None, _) => text.say(b"  the order ends before this\n", &[]),
            (Some(lane), None) => text.say(b"  lane % has no step left\n", &[Lane(*lane as usize)]),
            (Some(_), Some(_)) => Ok(()),
        }
    }

    /// Why a certificate that was read is refused: the row that holds ahead of an instruction, of a
    /// refused row the one behind it, the plan's line of the instruction, what was expected, and of
    /// a row what it has too many.
    fn push_read(self, text: &mut Text<'_>, certificate: &Certificate, fault: CertFault) -> Said {
        let (lane, instruction, known) = match fault {
            CertFault::Row { lane, instruction } => (lane, instruction, instruction),
            CertFault::Unsafe {
                lane,
                instruction,
                ..
            }
            | CertFault::Uneven { lane, instruction } => {
                (lane, instruction, instruction.saturating_sub(1))
            }
            CertFault::Order { item } => return self.push_order(text, certificate.order(), item),
            CertFault::Text { .. } | CertFault::Memory => return Ok(()),
        };
        let (lane, at) = (lane as usize, known as usize);
        self.push_row(text, Place { lane, at })?;
        let at = instruction.saturating_sub(1) as usize;
        push_plan_line(text, Place { lane, at })?;
        push_sentence(self.alloc, text, fault.code())?;
        let CertFault::Row { .. } = fault else {
            return Ok(());
        };
        let claim = Claim {
            universe: text.universe,
            plan: text.plan,
            publications: &Publications::of_plan(self.alloc, text.universe, text.plan)?,
            certificate,
        };
        match too_many(claim, Place { lane, at }) {
            Some(variant) => text.say(b"  % need not be there\n", &[Package(variant)]),
            None => Ok(()),
        }
    }
}

/// Tells why a certificate is refused, in lines: its own line and what was expected there; or the
/// line of the row that holds, the plan's line of the instruction, and what was expected of it; of
/// a row with too much the first variant that it has too many.
pub fn refusal_notes(
    alloc: Global,
    planned: &Planned,
    cert: &[u8],
    fault: CertFault,
) -> Result<Vec<u8>, AllocError> {
    let mut said = numbered_lines(alloc, cert)?;
    said.retain(|line| !is_blank_line(line.bytes));
    let places = places(alloc, &planned.plan)?;
    let about = About {
        alloc,
        said: &said,
        places: &places,
    };
    let mut text = Text {
        universe: &planned.universe,
        plan: &planned.plan,
        bytes: Vec::new(alloc),
    };
    if let CertFault::Text { line } = fault {
        about.push_text(&mut text, cert, line)?;
    } else if let Ok(certificate) = read(alloc, text.universe, text.plan, cert) {
        about.push_read(&mut text, &certificate, fault)?;
    } else {
        return Err(AllocError);
    }
    Ok(text.bytes)
}
