//! The bars of the lanes.

use crate::drawing::Drawing;
use crate::frame::{BAR, LONGEST_NAME, letters};
use crate::pieces::{Kind, Piece, pieces_of};
use crate::titles::{push_title, recipe_name};
use crate::xml::{push_length, push_xml};
use deb_text::push_pieces;
use plan_reader::lane_name;
use std::alloc::{AllocError, Global};
use timeline::{LaneFacts, LaneTime, push_count};

/// How wide at least what takes time is drawn.
const THINNEST: u128 = 3;

/// The longest gap in the critical path that is not seen.
const GAP: u128 = 5;

/// The size of a name that has room in its bar, and the smallest one that is drawn, in tenths.
const NAME_SIZE: u128 = 110;

const SMALLEST_NAME: u128 = 3;

/// A part of the critical path in a lane.
#[derive(Clone, Copy)]
struct Stripe {
    begin: u128,
    end: u128,
}

/// Puts a rectangle that is still open behind a text.
fn push_rect(
    text: &mut Vec<u8>,
    drawing: &Drawing<'_>,
    kind: Kind,
    begin: u128,
    end: u128,
) -> Result<(), AllocError> {
    let class: &[u8] = match kind {
        Kind::Wait => b"<rect class=\"w\" y=\"8\" height=\"4\" x=\"",
        Kind::Install => b"<rect class=\"i\" height=\"20\" x=\"",
        Kind::Build => b"<rect class=\"b\" height=\"20\" x=\"",
    };
    let width = drawing.frame.span(begin, end).max(THINNEST);
    push_length(text, class, drawing.frame.across(begin))?;
    push_length(text, b"\" width=\"", width)?;
    push_pieces(text, &[b"\">"])
}

/// How large the name of a build is drawn in its piece, in tenths: smaller where there is less room,
/// to be read by who zooms in.
fn name_size(name: &[u8], room: u128) -> u128 {
    let wanted = letters(name.len()).saturating_add(40);
    room.saturating_mul(NAME_SIZE)
        .checked_div(wanted)
        .unwrap_or(0)
        .min(NAME_SIZE)
}

/// Puts the name of a build into its piece.
fn push_name(
    alloc: Global,
    text: &mut Vec<u8>,
    drawing: &Drawing<'_>,
    piece: Piece,
) -> Result<(), AllocError> {
    let name = recipe_name(drawing.run, piece.first);
    let room = drawing.frame.span(piece.begin, piece.end);
    let size = name_size(name, room);
    if !piece.is_one_build() || size < SMALLEST_NAME {
        return Ok(());
    }
    let middle = drawing.frame.across(piece.begin).saturating_add(room / 2);
    let base = (BAR / 2).saturating_add(size / 3);
    push_length(
        text,
        b"<text class=\"in\" text-anchor=\"middle\" y=\"",
        base,
    )?;
    push_length(text, b"\" x=\"", middle)?;
    if size < NAME_SIZE {
        push_length(text, b"\" style=\"font-size:", size)?;
        push_pieces(text, &[b"px"])?;
    }
    push_pieces(text, &[b"\">"])?;
    push_xml(alloc, text, name)?;
    push_pieces(text, &[b"</text>\n"])
}

/// Puts a piece of a lane behind a text.
fn push_piece(
    alloc: Global,
    text: &mut Vec<u8>,
    drawing: &Drawing<'_>,
    piece: Piece,
) -> Result<(), AllocError> {
    push_rect(text, drawing, piece.kind(), piece.begin, piece.end)?;
    push_title(alloc, text, drawing, piece)?;
    push_pieces(text, &[b"</rect>\n"])?;
    push_name(alloc, text, drawing, piece)
}

/// Puts a part of the critical path below the bar.
fn push_stripe(
    text: &mut Vec<u8>,
    drawing: &Drawing<'_>,
    stripe: Option<Stripe>,
) -> Result<(), AllocError> {
    let Some(Stripe { begin, end }) = stripe else {
        return Ok(());
    };
    let width = drawing.frame.span(begin, end).max(THINNEST);
    push_length(
        text,
        b"<rect class=\"p\" y=\"21\" height=\"4\" x=\"",
        drawing.frame.across(begin),
    )?;
    push_length(text, b"\" width=\"", width)?;
    push_pieces(text, &[b"\"/>\n"])
}

/// Tells whether a stripe goes on from where another ends.
fn goes_on(drawing: &Drawing<'_>, stripe: Stripe, begin: u128) -> bool {
    drawing.frame.span(stripe.end, begin) < GAP
}

/// Puts the critical path below the bar of a lane.
fn push_stripes(
    text: &mut Vec<u8>,
    drawing: &Drawing<'_>,
    lane: &LaneFacts,
) -> Result<(), AllocError> {
    let mut open: Option<Stripe> = None;
    for number in lane.events.as_slice() {
        if let Some(event) = drawing.run.event(*number) {
            if drawing.is_on_path(*number) && event.begin < event.end {
                open = match open {
                    Some(stripe) if goes_on(drawing, stripe, event.begin) => Some(Stripe {
                        begin: stripe.begin,
                        end: event.end,
                    }),
                    ended => {
                        push_stripe(text, drawing, ended)?;
                        Some(Stripe {
                            begin: event.begin,
                            end: event.end,
                        })
                    }
                };
            }
        }
    }
    push_stripe(text, drawing, open)
}

/// Puts the name of a lane before its bar, and its times below that.
fn push_label(
    alloc: Global,
    text: &mut Vec<u8>,
    drawing: &Drawing<'_>,
    name: &[u8],
    time: LaneTime,
) -> Result<(), AllocError> {
    let left = drawing.frame.left.saturating_sub(120);
    push_length(text, b"<text y=\"14\" x=\"-", left)?;
    if name.len() > LONGEST_NAME {
        push_length(
            text,
            b"\" lengthAdjust=\"spacingAndGlyphs\" textLength=\"",
            letters(LONGEST_NAME),
        )?;
    }
    push_pieces(text, &[b"\">"])?;
    push_xml(alloc, text, name)?;
    push_length(text, b"</text>\n<text class=\"note\" y=\"26\" x=\"-", left)?;
    push_count(text, b"\">busy ", time.busy)?;
    push_count(text, b" idle ", time.idle)?;
    let behind = drawing.frame.across(time.end).saturating_add(50);
    push_length(text, b"</text>\n<text class=\"note\" y=\"13\" x=\"", behind)?;
    push_count(text, b"\">", time.end)?;
    push_pieces(text, &[b"</text>\n"])
}

/// Puts a lane behind a text.
fn push_lane(
    alloc: Global,
    text: &mut Vec<u8>,
    drawing: &Drawing<'_>,
    number: usize,
    lane: &LaneFacts,
) -> Result<(), AllocError> {
    push_length(text, b"<g transform=\"translate(", drawing.frame.left)?;
    push_length(text, b" ", drawing.frame.down(number))?;
    push_pieces(text, &[b")\">\n"])?;
    let name = lane_name(drawing.run.plan, number);
    push_label(alloc, text, drawing, name, lane.time)?;
    let pieces = pieces_of(alloc, drawing.run, drawing.frame, &lane.events)?;
    for piece in pieces.as_slice() {
        push_piece(alloc, text, drawing, *piece)?;
    }
    push_stripes(text, drawing, lane)?;
    push_pieces(text, &[b"</g>\n"])
}

/// Puts the lanes behind a text.
pub(crate) fn push_lanes(
    alloc: Global,
    text: &mut Vec<u8>,
    drawing: &Drawing<'_>,
) -> Result<(), AllocError> {
    let lanes = drawing.facts.lanes.as_slice();
    for number in 0..lanes.len() {
        push_lane(alloc, text, drawing, number, &lanes[number])?;
    }
    Ok(())
}
