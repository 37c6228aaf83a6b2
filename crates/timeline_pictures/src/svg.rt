//! The picture of a timed run.

use crate::arrows::push_arrows;
use crate::bars::push_lanes;
use crate::drawing::{Drawing, path_marks};
use crate::frame::Frame;
use crate::legend::push_legend;
use crate::scale::push_scale;
use crate::style::{HEADS, STYLE};
use crate::xml::push_length;
use deb_text::push_pieces;
use std::alloc::{AllocError, Global};
use timeline::{Facts, TimedPlan, push_count};

/// Puts what stands before the lanes behind a text.
fn push_head(text: &mut Vec<u8>, frame: &Frame, end: u128) -> Result<(), AllocError> {
    push_length(
        text,
        b"<?xml version=\"1.0\" encoding=\"UTF-8\"?>\n<svg xmlns=\"http://www.w3.org/2000/svg\" width=\"",
        frame.width,
    )?;
    push_length(text, b"\" height=\"", frame.height)?;
    push_length(text, b"\" viewBox=\"0 0 ", frame.width)?;
    push_length(text, b" ", frame.height)?;
    push_count(text, b"\">\n<title>ends at ", end)?;
    push_pieces(
        text,
        &[
            b"</title>\n",
            STYLE,
            HEADS,
            b"<rect class=\"page\" width=\"100%\" height=\"100%\"/>\n",
        ],
    )?;
    push_count(
        text,
        b"<text class=\"head\" x=\"12\" y=\"24\">ends at ",
        end,
    )?;
    push_pieces(text, &[b"</text>\n"])
}

/// Gives a timed run as an SVG file: time to the right, a bar for each lane, its waits as arrows from
/// what they wait for, and the critical path in a colour of its own. What is too short to be seen runs
/// together with what is beside it.
pub fn timeline_svg(alloc: Global, run: &TimedPlan<'_>) -> Result<Vec<u8>, AllocError> {
    let facts = Facts::of(alloc, run)?;
    let frame = Frame::of(run);
    let on_path = path_marks(alloc, run)?;
    let drawing = Drawing {
        run,
        facts: &facts,
        frame: &frame,
        on_path: &on_path,
    };
    let mut text = Vec::new(alloc);
    push_head(&mut text, &frame, run.end)?;
    push_scale(&mut text, &frame, run.end)?;
    // the arrows that nothing hangs on go behind the bars
    push_arrows(&mut text, &drawing, false)?;
    push_lanes(alloc, &mut text, &drawing)?;
    push_arrows(&mut text, &drawing, true)?;
    push_legend(&mut text, &frame)?;
    push_pieces(&mut text, &[b"</svg>\n"])?;
    Ok(text)
}
