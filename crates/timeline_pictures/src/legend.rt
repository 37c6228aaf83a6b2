//! What the colours mean.

use crate::frame::Frame;
use crate::xml::push_length;
use deb_text::push_pieces;
use std::alloc::AllocError;

/// The samples, from where the chart begins.
const SAMPLES: &[u8] =
    b"<rect class=\"b\" width=\"22\" height=\"12\"/><text x=\"28\" y=\"10\">builds</text>\n\
<rect class=\"i\" x=\"90\" width=\"22\" height=\"12\"/><text x=\"118\" y=\"10\">installs and publishes</text>\n\
<rect class=\"w\" x=\"270\" y=\"4\" width=\"22\" height=\"4\"/><text x=\"298\" y=\"10\">waits</text>\n\
<path class=\"a\" marker-end=\"url(#at)\" d=\"M360 -2V14\"/><text x=\"372\" y=\"10\">from what it waits for</text>\n\
<rect class=\"p\" x=\"530\" y=\"4\" width=\"22\" height=\"4\"/><path class=\"c\" marker-end=\"url(#ct)\" d=\"M562 -2V14\"/><text x=\"574\" y=\"10\">critical path</text>\n";

/// Puts the legend below the lanes.
pub(crate) fn push_legend(text: &mut Vec<u8>, frame: &Frame) -> Result<(), AllocError> {
    push_length(text, b"<g transform=\"translate(", frame.left)?;
    push_length(text, b" ", frame.below().saturating_add(160))?;
    push_pieces(text, &[b")\">\n", SAMPLES, b"</g>\n"])
}
