//! The lines of a text as values, and a value as a line.

ghost use Rattle.std.specs.Prelude.{◌≡◌, IfOk, false};
ghost use Rattle.shown_text.specs.Texts as spec;
ghost use Rattle.shown_text.specs.Texts.{lines_data};
ghost use Rattle.serde_json.specs.View.{view};
ghost use Rattle.serde_json.specs.Written.{has_float};

use crate::texts::text_value;
use deb_text::next_line;
use serde_json::Value;
use std::alloc::{AllocError, Global};

/// Gives the lines of a text, without their newlines, as a list of texts.
pub fn line_list(alloc: Global, text: &[u8]) -> Result<Value, AllocError>
    ensures { IfOk result (λ value. view value ≡ lines_data text.now) }
{
    let mut lines = Vec::new(alloc);
    let mut rest = text;
    while let Some((line, behind)) = next_line(rest) {
        lines.push(text_value(alloc, line)?)?;
        rest = behind;
    }
    Ok(Value::Array(lines))
}

/// Gives the line that is written for a value: its text without blanks, and a newline.
pub fn answer_line(alloc: Global, value: &Value) -> Result<Vec<u8>, AllocError>
    requires { has_float (view value.now) ≡ false }
    ensures { IfOk result (λ line. line.items ≡ spec.answer_line (view value.now)) }
{
    let mut line = value.to_vec(alloc)?;
    line.push(b'\n')?;
    Ok(line)
}
