//! A text as a value.

ghost use Rattle.std.specs.Prelude.{◌≡◌, IfOk};
ghost use Rattle.shown_text.specs.Texts.{text_data};
ghost use Rattle.serde_json.specs.View.{view};

use serde_json::Value;
use std::alloc::{AllocError, Global};

/// Gives a text as a value, with U+FFFD in place of what is no UTF-8.
pub fn text_value(alloc: Global, text: &[u8]) -> Result<Value, AllocError>
    ensures { IfOk result (λ value. view value ≡ text_data text.now) }
{
    Ok(Value::String(String::from_utf8_lossy(alloc, text)?))
}
