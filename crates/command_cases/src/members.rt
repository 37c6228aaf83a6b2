//! Members of answers that are JSON.

use serde_json::Value;
use std::alloc::{AllocError, Global};

/// Reads an answer as JSON, and gives the line of what stands at a path in it, as RFC 6901 has
/// paths; the empty path is that of the whole.
pub fn member_line(alloc: Global, answer: &[u8], path: &str) -> Result<Vec<u8>, AllocError> {
    let Ok(value) = Value::from_slice(alloc, answer) else {
        return Vec::from_slice(alloc, b"no JSON\n");
    };
    let Some(member) = value.pointer(path) else {
        return Vec::from_slice(alloc, b"no member\n");
    };
    let mut line = member.to_vec(alloc)?;
    line.push(b'\n')?;
    Ok(line)
}
