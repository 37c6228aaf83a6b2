//! Texts too long for a table.

use deb_stanza::{FIELD_TWICE, Paragraphs};
use std::test::Fail;

#[test]
fn reads_many_fields_quickly(rt: HostRuntime) -> Result<(), Fail> {
    // 100,000 fields in one paragraph, a1: to a100000:
    let mut text = Vec::new(rt.alloc());
    for i in 1u32..100_001 {
        text.extend_from_slice(format!(in rt.alloc(); "a{i}: {i}\n")?.as_bytes())?;
    }
    let paragraphs = Paragraphs::read(rt.alloc(), &text)?;
    assert_eq!(rt; paragraphs.count(), 1);
    assert!(rt; paragraphs.field(0, b"A100000") == Some(b"100000".as_slice()));
    text.extend_from_slice(b"A77: x")?;
    let refused = Paragraphs::read(rt.alloc(), &text).err();
    assert!(rt; refused.is_some_and(|fault| (fault.line, fault.code) == (100_001, FIELD_TWICE)));
    Ok(())
}
