//! The files of a case.

use deb_text::next_line;

/// The bytes of a text that stand between two ends of it, each given by what is left of it.
fn between<'a>(text: &'a [u8], first: &[u8], end: &[u8]) -> &'a [u8] {
    let from = text.len().saturating_sub(first.len());
    let to = text.len().saturating_sub(end.len());
    text.get(from..to).unwrap_or(&[])
}

/// The file of a name: what stands between the line `%% file NAME` and the next such line. Empty where
/// there is none.
pub fn file_of<'a>(input: &'a [u8], name: &[u8]) -> &'a [u8] {
    let mut rest = input;
    let mut begun = None;
    while let Some((line, behind)) = next_line(rest) {
        if let Some(heading) = line.strip_prefix(b"%% file ") {
            if let Some(first) = begun {
                return between(input, first, rest);
            }
            if heading == name {
                begun = Some(behind);
            }
        }
        rest = behind;
    }
    match begun {
        Some(first) => first,
        None => &[],
    }
}
