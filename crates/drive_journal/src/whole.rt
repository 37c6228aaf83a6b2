//! The whole lines of a text that may be torn at its end.

ghost use Rattle.std.specs.Prelude.{◌≡◌};
ghost use Rattle.drive_journal.specs.Entries.{whole};
ghost use Rattle.drive_journal.specs.Laws.{TornIsFirstPart};

use deb_text::cut_at_last;

/// What stands in a text up to its last newline, with it. A line without its end was torn when the
/// machine went down: wherever that was, what is left is the first of the lines.
pub fn whole_part(text: &[u8]) -> &[u8]
    ensures whole { result.now ≡ whole text.now }
    ensures torn { TornIsFirstPart text.now }
{
    match cut_at_last(b'\n', text) {
        Some((_, torn)) => &text[..text.len() - torn.len()],
        None => &text[..0],
    }
}
