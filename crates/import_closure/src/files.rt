//! The size of the files of a source.

ghost use Rattle.std.specs.Prelude.{◌≡◌};
ghost use Rattle.deb_text.specs.Common.{lines_of, words};
ghost use Rattle.import_closure.specs.Files.{row_bytes, total_from};

use deb_text::{next_line, next_word, read_number};

/// The bytes of the file of a row: its sum, its size and its name.
fn row_bytes(row: &[u8]) -> u64
    ensures { result ≡ row_bytes (words row.now) }
{
    let Some((_, rest)) = next_word(row) else {
        return 0;
    };
    let Some((size, rest)) = next_word(rest) else {
        return 0;
    };
    let Some((_, rest)) = next_word(rest) else {
        return 0;
    };
    if next_word(rest).is_some() {
        return 0;
    }
    read_number(size).unwrap_or(0)
}

/// The bytes of all files that the value of a field Checksums-Sha256 or Files lists, as far as 64
/// bits count them.
#[tactic(auto, unfolding(crate::specs::Files::total_from))]
pub fn files_size(rows: &[u8]) -> u64
    ensures { result ≡ total_from 0 (lines_of rows.now) }
{
    let mut total: u64 = 0;
    let mut rest = rows;
    while let Some((row, behind)) = next_line(rest) {
        total = total.saturating_add(row_bytes(row));
        rest = behind;
    }
    total
}
