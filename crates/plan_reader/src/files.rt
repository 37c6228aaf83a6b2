//! The names of the four texts.

ghost use Rattle.std.specs.Prelude.{◌≡◌};
ghost use Rattle.plan_reader.specs.Files as spec;

use deb_text::files::{FARM, PACKAGES, PLAN, SOURCES};

/// The name of a text, as refusals tell it; no name for another number.
pub fn file_name(file: u8) -> &'static str
    ensures { result.now ≡ spec.file_name file }
{
    match file {
        PACKAGES => "packages",
        SOURCES => "sources",
        FARM => "farm",
        PLAN => "plan",
        _ => "",
    }
}
