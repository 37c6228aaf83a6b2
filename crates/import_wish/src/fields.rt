//! How the fields of a wish are read.

ghost use Rattle.std.specs.Prelude.{◌≡◌};
ghost use Rattle.std.specs.Option.{option_map};
ghost use Rattle.deb_text.specs.Common.{Gives, words};
ghost use Rattle.deb_relation.specs.View.{refusal_of};
ghost use Rattle.deb_profile.specs.WordList.{words_at};
ghost use Rattle.import_wish.specs.Fields.{mode_at, mode_of};

use deb_fields::BAD_VALUE;
use deb_profile::ArchNames;
use deb_relation::RelationError;
use farm_model::Mode;
use std::alloc::Global;

/// Reads words, and keeps their text.
///
/// # Errors
///
/// 131 where one is no word.
pub fn read_words(alloc: Global, text: &[u8]) -> Result<Vec<u8>, RelationError>
    ensures { Gives refusal_of (λ kept. words kept.items) result (words_at text.now) }
{
    let names = ArchNames::parse(alloc, text)?;
    Ok(Vec::from_slice(alloc, names.text())?)
}

/// Reads a mode by its name.
fn mode_of(text: &[u8]) -> Result<Mode, RelationError>
    ensures { Gives refusal_of (λ mode. mode) result (mode_of text.now) }
{
    if text == b"full".as_slice() {
        return Ok(Mode::Full);
    }
    if text == b"arch".as_slice() {
        return Ok(Mode::Arch);
    }
    if text == b"indep".as_slice() {
        return Ok(Mode::Indep);
    }
    Err(RelationError { code: BAD_VALUE })
}

/// Reads a mode, or takes the one that stands for one that is absent.
///
/// # Errors
///
/// 202 where it is none.
pub fn read_mode(value: Option<&[u8]>, mode: Mode) -> Result<Mode, RelationError>
    ensures { Gives refusal_of (λ mode. mode) result
        (mode_at mode (option_map (λ v. v.now) value.entry)) }
{
    match value {
        Some(text) => mode_of(text),
        None => Ok(mode),
    }
}
