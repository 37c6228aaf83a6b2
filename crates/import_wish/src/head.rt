//! The first paragraph of a wish.

ghost use Rattle.deb_text.specs.Common.{Gives, is_nil, words};
ghost use Rattle.std.specs.Prelude.{◌≡◌};
ghost use Rattle.std.specs.Option.{option_map};
ghost use Rattle.deb_relation.specs.View.{refusal_of};
ghost use Rattle.import_wish.specs.Head.{archive_in, architectures_at, head_at, head_view, profiles_at, wanted_under};
ghost use Rattle.import_wish.specs.Targets.{wanted_view};

use crate::fields::{read_mode, read_words};
use crate::targets::{Wanted, read_wanted};
use deb_fields::{ABSENT, Paragraph, or_text};
use deb_profile::ProfileSet;
use deb_relation::{Kind, RelationError, Relations};
use deb_text::next_word;
use farm_model::Mode;
use std::alloc::Global;

/// What a wish says of all recipes: the names of the architecture as words, what is in the archive
/// at the beginning, if that is said, the profiles and the mode of recipes that have none of their own,
/// and what is asked for by targets.
#[derive(Drop)]
pub struct Head<'a> {
    pub architectures: Vec<u8>,
    pub archive: Option<Relations>,
    pub profiles: &'a [u8],
    pub mode: Mode,
    pub wanted: Wanted<'a>,
}

fn has_no_word(text: &[u8]) -> bool
    ensures { result ≡ is_nil (words text.now) }
{
    next_word(text).is_none()
}

/// Reads the names of the architecture, of which there is one at least.
#[tactic(auto, unfolding(crate::specs::Head::architectures_at))]
fn read_architectures(alloc: Global, paragraph: &Paragraph) -> Result<Vec<u8>, RelationError>
    ensures { Gives refusal_of (λ names. words names.items) result
        (architectures_at paragraph.now) }
{
    let names = read_words(alloc, paragraph.needed(b"Architecture-Names")?)?;
    if has_no_word(&names) {
        return Err(RelationError { code: ABSENT });
    }
    Ok(names)
}

/// Reads entries that may be absent.
#[tactic(auto, unfolding(crate::specs::Head::archive_in))]
fn read_archive(alloc: Global, value: Option<&[u8]>) -> Result<Option<Relations>, RelationError>
    ensures { Gives refusal_of (λ archive. archive) result
        (archive_in (option_map (λ v. v.now) value.entry)) }
{
    match value {
        Some(text) => Ok(Some(Relations::parse(alloc, text, Kind::Need)?)),
        None => Ok(None),
    }
}

/// The text of the profiles of recipes that have none of their own.
#[tactic(auto, unfolding(crate::specs::Head::profiles_at))]
fn read_profiles<'a>(alloc: Global, paragraph: &Paragraph<'a>) -> Result<&'a [u8], RelationError>
    ensures { Gives refusal_of (λ text. text.now) result (profiles_at paragraph.now) }
{
    let text = or_text(paragraph.field(b"Profiles"), b"");
    let _words = read_words(alloc, text)?;
    Ok(text)
}

/// Reads what is asked for by targets, where all recipes have the profiles of this text.
#[tactic(auto, unfolding(crate::specs::Head::wanted_under))]
fn read_wanted_under<'a>(
    alloc: Global,
    profiles: &[u8],
    paragraph: &Paragraph<'a>,
) -> Result<Wanted<'a>, RelationError>
    ensures { Gives refusal_of wanted_view result (wanted_under profiles.now paragraph.now) }
{
    let profiles = ProfileSet::parse(alloc, profiles)?;
    read_wanted(alloc, &profiles, paragraph)
}

/// Reads the first paragraph of a wish.
///
/// # Errors
///
/// 201 where it names no architecture, 131 where a name or a profile is no word, those of relation
/// fields, 202 where the mode is none; 208 where targets have no entry, 131 where a stage is no word,
/// 203 where it is a profile of all recipes, 202 where `Finish` is no word of it.
#[tactic(auto, unfolding(crate::specs::Head::head_at))]
pub fn read_head<'a>(alloc: Global, paragraph: &Paragraph<'a>) -> Result<Head<'a>, RelationError>
    ensures { Gives refusal_of head_view result (head_at paragraph.now) }
{
    let architectures = read_architectures(alloc, paragraph)?;
    let archive = read_archive(alloc, paragraph.field(b"Archive"))?;
    let profiles = read_profiles(alloc, paragraph)?;
    let mode = read_mode(paragraph.field(b"Mode"), Mode::Full)?;
    let wanted = read_wanted_under(alloc, profiles, paragraph)?;
    Ok(Head {
        architectures,
        archive,
        profiles,
        mode,
        wanted,
    })
}
