//! The fields of the farm text that its reader passes over, and the build profiles of recipes that
//! no source asks for.

use crate::tally::Tally;
use crate::warning::{push_named, push_warning};
use deb_stanza::{OwnLine, numbered_lines};
use deb_text::is_blank_line;
use explain_faults::Piece::{Number, Words};
use explain_faults::{BASE_FIELDS, FARM_FIELDS, Field, Pushed, RECIPE_FIELDS};
use std::alloc::{AllocError, Global};

/// What a paragraph describes: the first one the farm, each later one a recipe or a base chroot.
#[derive(Clone, Copy)]
enum Kind {
    Farm,
    Recipe,
    Base,
}

impl Kind {
    /// The fields that a paragraph may have.
    fn fields(self) -> &'static [Field] {
        match self {
            Kind::Farm => &FARM_FIELDS,
            Kind::Recipe => &RECIPE_FIELDS,
            Kind::Base => &BASE_FIELDS,
        }
    }

    /// Tells whether a paragraph may have a field of this name, whatever the case of its letters.
    fn has(self, name: &[u8]) -> bool {
        self.fields()
            .iter()
            .any(|field| name.eq_ignore_ascii_case(field.0))
    }

    /// What the paragraph that begins with these lines describes, where it is not the first.
    fn of(lines: &[OwnLine]) -> Kind {
        let has_recipe = lines
            .iter()
            .take_while(|line| !is_blank_line(line.bytes))
            .any(|line| line.begins(b"Recipe"));
        if has_recipe { Kind::Recipe } else { Kind::Base }
    }
}

/// Puts a warning of each field that is not known behind others, and notes the profiles of all
/// recipes.
fn walk(lines: &mut Vec<u8>, profiles: &mut Tally, farm: &[OwnLine]) -> Pushed {
    let first = farm.iter().position(|line| !is_blank_line(line.bytes));
    let (mut kind, mut field) = (Kind::Farm, None);
    for place in first.unwrap_or(farm.len())..farm.len() {
        let line = &farm[place];
        let number = line.number as u64;
        if is_blank_line(line.bytes) {
            kind = Kind::of(&farm[place + 1..]);
            field = None;
            continue;
        }
        if !line.continues() {
            if !kind.has(line.name()) {
                let words = b"farm line %0: the field %1 is not known, and is passed over";
                push_warning(lines, words, &[Number(number), Words(line.name())])?;
            }
            let is_of_profiles = matches!(kind, Kind::Recipe) && line.begins(b"Profiles");
            field = is_of_profiles.then_some(number);
        }
        if let Some(first) = field {
            profiles.add_words(first, line.value())?;
        }
    }
    Ok(())
}

/// Puts the warnings of the fields of the farm text behind others, and gives the profiles of its
/// recipes.
pub fn push_fields(alloc: Global, lines: &mut Vec<u8>, farm: &[u8]) -> Result<Tally, AllocError> {
    let farm = numbered_lines(alloc, farm)?;
    let mut profiles = Tally::new(alloc);
    walk(lines, &mut profiles, &farm)?;
    Ok(profiles)
}

/// Puts a warning of each profile of recipes behind others that no source asks for.
pub fn push_profiles(lines: &mut Vec<u8>, profiles: &Tally, asked: &Tally) -> Pushed {
    let ways: [&[u8]; 2] = [
        b"farm line %0: no source asks for the profile %1",
        b"farm line %0: no source asks for the profile %1, named %2 times, first here",
    ];
    for (profile, named) in profiles.all().iter() {
        match asked.get(profile) {
            Some(asked) if asked.count > 0 => {}
            _ => push_named(lines, ways, profile, *named)?,
        }
    }
    Ok(())
}
