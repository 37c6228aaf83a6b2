//! The words by which sources are restricted, in what they need and in what is built of them, and the
//! names of the architecture among these that the farm forgets.

use crate::tally::Tally;
use crate::warning::push_named;
use deb_profile::ArchNames;
use deb_relation::{Atom, Kind};
use deb_text::{Class, has};
use explain_faults::{Entries, Paragraph, Pushed};
use std::alloc::{AllocError, Global};

/// The build relations of a source.
const BUILD_RELATIONS: [(&[u8], Kind); 6] = [
    (b"Build-Depends", Kind::BuildNeed),
    (b"Build-Depends-Arch", Kind::BuildNeed),
    (b"Build-Depends-Indep", Kind::BuildNeed),
    (b"Build-Conflicts", Kind::BuildClash),
    (b"Build-Conflicts-Arch", Kind::BuildClash),
    (b"Build-Conflicts-Indep", Kind::BuildClash),
];

/// How often sources name the profiles of recipes, and the names of the farm's architecture.
#[derive(Drop)]
pub struct SourceWords {
    pub profiles: Tally,
    pub architectures: Tally,
}

impl SourceWords {
    /// These profiles and architectures, as sources have not named them.
    pub fn of(
        alloc: Global,
        profiles: &Tally,
        architectures: &[Vec<u8>],
    ) -> Result<SourceWords, AllocError> {
        let mut words = SourceWords {
            profiles: Tally::new(alloc),
            architectures: Tally::new(alloc),
        };
        for (profile, _) in profiles.all().iter() {
            words.profiles.expect(profile)?;
        }
        for name in architectures {
            words.architectures.expect(name)?;
        }
        Ok(words)
    }

    fn note_atom(&mut self, line: u64, atom: &Atom) {
        for list in atom.profiles() {
            for item in list.items() {
                self.profiles.note(line, item.word.text());
            }
        }
        if let Some(list) = atom.archs() {
            for word in &list.names {
                self.architectures.note(line, word.text());
            }
        }
    }

    fn note_field(&mut self, line: u64, mut entries: Entries<'_>) -> Pushed {
        while let Some(entry) = entries.next()? {
            for atom in entry.alternatives() {
                self.note_atom(line, atom);
            }
        }
        Ok(())
    }

    /// Notes the words in a source, which begins at this line.
    pub fn note(&mut self, alloc: Global, line: u64, source: Paragraph<'_>) -> Pushed {
        for (name, kind) in BUILD_RELATIONS {
            self.note_field(line, Entries::of(alloc, kind, source.value(name))?)?;
        }
        let list = source.value(b"Package-List").unwrap_or(b"");
        note_list(&mut self.profiles, line, list);
        let built_for = source.value(b"Architecture").unwrap_or(b"");
        self.architectures.note_words(line, built_for);
        Ok(())
    }
}

/// Notes the profiles in the marks of a `Package-List`, as `profile=a+!b,c`.
fn note_list(profiles: &mut Tally, line: u64, list: &[u8]) {
    for word in list.split(|byte| has(Class::Blank, *byte)) {
        if let Some(formula) = word.strip_prefix(b"profile=") {
            for term in formula.split(|byte| matches!(*byte, b',' | b'+')) {
                profiles.note(line, term.strip_prefix(b"!").unwrap_or(term));
            }
        }
    }
}

/// Puts a warning behind others of each name that matches the farm's architecture, that sources name,
/// and that the farm does not have: what is restricted by it goes, or stays, as it does for another
/// architecture, and what is built for it is not built.
pub fn push_wildcards(lines: &mut Vec<u8>, names: &ArchNames, asked: &Tally) -> Pushed {
    let ways: [&[u8]; 2] = [
        b"sources line %0: the Architecture-Names of the farm lack %1, which this source names",
        b"sources line %0: the Architecture-Names of the farm lack %1, named %2 times, first here",
    ];
    for (name, named) in asked.all().iter() {
        if named.count > 0 && !names.matches(name) {
            push_named(lines, ways, name, *named)?;
        }
    }
    Ok(())
}
