//! Relation fields that are kept as they are written.

ghost use Rattle.std.specs.Prelude.{◌≡◌, [], IfOk, IfErr, None, take};
ghost use Rattle.deb_text.specs.Answers.{Gives};
ghost use Rattle.deb_profile.specs.Reduction.{reduced};
ghost use Rattle.deb_relation.specs.Field.{relations_at};
ghost use Rattle.farm_universe.specs.View.{refusal_of};

use crate::error::FieldFault;
use deb_profile::{ArchNames, ProfileSet, reduce_text};
use deb_relation::{Kind, Relations};
use std::alloc::Global;
use std::marker::Model;

/// A relation field as it is written, which is judged before it is kept: of the many fields that
/// are listed, few are asked for their entries. A contract sees the entries.
#[derive(Drop)]
pub struct FieldText {
    kind: Kind,
    text: Vec<u8>,
}

impl Model for FieldText {
    ghost use Rattle.std.specs.Prelude.{◌≡◌, Ok};
    ghost use Rattle.deb_relation.specs.Field.{relations_at};
    ghost use Rattle.deb_relation.specs.Relations as spec;
    ghost use Rattle.farm_universe.specs.FieldView.{entries_said};

    ghost Value = { spec.Relations };

    ghost view = { λ field. entries_said field.kind field.text.items };

    ghost invariant = { λ field. relations_at field.kind field.text.items
        ≡ Ok (entries_said field.kind field.text.items) };
}

impl FieldText {
    /// Judges a field, and keeps its text.
    ///
    /// # Errors
    ///
    /// 121 to 130, the first fault of the field. [`FieldFault::Memory`] where memory is refused.
    pub fn read(alloc: Global, kind: Kind, text: &[u8]) -> Result<FieldText, FieldFault>
        ensures { Gives refusal_of (λ field. field) result (relations_at kind text.now) }
    {
        Relations::judge(text, kind)?;
        Ok(FieldText {
            kind,
            text: Vec::from_slice(alloc, text)?,
        })
    }

    /// A field without an entry. It takes no memory.
    pub fn absent(alloc: Global, kind: Kind) -> FieldText
        ensures { result ≡ [] }
    {
        FieldText {
            kind,
            text: Vec::new(alloc),
        }
    }

    /// How many bytes the field is written in.
    pub fn bytes(&self) -> usize {
        self.text.len()
    }

    /// What is left of the field, up to this many entries.
    pub fn reduce(
        &self,
        alloc: Global,
        names: &ArchNames,
        profiles: &ProfileSet,
        most: usize,
    ) -> Result<Relations, FieldFault>
        ensures left { IfOk result
            (λ left. left ≡ take most (reduced names.now profiles.now self.now)) }
        ensures memory { IfErr result (λ e. refusal_of e ≡ None) }
    {
        Ok(reduce_text(alloc, &self.text, self.kind, names, profiles, most)?)
    }
}
