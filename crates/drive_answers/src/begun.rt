//! How a drive begins: by a journal or without one.

ghost use Rattle.std.specs.Prelude.{◌≡◌, [], IfErr, IfOk};
ghost use Rattle.std.specs.String.{string_bytes};
ghost use Rattle.drive_journal.specs.HeadText.{head_text, run_name, stamp_text, sums_of};
ghost use Rattle.drive_journal.specs.Resuming.{IsRefused, IsResumed};

use drive_journal::{
    JournalFile, Resumed, StoreFault, Sums, Texts, head_of, resume, run_name_of, stamp_of,
};
use std::alloc::{AllocError, Global};

/// The texts of a drive by their digests, and the stamp that a new run has.
#[derive(Drop)]
pub struct Beginning {
    pub sums: Sums,
    pub stamp: String,
}

impl Beginning {
    /// How a drive of these texts begins at a time, in nanoseconds since 1970.
    pub fn of(alloc: Global, texts: Texts<'_>, nanoseconds: u64) -> Result<Beginning, AllocError>
        ensures sums { IfOk result (λ b. b.sums ≡ sums_of texts.entry.packages.now
            texts.entry.sources.now texts.entry.farm.now texts.entry.plan.now) }
        ensures stamp { IfOk result (λ b. string_bytes b.stamp ≡ stamp_text nanoseconds) }
    {
        Ok(Beginning {
            sums: Sums::of(alloc, texts)?,
            stamp: stamp_of(alloc, nanoseconds)?,
        })
    }

    /// A run that nobody means to resume.
    pub fn anew(&self, alloc: Global) -> Result<Resumed, AllocError>
        ensures stamp { IfOk result (λ run. run.stamp.items ≡ string_bytes self.now.stamp) }
        ensures entries { IfOk result (λ run. run.entries.items ≡ []) }
    {
        Ok(Resumed {
            stamp: Vec::from_slice(alloc, self.stamp.as_bytes())?,
            entries: Vec::new(alloc),
        })
    }

    /// Goes on by a journal, or begins it.
    ///
    /// # Errors
    ///
    /// Those of [`resume`].
    pub fn by<J: JournalFile>(&self, alloc: Global, journal: &mut J) -> Result<Resumed, StoreFault>
        ensures resumed { IfOk result (IsResumed (head_text self.now.sums)
            (string_bytes self.now.stamp) (J.state journal.old) (J.state journal.new)) }
        ensures refused { IfErr result (IsRefused (head_text self.now.sums)
            (string_bytes self.now.stamp) (J.state journal.old) (J.state journal.new)) }
    {
        let head = head_of(alloc, &self.sums)?;
        resume(alloc, journal, head.as_slice(), self.stamp.as_bytes())
    }

    /// The name of the run that goes on.
    pub fn name(&self, alloc: Global, resumed: &Resumed) -> Result<Vec<u8>, AllocError>
        ensures { IfOk result (λ name.
            name.items ≡ run_name self.now.sums resumed.now.stamp.items) }
    {
        run_name_of(alloc, &self.sums, resumed.stamp.as_slice())
    }
}
