//! The archive in memory.

ghost use Rattle.std.specs.Prelude.{◌≡◌, ◌<◌, ◌≤◌, ◌^◌, ◌++◌, ◌∷◌, [], List, IfOk, length, slice_index};
ghost use Rattle.farm_archive.specs.Kept.{IsArchive, with_publication};
ghost use Rattle.farm_archive.specs.Room.{outputs_in};
ghost use Rattle.farm_model.specs.Universe as farm;
ghost use Rattle.plan_model.specs.Common.{count, IsPlan};
ghost use Rattle.plan_model.specs.Run as run;

use crate::publication::Publication;
use farm_universe::{Universe, Variant};
use plan_reader::Plan;
use std::alloc::{AllocError, Global};
use std::marker::Model;

/// The archive of a farm: for each name the variants that are there, and what was published, the
/// newest last.
#[derive(Drop)]
pub struct PlainArchive {
    words: Vec<u64>,
    history: Vec<Publication>,
}

impl Model for PlainArchive {
    ghost use Rattle.std.specs.Vec.{vec_capacity};
    ghost use Rattle.farm_archive.specs.Kept.{Kept};

    ghost Value = { Kept };

    ghost view = { λ a. record {
      words = a.words.items;
      history = a.history.items;
      room = vec_capacity a.history;
    } };
}

/// The set of one variant.
fn single(bit: u32) -> u64
    requires { bit < 64 }
    ensures { result ≡ 2 ^ bit }
{
    1 << bit
}

impl PlainArchive {
    /// Makes the initial archive, with room for a publication at each event of a plan.
    pub fn open(alloc: Global, universe: &Universe, plan: &Plan) -> Result<PlainArchive, AllocError>
        requires plan { IsPlan universe.now plan.now.lanes }
        requires counted { plan.now.count ≡ count universe.now plan.now.lanes }
        ensures initial { IfOk result (IsArchive universe.now []) }
        ensures room { IfOk result (λ a. count universe.now plan.now.lanes ≤ a.room) }
        ensures outputs { IfOk result (λ a. outputs_in universe.now plan.now.lanes ≤ a.room) }
    {
        let mut words = Vec::new(alloc);
        let count = universe.names();
        for name in 0..count {
            words.push(universe.initial(name))?;
        }
        let history = Vec::with_capacity(alloc, plan.count())?;
        Ok(PlainArchive { words, history })
    }

    /// The word of a name: bit b is set where variant b is there. 0 where there is no such name.
    pub fn word(&self, name: u32) -> u64
        ensures { result ≡ slice_index self.now.words name }
    {
        match self.words.get(name as usize) {
            Some(word) => *word,
            None => 0,
        }
    }

    /// Adds a publication of a lane. It takes no memory and is never refused, since there is room
    /// for every output of the plan.
    pub fn publish(&mut self, lane: u32, variant: Variant)
        requires named { variant.name < length self.old.words }
        requires bit { variant.bit < 64 }
        requires room { length self.old.history < self.old.room }
        ensures published { self.new ≡ with_publication self.old lane variant }
        ensures archive { (u : farm.Universe) (published : List run.Publication)
            → IsArchive u published self.old
            → IsArchive u (published ++ run.publication lane variant ∷ []) self.new }
    {
        let serial = self.history.len() as u64;
        let word = self.word(variant.name);
        self.words[variant.name as usize] = word | single(variant.bit);
        self.history.push_reserved(Publication {
            serial,
            lane,
            variant,
        });
    }

    /// The publications in their order.
    pub fn history(&self) -> &[Publication]
        ensures { result.now ≡ self.now.history }
    {
        &self.history
    }
}
