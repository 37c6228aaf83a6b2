//! What is kept from line to line while a certificate is written.

ghost use Rattle.std.specs.Prelude.{◌≡◌, ◌<◌, ◌≤◌, length, IfOk};
ghost use Rattle.bit_rows.specs.Sets.{variants_of, IsWordOf};
ghost use Rattle.farm_model.specs.Packages.{names};
ghost use Rattle.plan_model.specs.Plan.{lane};
ghost use Rattle.plan_verifier.specs.Accepted.{known_rows};
ghost use Rattle.cert_writer.specs.Carried.{IsSpelled, IsReadyForRow, CarriesKnown};
ghost use Rattle.cert_writer.specs.NewRows.{new_row};

use farm_universe::Universe;
use plan_verifier::Accepted;
use std::alloc::{AllocError, Global};

/// The variants of one name that a word has, spelled as they stand behind others of a list.
#[derive(Drop)]
pub struct Spelled {
    pub word: u64,
    pub text: Vec<u8>,
}

/// What is kept from line to line: the words of what a lane knows at a place, one for each name,
/// and the variants of each name as they were spelled last, most often those of the next line too.
#[derive(Drop)]
pub struct Carried {
    pub place: usize,
    pub words: Vec<u64>,
    pub spelled: Vec<Spelled>,
}

impl Carried {
    /// Room for a word of each name, and no variant spelled.
    pub fn new(alloc: Global, universe: &Universe) -> Result<Carried, AllocError>
        ensures { IfOk result (IsReadyForRow universe.now) }
    {
        let names = universe.names() as usize;
        let words = vec![in alloc; 0; names]?;
        let mut spelled = Vec::with_capacity(alloc, names)?;
        for _ in 0..names {
            spelled.push(Spelled {
                word: 0,
                text: Vec::new(alloc),
            })?;
        }
        Ok(Carried {
            place: 0,
            words,
            spelled,
        })
    }

    /// Goes to the beginning of a lane.
    pub fn begin(&mut self, accepted: &Accepted, number: usize)
        requires lane { number < length accepted.now.plan }
        requires ready { IsReadyForRow accepted.now.universe self.old }
        ensures { CarriesKnown accepted.now number self.new }
    {
        accepted.keeps();
        accepted
            .known()
            .fill_words(accepted.universe(), number, 0, &mut self.words);
        self.place = 0;
    }

    /// Goes on to another place of the lane.
    pub fn go_on(&mut self, accepted: &Accepted, number: usize, place: usize)
        requires lane { number < length accepted.now.plan }
        requires place { place ≤ length (lane accepted.now.plan number).instructions }
        requires carried { CarriesKnown accepted.now number self.old }
        ensures carried { CarriesKnown accepted.now number self.new }
        ensures place { self.new.place ≡ place }
    {
        accepted.keeps();
        let universe = accepted.universe();
        let known = accepted.known();
        known.move_words(universe, number, self.place, place, &mut self.words);
        self.place = place;
    }
}
