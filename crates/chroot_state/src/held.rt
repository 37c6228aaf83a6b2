//! What a chroot holds of each name, and which names are present.

ghost use Rattle.std.specs.Prelude.{ℕ, ◌≡◌, ◌+◌, ◌==◌, ◌<◌, ◌≤◌, ◌^◌, IfOk, true, length, position, slice_set};
ghost use Rattle.std.specs.List.{list_any, sum_by};
ghost use Rattle.std.specs.Vec.{vec_capacity};
ghost use Rattle.chroot_state.specs.Present.{ListsPresent};
ghost use Rattle.farm_model.specs.Chroot as chroots;

use farm_universe::Slot;
use std::alloc::{AllocError, Global};
use std::marker::Model;

/// What a chroot holds of each name, by number. Beside it stands a list of the names that are
/// present, so that nobody looks at the others.
#[derive(Drop)]
pub struct Slots {
    slots: Vec<Slot>,
    present: Vec<u32>,
}

impl Model for Slots {
    ghost use Rattle.std.specs.Vec.{vec_capacity};
    ghost use Rattle.chroot_state.specs.Present.{IsPresentList};
    ghost use Rattle.farm_model.specs.Chroot.{Chroot};

    ghost Value = { Chroot };

    ghost view = { λ s. s.slots.items };

    ghost invariant = { λ s. IsPresentList s.slots.items s.present.items (vec_capacity s.present) };
}

/// Tells whether a variant is there, unpacked or configured.
pub fn is_present(slot: Slot) -> bool
    ensures { result ≡ chroots.is_present slot }
{
    !matches!(slot, Slot::Absent)
}

/// Lists the names that are present.
fn list_present(slots: &[Slot], present: &mut Vec<u32>)
    requires room { length slots.now ≤ vec_capacity present.old }
    requires small { length slots.now < 2 ^ 32 }
    ensures listed { ListsPresent slots.now present.new.items }
    ensures room { vec_capacity present.new ≡ vec_capacity present.old }
{
    present.clear();
    let count = slots.len() as u32;
    for name in 0..count {
        if is_present(slots[name as usize]) {
            present.push_reserved(name);
        }
    }
}

/// The first place of a name in a list.
fn place_of(present: &[u32], name: u32) -> Option<usize>
    ensures { result ≡ position (λ n. n == name) present.now }
{
    present.iter().position(|listed| *listed == name)
}

/// Takes a name out of a list, and the last one into its place.
fn take_out(present: &mut Vec<u32>, name: u32)
    requires listed { list_any (λ n. n == name) present.old.items ≡ true }
    ensures gone { (f : ℕ → ℕ) → sum_by f present.new.items + f name ≡ sum_by f present.old.items }
    ensures room { vec_capacity present.new ≡ vec_capacity present.old }
{
    if let Some(place) = place_of(present, name) {
        present.swap_remove(place);
    }
}

impl Slots {
    /// Takes what is held of each name.
    pub fn new(alloc: Global, slots: Vec<Slot>) -> Result<Slots, AllocError>
        requires { length slots.items < 2 ^ 32 }
        ensures { IfOk result (λ held. held ≡ slots.items) }
    {
        let mut present = Vec::with_capacity(alloc, slots.len())?;
        list_present(&slots, &mut present);
        Ok(Slots { slots, present })
    }

    /// What is held of a name: nothing where there is no such name.
    pub fn at(&self, name: u32) -> Slot
        ensures { result ≡ chroots.slot self.now name }
    {
        match self.slots.get(name as usize) {
            Some(slot) => *slot,
            None => Slot::Absent,
        }
    }

    /// The names that are present, each once, in no order.
    pub fn present(&self) -> &[u32]
        ensures { ListsPresent self.now result.now }
    {
        &self.present
    }

    /// Puts what is held of a name.
    pub fn put(&mut self, name: u32, slot: Slot)
        requires { name < length self.old }
        ensures { self.new ≡ slice_set self.old name slot }
    {
        let was_present = is_present(self.at(name));
        self.slots[name as usize] = slot;
        if is_present(slot) {
            if !was_present {
                self.present.push_reserved(name);
            }
        } else if was_present {
            take_out(&mut self.present, name);
        }
    }
}
