//! One chroot: what instructions do to it, and the traps that they meet.
//!
//! Proved: an instruction meets exactly the first trap of its kind and leaves the chroot as it was,
//! or has exactly its effect (`trap`, `ok`, `err`); `can_build` gives the first trap of a build;
//! `Chroot::open` is the base chroot. `change` and `unpack_untested` have the effect alone, and
//! test nothing.
#![tactic(auto)]

mod base;
mod build;
mod change;
mod chroot;
mod configure;
mod held;
mod members;
mod met;
mod phase;
mod slots;
mod space;
mod unpack;
mod withdraw;

pub use change::Change;
pub use chroot::Chroot;
pub use phase::Phase;
