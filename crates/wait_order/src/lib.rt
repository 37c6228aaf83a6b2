//! An order of the waits of a plan, or the lanes that have none.
//!
//! Proved: `order` gives an order of the waits, or exactly the stuck lanes; `settle` says where all
//! lanes stand once none goes on.
#![tactic(auto)]

mod rounds;
mod standing;
mod wait_rows;

pub use rounds::{OrderError, Settled, order, settle};
pub use standing::Standing;
