//! Worked examples of farms: what the definitions say of each is computed.
//!
//! Proved: of each farm its costs or its trap, its runs and its verdict under rows that are given,
//! as the contract of a function of empty body. Not computed: that the rows that are given are the
//! greatest.
#![tactic(auto)]

pub mod building;
pub mod configuring;
pub mod essential;
pub mod excluding;
pub mod growing;
pub mod holding;
pub mod providing;
pub mod resources;
pub mod waiting;
