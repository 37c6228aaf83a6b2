//! The laws of a farm, over its definitions alone: what holds of every plan, under every order of
//! turns.
//!
//! Proved, of sound universes and plans with an annotation and an order (or those of these that a
//! law needs): no run ends in a trap, in each unfinished state some lane can step, no run is longer
//! than the count (`every_interleaving`); what each state has (`states_are_foreseen`), costs, and
//! schedules. That the plan of four texts has these premises is proved in plan_verifier.
#![tactic(auto)]

pub mod laws;
