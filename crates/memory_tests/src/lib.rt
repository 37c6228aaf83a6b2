//! What no table can ask of the layers below: what they answer where memory is refused, that a
//! paragraph of many fields is read in no more time than its length takes, and what becomes of
//! texts that are written to writers that fail.
//!
//! Nothing is proved but that it is safe and ends. scripts/refuse_memory_in_tests refuses the tests
//! one allocation at a time, outside the gate.
#![tactic(auto)]

#[cfg(test)]
mod debian_layers;
#[cfg(test)]
mod long_texts;
#[cfg(test)]
mod rows;
#[cfg(test)]
mod sinks;
