//! Certificates: made of accepted plans, and checked by themselves.
//!
//! Proved: a certificate that passes, whoever made it, means that its plan is safe in every
//! interleaving (`safe`: `IsSafe`); of another the answer is exactly its first fault (`verdict`);
//! the certificate that is made of an accepted plan passes, and has exactly its greatest rows and
//! its order. Memory apart.
//!
//! # Example
//!
//! ```
//! use plan_cert::certificate;
//! use plan_verifier::Accepted;
//! use std::alloc::{AllocError, Global};
//!
//! /// How many lanes the order of an accepted plan names.
//! pub fn order_length(alloc: Global, accepted: &Accepted) -> Result<usize, AllocError> {
//!     Ok(certificate(alloc, accepted)?.order().len())
//! }
//! ```
#![tactic(auto)]

mod checker;
mod claim;
mod events;
mod facts;
mod justified;
mod laws;
mod maker;
mod opens;
mod order;
mod origins;
mod stated;
mod stated_rows;

pub use cert_text::{CertFault, Certificate, print, read};
pub use checker::{check_by_tables, check_certificate};
pub use laws::{faults_refuse, first_fault_is_one};
pub use maker::certificate;
