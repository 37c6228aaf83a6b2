//! Laws of the texts that are printed: of a plan, and of a certificate.
//!
//! Proved: each plan that was read is the plan of its listing, where that is no longer than a text
//! may be (`listing_is_read_again`); each instruction of a plan comes from one line of its text,
//! which says that instruction (`lines_say`). Over universes and plans that were read, the text of
//! each certificate stands for that certificate, where it is no longer than a text may be
//! (`certificate_is_read_again`); so do the line of a row and that of an item of the order.
#![tactic(auto)]

pub mod certificate;
pub mod listing;
