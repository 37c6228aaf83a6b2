//! The certificate of an accepted plan, written as it is made: neither its rows nor its text are
//! ever held whole.
//!
//! Proved: what is written is the text of a certificate that has the plan's greatest rows and its
//! order, and that passes: whole, or a first part of it where the sink fails, or where memory is
//! refused after the first 65,536 bytes; before that, nothing (`IsCertificateWritten`).
#![tactic(auto)]

mod carried;
mod pending;
mod spelling;
mod stop;
mod writer;

pub use stop::CertStop;
pub use writer::write_certificate;
