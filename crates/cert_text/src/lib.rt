//! The certificate of a plan: what each lane knows where it learns something, and an order of the
//! waits and outputs; how it is printed, and how a text is read as one.
//!
//! Proved: `print` gives exactly the text of a certificate, and `read` exactly the certificate that
//! a text stands for, or the line of its first fault, memory apart. That what is printed is read
//! again is proved in cert_laws. Not proved: that items are looked up and not parsed, which only
//! takes time.
#![tactic(auto)]

mod certificate;
mod fault;
mod line;
mod list;
mod places;
mod printer;
mod reader;
mod repeats;
mod same;
mod spelled;

pub use certificate::Certificate;
pub use farm_model::Trap;
pub use fault::{BAD_ORDER, BAD_TEXT, CertFault, NOT_JUSTIFIED, UNEVEN, UNSAFE};
pub use printer::print;
pub use reader::read;
