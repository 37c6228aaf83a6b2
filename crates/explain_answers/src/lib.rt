//! What `explain` answers to four texts.
//!
//! Proved: the lines of `check`'s verdict first, and behind them lines that spell what explains it;
//! as JSON the object of the verdict with its notes; the verdict alone where memory is refused after
//! it (`answer_explain`, `AnswersExplain`). What the notes tell is exact as data; how they are
//! spelled, and which warnings stand behind them, is only tested. Of a certificate what
//! `verify-cert` answers, and lines below it (`answer_explain_cert`), of which no clause speaks.
#![tactic(auto)]

mod cert_known;
mod cert_notes;
mod cert_places;
mod certified;
mod explain;
mod explanation;
mod note_json;
mod text_faults;
mod told;

pub use certified::answer_explain_cert;
pub use explain::answer_explain;
