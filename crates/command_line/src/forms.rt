//! The commands as tables: what each is for, and its words.

use crate::command::{
    AFTER, AGAIN, ARCHIVE, BARS, BUILT, BY_CERT, CAME, CERT, CERTIFICATE, CHECK, DRAFT, DRIVE,
    EXPLAIN, FARM, FOLDER, FORBID, FORCE, FULL, GRAPH, IMPORT, JOURNAL, JSON, LANES, LIST, NEEDS,
    NEW_FARM, NEW_PACKAGES, NEW_SOURCES, NUMBER, OF, PACKAGES, PARTIAL, PLAN, PROGRESS, REST, RUN,
    SCHEDULE, SKETCH, SOURCES, STATUS, STEP, SVG, TIMELINE, VERIFY_CERT, WISH, WITHDRAW, WITHOUT,
};
use crate::help;

/// A word of a command: its name, what stands for its value, what it is for, and options that may
/// not stand beside it.
#[derive(Clone, Copy)]
pub enum Word {
    /// A file, which is required at its place.
    File(&'static str, &'static str, &'static str),
    /// A file, which is required at its place unless an option is given.
    FileUnless(&'static str, &'static str, &'static str, &'static str),
    /// An option without a value.
    Flag(&'static str, &'static str, &'static [&'static str]),
    /// An option with a value.
    Value(&'static str, &'static str, &'static str, &'static [&'static str]),
    /// An option with a value, whose own name is not that of its word, which comes next.
    ValueAs(&'static str, &'static str, &'static str, &'static str),
    /// An option with a value, which is required.
    Needed(&'static str, &'static str, &'static str),
    /// An option with a value, which may stand more than once.
    List(&'static str, &'static str, &'static str),
    /// The same, which is required.
    NeededList(&'static str, &'static str, &'static str),
}

/// The files of texts that stand behind a command, ahead of its other words.
#[derive(Clone, Copy)]
pub enum Files {
    None,
    OfFarm,
    All,
}

/// A command.
#[derive(Clone, Copy)]
pub struct Form {
    pub name: &'static str,
    /// What it does, in a line.
    pub about: &'static str,
    /// What its help says below that.
    pub more: &'static str,
    /// What its help says of its words, where that is not made of them.
    pub usage: Option<&'static str>,
    pub files: Files,
    pub words: &'static [Word],
}

/// The files of the four texts.
pub const FILES: [Word; 4] = [
    Word::File(PACKAGES, "PACKAGES", help::PACKAGES),
    Word::File(SOURCES, "SOURCES", help::SOURCES),
    Word::File(FARM, "FARM", help::FARM),
    Word::File(PLAN, "PLAN", help::PLAN),
];

const AS_JSON: Word = Word::Flag(JSON, help::JSON, &[]);

const WITH_PROGRESS: Word = Word::Flag(PROGRESS, help::PROGRESS, &[]);

/// The commands, in the order in which help lists them.
pub const FORMS: [Form; 14] = [
    Form {
        name: CHECK,
        about: help::CHECK,
        more: help::CHECK_MORE,
        usage: None,
        files: Files::All,
        words: &[AS_JSON],
    },
    Form {
        name: EXPLAIN,
        about: help::EXPLAIN,
        more: help::EXPLAIN_MORE,
        usage: None,
        files: Files::All,
        words: &[
            AS_JSON,
            Word::Value(BY_CERT, "CERT", help::BY_CERT, &[JSON]),
        ],
    },
    Form {
        name: CERT,
        about: help::CERT,
        more: help::CERT_MORE,
        usage: None,
        files: Files::All,
        words: &[],
    },
    Form {
        name: LIST,
        about: help::LIST,
        more: help::LIST_MORE,
        usage: None,
        files: Files::All,
        words: &[Word::Flag(NUMBER, help::NUMBER, &[])],
    },
    Form {
        name: VERIFY_CERT,
        about: help::VERIFY_CERT,
        more: help::VERIFY_CERT_MORE,
        usage: None,
        files: Files::All,
        words: &[Word::File(CERTIFICATE, "CERT", help::CERTIFICATE)],
    },
    Form {
        name: STEP,
        about: help::STEP,
        more: help::STEP_MORE,
        usage: None,
        files: Files::All,
        words: &[Word::Needed(SCHEDULE, "LIST", help::SCHEDULE)],
    },
    Form {
        name: RUN,
        about: help::RUN,
        more: help::RUN_MORE,
        usage: None,
        files: Files::All,
        words: &[WITH_PROGRESS],
    },
    Form {
        name: DRIVE,
        about: help::DRIVE,
        more: help::DRIVE_MORE,
        usage: None,
        files: Files::All,
        words: &[
            Word::Value(JOURNAL, "FILE", help::JOURNAL, &[]),
            WITH_PROGRESS,
        ],
    },
    Form {
        name: STATUS,
        about: help::STATUS,
        more: help::STATUS_MORE,
        usage: None,
        files: Files::All,
        words: &[Word::Needed(JOURNAL, "FILE", help::JOURNAL_READ), AS_JSON],
    },
    Form {
        name: AFTER,
        about: help::AFTER,
        more: help::AFTER_MORE,
        usage: Some(help::AFTER_USAGE),
        files: Files::All,
        words: &[
            Word::File(FOLDER, "DIR", help::FOLDER),
            Word::Needed(JOURNAL, "FILE", help::JOURNAL_READ),
            Word::ValueAs(NEW_PACKAGES, PACKAGES, "P", help::NEW_PACKAGES),
            Word::ValueAs(NEW_SOURCES, SOURCES, "S", help::NEW_SOURCES),
            Word::ValueAs(NEW_FARM, FARM, "F", help::NEW_FARM),
            Word::Value(SKETCH, "K", help::NEW_SKETCH, &[]),
            Word::List(WITHOUT, "R", help::WITHOUT),
            Word::List(BUILT, "R", help::BUILT),
            Word::List(AGAIN, "R", help::AGAIN),
            Word::List(WITHDRAW, "NAME=VERSION", help::WITHDRAW),
            Word::List(CAME, "NAME=VERSION", help::CAME),
            Word::Flag(FORCE, help::AFTER_FORCE, &[]),
        ],
    },
    Form {
        name: TIMELINE,
        about: help::TIMELINE,
        more: help::TIMELINE_MORE,
        usage: None,
        files: Files::All,
        words: &[
            Word::Flag(JSON, help::JSON, &[SVG, BARS]),
            Word::Flag(SVG, help::SVG, &[BARS]),
            Word::Flag(BARS, help::BARS, &[]),
            Word::Flag(FULL, help::FULL, &[]),
        ],
    },
    Form {
        name: GRAPH,
        about: help::GRAPH,
        more: help::GRAPH_MORE,
        usage: None,
        files: Files::All,
        words: &[
            AS_JSON,
            Word::Flag(NEEDS, help::NEEDS, &[]),
            Word::List(OF, "RECIPE", help::OF),
        ],
    },
    Form {
        name: DRAFT,
        about: help::DRAFT,
        more: help::DRAFT_MORE,
        usage: Some(help::DRAFT_USAGE),
        files: Files::OfFarm,
        words: &[
            Word::FileUnless(SKETCH, "SKETCH", help::SKETCH, LANES),
            Word::Value(LANES, "N", help::LANES, &[SKETCH, REST]),
            Word::Flag(REST, help::REST, &[]),
            Word::Flag(PARTIAL, help::PARTIAL, &[]),
        ],
    },
    Form {
        name: IMPORT,
        about: help::IMPORT,
        more: help::IMPORT_MORE,
        usage: Some(help::IMPORT_USAGE),
        files: Files::None,
        words: &[
            Word::List(ARCHIVE, "INDEX", help::ARCHIVE),
            Word::NeededList(PACKAGES, "INDEX", help::INDEXES),
            Word::NeededList(SOURCES, "INDEX", help::SOURCE_INDEXES),
            Word::List(FORBID, "RECIPE", help::FORBID),
            Word::Flag(FORCE, help::FORCE, &[]),
            Word::File(WISH, "WISH", help::WISH),
            Word::File(FOLDER, "DIR", help::FOLDER),
        ],
    },
];
