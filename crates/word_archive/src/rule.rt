//! The rule of the archive's table, and its steps.

use atomic_table::{Join, Play, Split, TableRule};
use plan_verifier::Accepted;
use std::marker::Model;

/// What a seat knows. No value of it is made.
pub struct View {
    nothing: (),
}

impl Model for View {
    ghost use Rattle.word_archive.specs.Views.{SeatView, spent};

    ghost Value = { SeatView };

    ghost view = { λ _. spent };
}

/// What the words and the views keep whenever no step is in progress.
pub struct Law;

impl TableRule<(), View, Accepted> for Law {
    ghost use Rattle.std.specs.Prelude.{[], false};
    ghost use Rattle.word_archive.specs.Rule.{KeepsRule};
    ghost use Rattle.word_archive.specs.Views.{base_view};

    ghost holds = { λ a s. KeepsRule a s };

    ghost first = { λ a. base_view a 0 false [] };
}

/// A load of a name's word.
pub struct Loads;

impl Play<(), View> for Loads {
    ghost use Rattle.word_archive.specs.Steps.{Loaded};

    ghost then = { Loaded };
}

/// The draw of a serial.
pub struct Draws;

impl Play<(), View> for Draws {
    ghost use Rattle.word_archive.specs.Steps.{Drawn};

    ghost then = { Drawn };
}

/// An output.
pub struct Publishes;

impl Play<(), View> for Publishes {
    ghost use Rattle.word_archive.specs.Steps.{Published};

    ghost then = { Published };
}

/// A halt by a lane.
pub struct Halts;

impl Play<(), View> for Halts {
    ghost use Rattle.word_archive.specs.Steps.{Halted};

    ghost then = { Halted };
}

/// A halt by the base seat.
pub struct Stops;

impl Play<(), View> for Stops {
    ghost use Rattle.word_archive.specs.Steps.{Stopped};

    ghost then = { Stopped };
}

/// A look at the halt word.
pub struct Looks;

impl Play<(), View> for Looks {
    ghost use Rattle.word_archive.specs.Steps.{Looked};

    ghost then = { Looked };
}

/// The next lane's seat goes off the base seat.
pub struct NextLane;

impl Split<View> for NextLane {
    ghost use Rattle.word_archive.specs.Views.{split_left, split_right};

    ghost left = { split_left };

    ghost right = { split_right };
}

/// A lane's seat comes back to the base seat.
pub struct BackAgain;

impl Join<View> for BackAgain {
    ghost use Rattle.word_archive.specs.Views.{joined_view, spent};

    ghost both = { joined_view };

    ghost spent = { spent };
}
