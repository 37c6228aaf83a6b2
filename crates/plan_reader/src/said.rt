//! What a line of a plan says by itself.

ghost use Rattle.std.specs.Prelude.{◌≡◌, ℕ, Ok, Result};
ghost use Rattle.deb_text.specs.Answers.{Gives};
ghost use Rattle.plan_reader.specs.LineErrors.{refusal_of_line};
ghost use Rattle.plan_reader.specs.LineView.{kind_said, kind_view};
ghost use Rattle.plan_reader.specs.Said.{InstructionSaid, said_at, said_by, standing_of};
ghost use Rattle.plan_reader.specs.View.{form_of, said_of, wording_of};
ghost use Rattle.plan_model.specs.declared.instructions.Instruction as instruction;

use crate::error::LineError;
use crate::form::{Form, LaneHead, Wording, read_form};
use crate::line_reading::LineKind;
use crate::names::{Names, read_instruction};
use plan_model::Instruction;
use std::alloc::Global;

/// Where an instruction may stand, by its kind.
#[derive(Clone, Copy)]
pub enum Standing {
    Anywhere,
    /// Outside of all branches.
    OutOfBranches,
    /// The same, and it opens branches.
    OpensBranches,
    /// In a first branch, which it ends.
    InFirstBranch,
}

/// What a line says by itself. Only an instruction's names are looked up.
#[derive(Drop)]
pub enum Said<'a> {
    Block(&'a [u8]),
    Lane(LaneHead<'a>),
    End,
    Use(&'a [u8]),
    /// An instruction, or what is wrong with its names.
    Instruction(Standing, Result<Instruction, LineError>),
}

impl<'a> Said<'a> {
    /// What a line does that says this.
    pub const fn kind(&self) -> LineKind<'a>
        ensures { kind_view result ≡ kind_said (said_of self.now) }
    {
        match self {
            Said::Block(name) => LineKind::OpensBlock(*name),
            Said::Lane(_) => LineKind::OpensLane,
            Said::End => LineKind::Ends,
            Said::Use(name) => LineKind::Uses(*name),
            Said::Instruction(standing, _) => LineKind::Says {
                opens: matches!(standing, Standing::OpensBranches),
            },
        }
    }
}

/// What a line says, or its own fault.
pub type LineRead<'a> = Result<Said<'a>, LineError>;

/// What a line says by itself.
///
/// # Errors
///
/// [`BadLine`](LineError::BadLine) where it is none of the lines that a plan has; or that memory
/// ran out.
#[tactic(auto, unfolding(crate::specs::Said::said_at))]
pub fn read_line<'a>(alloc: Global, names: Names<'_>, line: &'a [u8]) -> LineRead<'a>
    ensures { Gives refusal_of_line said_of result (said_at names.entry.universe.now line.now) }
{
    said_by(alloc, names, read_form(alloc, line)?)
}

/// What an instruction that stands so by its kind says, or what is wrong with its names.
///
/// # Errors
///
/// That memory ran out, which is the line's own fault.
fn told<'a>(standing: Standing, named: Result<Instruction, LineError>) -> LineRead<'a>
    ensures { (read : Result instruction.Instruction ℕ)
        → Gives refusal_of_line (λ instruction. instruction) named read
        → Gives refusal_of_line said_of result (Ok (InstructionSaid standing read)) }
{
    match named {
        Ok(instruction) => Ok(Said::Instruction(standing, Ok(instruction))),
        Err(LineError::Memory) => Err(LineError::Memory),
        Err(error) => Ok(Said::Instruction(standing, Err(error))),
    }
}

const fn standing_of(wording: &Wording<'_>) -> Standing
    ensures { result ≡ standing_of (wording_of wording.now) }
{
    match wording {
        Wording::Publish(_) | Wording::Wait(_) => Standing::OutOfBranches,
        Wording::When { .. } => Standing::OpensBranches,
        Wording::Else => Standing::InFirstBranch,
        Wording::Unpack { .. }
        | Wording::Configure(_)
        | Wording::Deconfigure(_)
        | Wording::Remove(_)
        | Wording::Build(_) => Standing::Anywhere,
    }
}

/// What a line of this form says.
fn said_by<'a>(alloc: Global, names: Names<'_>, form: Form<'a>) -> LineRead<'a>
    ensures { Gives refusal_of_line said_of result
        (Ok (said_by names.entry.universe.now (form_of form.entry))) }
{
    match form {
        Form::Block(name) => Ok(Said::Block(name)),
        Form::Lane(head) => Ok(Said::Lane(head)),
        Form::End => Ok(Said::End),
        Form::Use(name) => Ok(Said::Use(name)),
        Form::Instruction(wording) => {
            let standing = standing_of(&wording);
            told(standing, read_instruction(alloc, names, wording))
        }
    }
}
