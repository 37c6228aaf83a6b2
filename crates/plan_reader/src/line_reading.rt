//! From which lines the instructions of a plan come, line by line.

ghost use Rattle.std.specs.Prelude.{◌≡◌, ◌∷◌, ◌++◌, [], false, map, None, Some, IfOk, OnOk};
ghost use Rattle.plan_reader.specs.Drafts.{block_named};
ghost use Rattle.plan_reader.specs.LineView.{kind_view};
ghost use Rattle.plan_reader.specs.PlanLines.{add_lines, end_of, from_line, no_lines_read, or_no_lines};
ghost use Rattle.plan_reader.specs.PlanLines.{take_kind, InBlock, InLane};

use crate::blocks::Blocks;
use crate::origin::{LaneLines, Origin};
use std::alloc::{AllocError, Global};
use std::marker::Model;

/// What a line does, apart from the names of its instruction.
#[derive(Clone, Copy)]
pub enum LineKind<'a> {
    OpensBlock(&'a [u8]),
    OpensLane,
    Ends,
    Uses(&'a [u8]),
    /// It says an instruction, which may open branches.
    Says { opens: bool },
}

/// What is open.
#[derive(Drop)]
pub enum Opened {
    Nothing,
    Block { name: Vec<u8> },
    /// A lane, with the line that opens it and where its instructions so far come from.
    Lane { head: u32, origins: Vec<Origin> },
}

/// From which lines the instructions so far come. A reading is asked only for lines that were put
/// into an [`Assembly`](crate::assembly::Assembly): what that refuses is not known here, and tells
/// that memory ran out.
#[derive(Drop)]
pub struct LineReading {
    /// The lines of blocks.
    blocks: Blocks<u32>,
    /// The lanes that have ended.
    lanes: Vec<LaneLines>,
    current: Opened,
    /// Whether the next line stands inside a branch.
    inside: bool,
}

impl Model for LineReading {
    ghost use Rattle.plan_reader.specs.LineView.{opened, Suits};
    ghost use Rattle.plan_reader.specs.PlanLines as spec;

    ghost Value = { spec.LineReading };

    ghost view = { λ it. record {
      blocks = it.blocks.ended;
      lanes = it.lanes.items;
      current = opened it.blocks.written it.current;
      inside = it.inside;
    } };

    ghost invariant = { λ it. Suits it.blocks it.current };
}

/// Puts lines behind `origins`, brought in by the `use` of a line.
fn push_used(origins: &mut Vec<Origin>, used: u32, lines: &[u32]) -> Result<(), AllocError>
    ensures { OnOk result (origins.new.items
        ≡ origins.old.items ++ map (from_line (Some used)) lines.now) }
{
    for line in lines {
        origins.push(Origin {
            line: *line,
            used: Some(used),
        })?;
    }
    Ok(())
}

impl LineReading {
    /// Nothing said so far.
    pub fn new(alloc: Global) -> LineReading
        ensures { result ≡ no_lines_read }
    {
        LineReading {
            blocks: Blocks::new(alloc),
            lanes: Vec::new(alloc),
            current: Opened::Nothing,
            inside: false,
        }
    }

    /// The lanes that have ended.
    pub fn lanes(self) -> Vec<LaneLines>
        ensures { result.items ≡ self.lanes }
    {
        self.lanes
    }

    /// Puts a line into what is open.
    fn add(self, line: u32, inside: bool) -> Result<LineReading, AllocError>
        ensures { IfOk result (λ next. next ≡ add_lines None (line ∷ []) inside self) }
    {
        let LineReading {
            blocks,
            lanes,
            current,
            ..
        } = self;
        match current {
            Opened::Nothing => Ok(LineReading {
                blocks,
                lanes,
                current,
                inside,
            }),
            Opened::Block { name } => Ok(LineReading {
                blocks: blocks.add(line).ok().ok_or(AllocError)?,
                lanes,
                current: Opened::Block { name },
                inside,
            }),
            Opened::Lane { head, mut origins } => {
                origins.push(Origin { line, used: None })?;
                Ok(LineReading {
                    blocks,
                    lanes,
                    current: Opened::Lane { head, origins },
                    inside,
                })
            }
        }
    }

    /// Puts the lines of a block into what is open, by the `use` at this line.
    fn add_use(self, alloc: Global, line: u32, block: &[u8]) -> Result<LineReading, AllocError>
        ensures { IfOk result (λ next. next ≡ add_lines (Some line)
            (or_no_lines (block_named self.blocks block.now)) self.inside self) }
    {
        let LineReading {
            blocks,
            lanes,
            current,
            inside,
        } = self;
        match current {
            Opened::Nothing => Ok(LineReading {
                blocks,
                lanes,
                current,
                inside,
            }),
            Opened::Block { name } => Ok(LineReading {
                blocks: blocks.add_use(block).ok().ok_or(AllocError)?,
                lanes,
                current: Opened::Block { name },
                inside,
            }),
            Opened::Lane { head, mut origins } => {
                let lines = blocks.body(alloc, block).ok().ok_or(AllocError)?;
                push_used(&mut origins, line, &lines)?;
                Ok(LineReading {
                    blocks,
                    lanes,
                    current: Opened::Lane { head, origins },
                    inside,
                })
            }
        }
    }

    /// Ends what is open at this line.
    fn end(self, alloc: Global, end: u32) -> Result<LineReading, AllocError>
        ensures { IfOk result (λ next. next ≡ end_of self.current end self) }
    {
        let LineReading {
            blocks,
            mut lanes,
            current,
            inside,
        } = self;
        let blocks = match current {
            Opened::Nothing => blocks,
            Opened::Block { name } => blocks.end(alloc, name)?,
            Opened::Lane { head, origins } => {
                lanes.push(LaneLines { head, origins, end })?;
                blocks
            }
        };
        Ok(LineReading {
            blocks,
            lanes,
            current: Opened::Nothing,
            inside,
        })
    }

    /// Opens a block of a new name, where nothing is open.
    fn open_block(self, name: Vec<u8>) -> Result<LineReading, AllocError>
        ensures { IfOk result (λ next. next
            ≡ record self { current = InBlock name.items []; inside = false }) }
    {
        if self.blocks.has(&name) || !matches!(self.current, Opened::Nothing) {
            return Err(AllocError);
        }
        Ok(LineReading {
            current: Opened::Block { name },
            inside: false,
            ..self
        })
    }

    /// Opens a lane at this line, where nothing is open.
    fn open_lane(self, head: u32, origins: Vec<Origin>) -> Result<LineReading, AllocError>
        ensures { IfOk result (λ next. next
            ≡ record self { current = InLane head origins.items; inside = false }) }
    {
        if !matches!(self.current, Opened::Nothing) {
            return Err(AllocError);
        }
        Ok(LineReading {
            current: Opened::Lane { head, origins },
            inside: false,
            ..self
        })
    }

    /// Takes the line of this number behind those that were read.
    #[tactic(auto, unfolding(crate::specs::PlanLines::take_kind))]
    pub fn taken(
        self,
        alloc: Global,
        number: u32,
        kind: LineKind<'_>,
    ) -> Result<LineReading, AllocError>
        ensures { IfOk result (λ next. next ≡ take_kind number (kind_view kind.entry) self) }
    {
        match kind {
            LineKind::OpensBlock(name) => self.open_block(Vec::from_slice(alloc, name)?),
            LineKind::OpensLane => self.open_lane(number, Vec::new(alloc)),
            LineKind::Ends if self.inside => self.add(number, false),
            LineKind::Ends => self.end(alloc, number),
            LineKind::Uses(block) => self.add_use(alloc, number, block),
            LineKind::Says { opens } => {
                let inside = opens || self.inside;
                self.add(number, inside)
            }
        }
    }
}
