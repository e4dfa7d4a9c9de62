//! Building scripts.
ghost use Rattle.std.specs.Prelude.{◌≡◌, ◌↔◌, ◌<◌, ◌≤◌, [], length, OnOk, OnErr, IsTrue};
ghost use Rattle.lot_machine.specs.Bounds.{IsBetween};
ghost use Rattle.lot_simulation.specs.Reading.{checked};
ghost use Rattle.lot_script.specs.Drafts.{IsLine, CanNest, line_checks, loops_after, pushed};

use crate::Script;
use lot_machine::ScriptTrap;
use lot_simulation::{InputRefusal, Range, ScriptLine, ranges};
use std::alloc::{AllocError, Global};
use std::marker::Model;

/// The lines of a script so far: at most 1024, with at most 8 loops open at once.
#[derive(Debug, Drop)]
pub struct ScriptBuilder {
    lines: Vec<ScriptLine>,
    open_loops: u32,
}

impl Model for ScriptBuilder {
    ghost use Rattle.lot_script.specs.Drafts.{Draft, IsDraft};

    ghost Value = { Draft };

    ghost view = { λ b. record { lines = b.lines.items; loops = b.open_loops } };

    ghost invariant = { λ b. IsDraft (record { lines = b.lines.items; loops = b.open_loops }) };
}

impl ScriptBuilder {
    /// The largest number of lines of a script.
    pub const MOST_LINES: usize = 1024;

    /// No lines. It allocates nothing.
    pub fn new(alloc: Global) -> Self
        ensures { result ≡ record { lines = []; loops = 0 } }
    {
        ScriptBuilder {
            lines: Vec::new(alloc),
            open_loops: 0,
        }
    }

    /// The number of lines, at most 1024.
    pub fn len(&self) -> usize
        ensures count { result ≡ length self.now.lines }
        ensures most { result ≤ 1024 }
    {
        self.lines.len()
    }

    /// The number of open loops, at most 8.
    pub fn open_loops(&self) -> u32
        ensures count { result ≡ self.now.loops }
        ensures most { result ≤ 8 }
    {
        self.open_loops
    }

    /// Returns `Ok` if the line can come next, and otherwise the refusal of an input with it, checked in this order:
    /// `BadNumber` for a `compute`, a `sleep` or a `loop` out of its range, `TooDeep` for a ninth open loop, `BadLine`
    /// for an `end` without a loop and for an exit, which no line is, and `TooLong` for line 1025.
    pub fn check(&self, line: ScriptLine) -> Result<(), InputRefusal>
        ensures checks { result ≡ checked (line_checks self.now line) tt }
        ensures number { OnOk result (IsLine line) }
        ensures nesting { OnOk result (CanNest self.now.loops line) }
        ensures room { OnOk result (length self.now.lines < 1024) }
    {
        match line {
            ScriptLine::Compute(ticks) if !is_in(ranges::WORK, ticks) => {
                return Err(InputRefusal::BadNumber);
            }
            ScriptLine::Trap(ScriptTrap::Sleep(ticks)) if !is_in(ranges::SLEEP, ticks) => {
                return Err(InputRefusal::BadNumber);
            }
            ScriptLine::Loop(times) if !is_in(ranges::TIMES, times) => {
                return Err(InputRefusal::BadNumber);
            }
            ScriptLine::Loop(_) if 8 <= self.open_loops => return Err(InputRefusal::TooDeep),
            ScriptLine::End if self.open_loops == 0 => return Err(InputRefusal::BadLine),
            ScriptLine::Trap(ScriptTrap::Exit) => return Err(InputRefusal::BadLine),
            _ => {}
        }
        if Self::MOST_LINES <= self.lines.len() {
            return Err(InputRefusal::TooLong);
        }
        Ok(())
    }

    /// Adds one line. Fails only if out of memory, and changes nothing then.
    pub fn push(&mut self, line: ScriptLine) -> Result<(), AllocError>
        requires number { IsLine line }
        requires nesting { CanNest self.old.loops line }
        requires room { length self.old.lines < 1024 }
        ensures ok { OnOk result (self.new ≡ pushed self.old line) }
        ensures err { OnErr result (self.new ≡ self.old) }
    {
        let open_loops = loops_after(self.open_loops, line);
        self.lines.push(line)?;
        self.open_loops = open_loops;
        Ok(())
    }

    /// The script of these lines.
    pub fn finish(self) -> Script
        requires { self.loops ≡ 0 }
        ensures { result ≡ self.lines }
    {
        let ScriptBuilder {
            lines,
            open_loops: _,
        } = self;
        Script { lines }
    }
}

/// Whether the number is in the range.
fn is_in(range: Range, number: u32) -> bool
    ensures { IsTrue result ↔ IsBetween range.first range.last number }
{
    range.first <= number && number <= range.last
}

/// The number of open loops after a line, given the number before it.
fn loops_after(open_loops: u32, line: ScriptLine) -> u32
    requires { CanNest open_loops line }
    ensures { result ≡ loops_after open_loops line }
{
    match line {
        ScriptLine::Loop(_) => open_loops + 1,
        ScriptLine::End => open_loops - 1,
        _ => open_loops,
    }
}
