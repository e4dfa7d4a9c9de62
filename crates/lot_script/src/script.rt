//! Scripts.
ghost use Rattle.std.specs.Prelude.{◌≡◌, ◌↔◌, ◌<◌, ◌≤◌, length, map, IfOk, IsTrue};
ghost use Rattle.lot_simulation.specs.Script.{start as whole_context, unrolled, without_sleep};
ghost use Rattle.lot_script.specs.Drafts.{IsScript};
ghost use Rattle.lot_script.specs.Places.{CanBeDone, Fits, IsRestOf, context_at, first_place, open_at, rest_at};

use crate::Place;
use crate::open_loops::OpenLoops;
use lot_machine::ScriptTrap;
use lot_simulation::ScriptLine;
use std::alloc::{AllocError, Global};
use std::marker::Model;

/// The script of a simulated thread, line by line. A `ScriptBuilder` makes one.
#[derive(Debug, Drop)]
pub struct Script {
    pub(crate) lines: Vec<ScriptLine>,
}

impl Model for Script {
    ghost use Rattle.std.specs.Prelude.{List};
    ghost use Rattle.lot_simulation.specs.declared.script.ScriptLine.{ScriptLine};
    ghost use Rattle.lot_simulation.specs.Script.{start as whole_context, unrolled};
    ghost use Rattle.lot_script.specs.Drafts.{IsScript};

    ghost Value = { List ScriptLine };

    ghost view = { λ s. s.lines.items };

    ghost invariant = { λ s. IsScript s.lines.items };
}

impl Script {
    /// The lines, in order, at most 1024.
    pub fn lines(&self) -> &[ScriptLine]
        ensures lines { result.now ≡ self.now }
        ensures legal { IsScript result.now }
    {
        self.lines.as_slice()
    }

    /// A copy of the script, in memory of its own. It fails only if out of memory.
    pub fn copied(&self, alloc: Global) -> Result<Script, AllocError>
        ensures { IfOk result (λ script. script ≡ self.now) }
    {
        let lines = Vec::from_slice(alloc, self.lines())?;
        Ok(Script { lines })
    }

    /// A copy of the script for a free run, with a `yield` for each `sleep`. It fails only if out of memory.
    pub fn without_sleeps(&self, alloc: Global) -> Result<Script, AllocError>
        ensures { IfOk result (λ script. script ≡ map without_sleep self.now) }
    {
        let mut lines = Vec::with_capacity(alloc, self.lines.len())?;
        for line in self.lines() {
            lines.push(without_sleep(*line))?;
        }
        Ok(Script { lines })
    }

    /// Whether the other script has the same lines.
    pub fn is_same(&self, other: &Script) -> bool
        ensures { IsTrue result ↔ (self.now ≡ other.now) }
    {
        self.lines() == other.lines()
    }

    /// The place at which a thread begins: the first line, with accumulator 0.
    pub fn start(&self) -> Place
        ensures first { result ≡ first_place }
        ensures whole { context_at self.now result ≡ whole_context self.now }
        ensures fits { Fits self.now result }
    {
        // Brings the invariant into the proof: the lines make a script.
        let _ = &self.lines;
        Place {
            line: 0,
            done: 0,
            loops: OpenLoops::new(),
            accumulator: 0,
        }
    }

    /// Whether the place fits a script with these lines.
    pub fn fits(&self, place: &Place) -> bool
        ensures fits { IsTrue result ↔ Fits self.now place.now }
        ensures rest { Fits self.now place.now → IsRestOf (rest_at self.now place.now) (unrolled self.now) }
        ensures some { Fits self.now place.now → 0 < length (rest_at self.now place.now) }
    {
        place.line <= self.lines.len()
            && can_be_done(self.next_line(place), place.done)
            && place.loops.are_copies(&self.open_at(place.line))
    }

    /// The loops that are open before a line, each in its first copy.
    fn open_at(&self, line: usize) -> OpenLoops
        requires { line ≤ length self.now }
        ensures { result ≡ open_at self.now line }
    {
        let mut loops = OpenLoops::new();
        for number in 0..line {
            loops.follow(number, self.lines[number]);
        }
        loops
    }
}

/// The line in a free run: a `yield` for a `sleep`.
fn without_sleep(line: ScriptLine) -> ScriptLine
    ensures { result ≡ without_sleep line }
{
    match line {
        ScriptLine::Trap(ScriptTrap::Sleep(_)) => ScriptLine::Trap(ScriptTrap::Yield),
        other => other,
    }
}

/// Whether this many ticks of the line may be done.
fn can_be_done(line: Option<ScriptLine>, done: u32) -> bool
    ensures { IsTrue result ↔ CanBeDone line done }
{
    match line {
        Some(ScriptLine::Compute(ticks)) => done < ticks,
        _ => done == 0,
    }
}
