//! Advancing a thread through its script, line by line.
ghost use Rattle.std.specs.Prelude.{◌≡◌, ◌<◌, ◌≤◌, slice_get};
ghost use Rattle.lot_script.specs.Drafts.{IsScript};
ghost use Rattle.lot_script.specs.Places.{Advances, Fits, IsMarked, Passes, Stands};

use crate::{Place, Script};
use lot_machine::ScriptTrap;
use lot_simulation::ScriptLine;

/// The next step of a thread.
#[derive(Clone, Copy, Debug)]
pub(crate) enum Advance {
    /// It passes this many marks.
    Marks(u32),
    Trap(ScriptTrap),
}

impl Script {
    /// Passes marks at the place, at least one and at most `most`; or makes the trap at the place.
    #[inline(always)]
    pub(crate) fn advance(&self, place: &mut Place, most: u32) -> Advance
        requires fits { Fits self.now place.old }
        requires some { 0 < most }
        ensures { Advances self.now place.old place.new most result }
    {
        let Some(line) = self.next_line(place) else {
            return Advance::Trap(ScriptTrap::Exit);
        };
        if let ScriptLine::Trap(trap) = line {
            place.leave_line();
            return Advance::Trap(trap);
        }
        Advance::Marks(self.pass(place, line, most))
    }

    /// Passes marks of the line at the place, at least one and at most `most`. Returns their number.
    #[inline(always)]
    fn pass(&self, place: &mut Place, line: ScriptLine, most: u32) -> u32
        requires stands { Stands self.now place.old line }
        requires marked { IsMarked line }
        requires some { 0 < most }
        ensures some { 0 < result }
        ensures most { result ≤ most }
        ensures passes { Passes self.now place.old place.new result }
    {
        match line {
            ScriptLine::Compute(ticks) => return place.work(ticks, most),
            ScriptLine::Set(number) => place.set(number),
            ScriptLine::Add(number) => place.add(number),
            ScriptLine::Loop(times) => place.enter(times),
            ScriptLine::End => place.end_copy(),
            ScriptLine::Trap(_) => unreachable!(),
        }
        1
    }

    /// The next line, or `None` after the last.
    #[inline(always)]
    pub(crate) fn next_line(&self, place: &Place) -> Option<ScriptLine>
        ensures line { result ≡ slice_get self.now place.now.line }
        ensures legal { IsScript self.now }
    {
        let lines = self.lines();
        lines.get(place.line).copied()
    }
}
