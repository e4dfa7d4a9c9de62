//! Slices of scripts, each with a budget of ticks.
ghost use Rattle.std.specs.Prelude.{◌≡◌, ◌↔◌, IsTrue};
ghost use Rattle.lot_machine.specs.Bounds.{IsBetween};
ghost use Rattle.lot_script.specs.Places.{Fits};
ghost use Rattle.lot_script.specs.Slices.{IsSlice, IsSameSlice};

use crate::passing::Advance;
use crate::{Place, Script};
use lot_machine::ScriptTrap;
use std::marker::Model;

/// The work of a thread in its script within a budget of ticks: ticks of work, and then a trap or the budget's end.
#[derive(Debug, Drop)]
pub struct Slice<'a> {
    script: &'a Script,
    start: Place,
    budget: u32,
    ticks: u32,
    trap: Option<ScriptTrap>,
    end: Place,
}

impl<'a> Model for Slice<'a> {
    ghost use Rattle.lot_script.specs.Slices.{Parts, IsSlice};

    ghost Value = { Parts };

    ghost view = { λ s. record {
      lines = s.script.now;
      start = s.start;
      budget = s.budget;
      ticks = s.ticks;
      trap = s.trap;
      end = s.end;
    } };

    ghost invariant = { λ s. IsSlice (record {
      lines = s.script.now;
      start = s.start;
      budget = s.budget;
      ticks = s.ticks;
      trap = s.trap;
      end = s.end;
    }) };
}

impl<'a> Slice<'a> {
    /// The script that the slice is of.
    pub fn script(&self) -> &'a Script
        ensures { result.now ≡ self.now.lines }
    {
        self.script
    }

    /// The place at which the slice begins.
    pub fn start(&self) -> &Place
        ensures { result.now ≡ self.now.start }
    {
        &self.start
    }

    /// The budget in ticks, 1 to 1000.
    pub fn budget(&self) -> u32
        ensures { result ≡ self.now.budget }
    {
        self.budget
    }

    /// Whether the other slice is equal: of a script with the same lines, from the same place, with the same budget.
    pub fn is_same(&self, other: &Slice<'_>) -> bool
        ensures same { IsTrue result ↔ IsSameSlice self.now other.now }
        ensures does { IsTrue result → (self.now.ticks ≡ other.now.ticks) × (self.now.trap ≡ other.now.trap) }
    {
        self.script.is_same(other.script)
            && self.start.is_same(&other.start)
            && self.budget == other.budget
    }

    /// The ticks of work, without a trap's own tick.
    pub fn ticks(&self) -> u32
        ensures ticks { result ≡ self.now.ticks }
        ensures exact { IsSlice self.now }
    {
        self.ticks
    }

    /// The trap at the slice's end, or `None` if the budget ends first.
    pub fn trap(&self) -> Option<ScriptTrap>
        ensures trap { result ≡ self.now.trap }
        ensures exact { IsSlice self.now }
    {
        self.trap
    }

    /// The place at the slice's end: after the trap, or at an exit, which no slice passes.
    pub fn end(&self) -> &Place
        ensures end { result.now ≡ self.now.end }
        ensures exact { IsSlice self.now }
    {
        &self.end
    }
}

/// The result of a slice: ticks of work, and then a trap or the budget's end.
#[derive(Clone, Copy, Debug, PartialEq, Eq)]
pub struct SliceDone {
    /// The ticks of work, without a trap's own tick.
    pub ticks: u32,
    /// The trap, or `None` if the budget ends first.
    pub trap: Option<ScriptTrap>,
}

impl Script {
    /// Advances a place of this script by a slice with a budget of 1 to 1000 ticks: past the trap, unless it is an
    /// exit, which no slice passes. It allocates nothing, and takes as many steps as it passes lines.
    #[inline(always)]
    pub fn pass_slice(&self, place: &mut Place, budget: u32) -> SliceDone
        requires fits { Fits self.now place.old }
        requires budget { IsBetween 1 1000 budget }
        ensures { IsSlice (record {
          lines = self.now;
          start = place.old;
          budget = budget;
          ticks = result.ticks;
          trap = result.trap;
          end = place.new;
        }) }
    {
        let mut ticks = 0;
        while ticks < budget {
            match self.advance(place, budget - ticks) {
                Advance::Marks(passed) => ticks += passed,
                Advance::Trap(trap) => {
                    return SliceDone {
                        ticks,
                        trap: Some(trap),
                    };
                }
            }
        }
        SliceDone { ticks, trap: None }
    }

    /// The slice of this script from `start` with a budget of 1 to 1000 ticks. It allocates nothing, and takes as
    /// many steps as it passes lines.
    #[inline(always)]
    pub fn slice(&self, start: Place, budget: u32) -> Slice<'_>
        requires fits { Fits self.now start }
        requires budget { IsBetween 1 1000 budget }
        ensures lines { result.lines ≡ self.now }
        ensures start { result.start ≡ start }
        ensures budget { result.budget ≡ budget }
        ensures exact { IsSlice result }
    {
        let mut end = start.copied();
        let done = self.pass_slice(&mut end, budget);
        Slice {
            script: self,
            start,
            budget,
            ticks: done.ticks,
            trap: done.trap,
            end,
        }
    }
}
