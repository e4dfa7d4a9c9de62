//! A thread's place in its script.
ghost use Rattle.std.specs.Prelude.{◌≡◌, ◌↔◌, ◌+◌, ◌-◌, ◌%◌, ◌<◌, ◌≤◌, ◌∷◌, length, List, min, IsTrue};
ghost use Rattle.lot_machine.specs.Bounds.{IsBetween};
ghost use Rattle.lot_script.specs.declared.open_loops.OpenLoop.{OpenLoop as OpenLoopRecord};

use crate::open_loops::{OpenLoop, OpenLoops};
use std::marker::Model;

/// A thread's place in its script, and its accumulator.
#[derive(Debug, PartialEq, Eq, Drop)]
pub struct Place {
    /// The index of the next line.
    pub(crate) line: usize,
    /// The ticks done of the next line, if it is a `compute`.
    pub(crate) done: u32,
    // Before the loops: the two 32-bit numbers then leave no gap, for which a copy of the whole would wait.
    pub(crate) accumulator: u32,
    /// The loops around the place.
    pub(crate) loops: OpenLoops,
}

impl Model for Place {
    ghost use Rattle.lot_script.specs.Places.{Place};

    ghost Value = { Place };

    ghost view = { λ c. record { line = c.line; done = c.done; loops = c.loops; accumulator = c.accumulator } };

    ghost inverse = { λ place. record {
      line = place.line;
      done = place.done;
      loops = place.loops;
      accumulator = place.accumulator;
    } };
}

impl Place {
    /// A copy of the place. It allocates nothing.
    #[inline(always)]
    pub fn copied(&self) -> Self
        ensures { result ≡ self.now }
    {
        Place {
            line: self.line,
            done: self.done,
            loops: self.loops.copied(),
            accumulator: self.accumulator,
        }
    }

    /// Whether the other place is equal, with the same accumulator.
    #[inline(always)]
    pub fn is_same(&self, other: &Place) -> bool
        ensures { IsTrue result ↔ (self.now ≡ other.now) }
    {
        self.line == other.line
            && self.done == other.done
            && self.accumulator == other.accumulator
            && self.loops.is_same(&other.loops)
    }

    /// The number that a `call` or a `reply` would send from here.
    pub fn accumulator(&self) -> u32
        ensures { result ≡ self.now.accumulator }
    {
        self.accumulator
    }

    /// Sets the accumulator, as for a thread to which this number is delivered.
    #[inline(always)]
    pub fn set_accumulator(&mut self, number: u32)
        ensures { self.new ≡ record self.old { accumulator = number } }
    {
        self.accumulator = number;
    }

    /// Advances to the next line.
    #[inline(always)]
    pub(crate) fn leave_line(&mut self)
        requires { self.old.line < 1024 }
        ensures { self.new ≡ record self.old { line = self.old.line + 1; done = 0 } }
    {
        self.line += 1;
        self.done = 0;
    }

    /// Does work of a `compute` of this many ticks: the rest of it, up to `most`. Returns the ticks done.
    #[inline(always)]
    pub(crate) fn work(&mut self, ticks: u32, most: u32) -> u32
        requires line { self.old.line < 1024 }
        requires left { self.old.done < ticks }
        ensures count { result ≡ min most (ticks - self.old.done) }
        ensures some { most < ticks - self.old.done → self.new ≡ record self.old { done = self.old.done + most } }
        ensures all { ticks - self.old.done ≤ most → self.new ≡ record self.old { line = self.old.line + 1; done = 0 } }
    {
        let left = ticks - self.done;
        if most < left {
            self.done += most;
            return most;
        }
        self.leave_line();
        left
    }

    /// Sets the accumulator to this number.
    pub(crate) fn set(&mut self, number: u32)
        requires { self.old.line < 1024 }
        ensures { self.new ≡ record self.old { line = self.old.line + 1; done = 0; accumulator = number } }
    {
        self.set_accumulator(number);
        self.leave_line();
    }

    /// Adds this number to the accumulator, modulo 2^32.
    pub(crate) fn add(&mut self, number: u32)
        requires { self.old.line < 1024 }
        ensures { self.new ≡ record self.old {
          line = self.old.line + 1;
          done = 0;
          accumulator = (self.old.accumulator + number) % 4294967296;
        } }
    {
        self.accumulator = self.accumulator.wrapping_add(number);
        self.leave_line();
    }

    /// Enters a loop of this many copies.
    pub(crate) fn enter(&mut self, times: u32)
        requires line { self.old.line < 1024 }
        requires times { IsBetween 1 65535 times }
        requires room { length self.old.loops < 8 }
        ensures { self.new ≡ record self.old {
          line = self.old.line + 1;
          done = 0;
          loops = record { body = self.old.line + 1; left = times - 1 } ∷ self.old.loops;
        } }
    {
        self.leave_line();
        self.loops.push(OpenLoop {
            body: self.line as u16,
            left: (times - 1) as u16,
        });
    }

    /// Ends a copy of the innermost loop: its next copy begins, or the loop is over.
    pub(crate) fn end_copy(&mut self)
        requires line { self.old.line < 1024 }
        requires open { 0 < length self.old.loops }
        ensures again { (o : OpenLoopRecord) (outer : List OpenLoopRecord) → self.old.loops ≡ o ∷ outer → 0 < o.left
            → self.new ≡ record self.old { line = o.body; done = 0; loops = record o { left = o.left - 1 } ∷ outer } }
        ensures following { (o : OpenLoopRecord) (outer : List OpenLoopRecord) → self.old.loops ≡ o ∷ outer
            → o.left ≡ 0 → self.new ≡ record self.old { line = self.old.line + 1; done = 0; loops = outer } }
    {
        let innermost = self.loops.pop();
        if innermost.left == 0 {
            self.leave_line();
            return;
        }
        self.line = usize::from(innermost.body);
        self.done = 0;
        self.loops.push(OpenLoop {
            body: innermost.body,
            left: innermost.left - 1,
        });
    }
}
