//! The loops around a thread's place.
ghost use Rattle.std.specs.Prelude.{◌≡◌, ◌↔◌, ◌<◌, [], ◌∷◌, length, reverse, IsTrue};
ghost use Rattle.lot_script.specs.Drafts.{CanNest, IsLine};
ghost use Rattle.lot_script.specs.Places.{AreCopies, IsCopy, open_after};

use arrayvec::ArrayVec;
use lot_simulation::ScriptLine;
use std::marker::Model;

/// A loop around a thread's place.
#[derive(Clone, Copy, Debug, Default, PartialEq, Eq)]
pub(crate) struct OpenLoop {
    /// The line at which its body begins.
    pub(crate) body: u16,
    /// The number of copies of the body after this one.
    pub(crate) left: u16,
}

impl OpenLoop {
    /// Whether it is `first`, in its first copy or a later one.
    fn is_copy(self, first: OpenLoop) -> bool
        ensures { IsTrue result ↔ IsCopy self first }
    {
        self.body == first.body && self.left <= first.left
    }
}

/// The open loops at some place, at most 8. Contracts see the innermost first.
#[derive(Debug, PartialEq, Eq, Drop)]
pub(crate) struct OpenLoops {
    /// The outermost first.
    stack: ArrayVec<OpenLoop, 8>,
}

impl Model for OpenLoops {
    ghost use Rattle.std.specs.Prelude.{◌≤◌, List, length, reverse};
    ghost use Rattle.std.proofs.Common.{ap};
    ghost use Rattle.std.proofs.lemmas.List.{reverse-reverse};
    ghost use Rattle.lot_script.specs.declared.open_loops.OpenLoop.{OpenLoop};

    ghost Value = { List OpenLoop };

    ghost view = { λ l. reverse l.stack.items };

    ghost inverse = { λ loops. record { stack = record { items = reverse loops } } };

    ghost inverse_ok = { λ l h. ap (λ loops. record { stack = record { items = loops } })
        (reverse-reverse l.stack.items) };

    ghost invariant = { λ l. length l.stack.items ≤ 8 };
}

impl OpenLoops {
    /// No loop.
    pub(crate) fn new() -> Self
        ensures { result ≡ [] }
    {
        OpenLoops {
            stack: ArrayVec::new(),
        }
    }

    /// A copy of the loops, one by one, since there are seldom more than two. It allocates nothing.
    #[inline(always)]
    pub(crate) fn copied(&self) -> Self
        ensures { result ≡ self.now }
    {
        let mut stack = ArrayVec::new();
        for open in self.stack.as_slice() {
            stack.push(*open);
        }
        OpenLoops { stack }
    }

    /// Whether both have the same loops, with as many copies left of each.
    #[inline(always)]
    pub(crate) fn is_same(&self, other: &OpenLoops) -> bool
        ensures { IsTrue result ↔ (self.now ≡ other.now) }
    {
        self.stack.as_slice() == other.stack.as_slice()
    }

    /// Adds an innermost loop.
    pub(crate) fn push(&mut self, innermost: OpenLoop)
        requires { length self.old < 8 }
        ensures { self.new ≡ innermost ∷ self.old }
    {
        self.stack.push(innermost);
    }

    /// Removes the innermost loop and returns it.
    pub(crate) fn pop(&mut self) -> OpenLoop
        requires { 0 < length self.old }
        ensures innermost { self.old ≡ result ∷ self.new }
        ensures room { length self.new < 8 }
    {
        self.stack.pop().unwrap()
    }

    /// Passes the line with this number: a `loop` opens a loop, in its first copy, and an `end` closes one.
    pub(crate) fn follow(&mut self, number: usize, line: ScriptLine)
        requires line { IsLine line }
        requires nests { CanNest (length self.old) line }
        requires number { number < 1024 }
        ensures { self.new ≡ open_after number line self.old }
    {
        match line {
            ScriptLine::Loop(times) => self.push(OpenLoop {
                body: number as u16 + 1,
                left: (times - 1) as u16,
            }),
            ScriptLine::End => {
                self.pop();
            }
            _ => {}
        }
    }

    /// Whether these are the loops of `firsts`, each in its first copy or a later one.
    pub(crate) fn are_copies(&self, firsts: &OpenLoops) -> bool
        ensures { IsTrue result ↔ AreCopies self.now firsts.now }
    {
        are_copies(self.stack.as_slice(), firsts.stack.as_slice())
    }
}

/// Whether the loops are those of `firsts`, each in its first copy or a later one. Both lists have the outermost first.
fn are_copies(loops: &[OpenLoop], firsts: &[OpenLoop]) -> bool
    ensures { IsTrue result ↔ AreCopies (reverse loops.now) (reverse firsts.now) }
{
    if loops.len() != firsts.len() {
        return false;
    }
    for i in 0..loops.len() {
        if !loops[i].is_copy(firsts[i]) {
            return false;
        }
    }
    true
}
