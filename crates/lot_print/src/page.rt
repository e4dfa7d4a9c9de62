//! A page of lines that go out in one write.
ghost use Rattle.std.specs.Prelude.{◌≡◌, ◌≤◌, ◌+◌, [], false, length, OnOk};
ghost use Rattle.lot_io.specs.Writing.{Puts, Writes};

use crate::lengths::{PAGE, TURN};
use crate::line::Line;
use lot_io::{IoFault, Watched};
use std::io::Write;
use std::marker::Model;

/// Lines of turns, to be written together. It allocates nothing.
#[derive(Debug, Drop)]
pub struct Page {
    pub(crate) lines: Line<PAGE>,
}

impl Model for Page {
    ghost use Rattle.std.specs.Prelude.{List, ℕ};

    ghost Value = { List ℕ };

    ghost view = { λ p. p.lines };

    ghost inverse = { λ lines. record { lines = lines } };
}

impl Page {
    /// A page without lines.
    pub fn new() -> Page
        ensures { result ≡ [] }
    {
        Page { lines: Line::new() }
    }

    /// Writes the lines, and leaves the page empty. It retries no failed write. Fails with `Write` if the writer fails.
    pub fn write_out<W: Write>(&mut self, writer: &mut Watched<W>) -> Result<(), IoFault>
        requires { writer.old.failed ≡ false }
        ensures text { Writes W.contents writer.old writer.new result self.old }
        ensures none { self.new ≡ [] }
    {
        let written = self.lines.write_to(writer);
        self.lines.clear();
        written
    }

    /// Makes room for the line of one more turn: it writes the page if there is none.
    #[inline(always)]
    pub(crate) fn make_room<W: Write>(&mut self, writer: &mut Watched<W>) -> Result<(), IoFault>
        requires { writer.old.failed ≡ false }
        ensures text { Puts W.contents writer.old writer.new self.old self.new result [] }
        ensures room { OnOk result (length self.new + 192 ≤ 4096) }
    {
        if self.lines.len() + TURN <= PAGE {
            return Ok(());
        }
        self.write_out(writer)
    }
}
