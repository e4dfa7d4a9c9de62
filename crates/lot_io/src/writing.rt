//! Writing to a watched writer.
ghost use Rattle.std.specs.Prelude.{◌≡◌, [], false, true, OnOk};
ghost use Rattle.lot_io.specs.Writing.{Writes};

use crate::{IoFault, Watched};
use std::io::Write;

/// Writes the bytes. It retries no failed write. Fails with `Write` if the writer fails.
#[inline(always)]
pub fn write_bytes<W: Write>(writer: &mut Watched<W>, bytes: &[u8]) -> Result<(), IoFault>
    requires { writer.old.failed ≡ false }
    ensures { Writes W.contents writer.old writer.new result bytes.now }
{
    match writer.write_all(bytes) {
        Ok(()) => Ok(()),
        Err(_) => Err(IoFault::Write),
    }
}

/// Flushes the writer, and writes nothing. Fails with `Write` if the writer fails.
pub fn flush<W: Write>(writer: &mut Watched<W>) -> Result<(), IoFault>
    requires { writer.old.failed ≡ false }
    ensures flushed { OnOk result (writer.new.flushed ≡ true) }
    ensures text { Writes W.contents writer.old writer.new result [] }
{
    match writer.flush() {
        Ok(()) => Ok(()),
        Err(_) => Err(IoFault::Write),
    }
}
