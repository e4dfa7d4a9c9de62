//! Readers and writers that remember a failure.
ghost use Rattle.std.specs.Prelude.{◌≡◌, ◌==◌, ◌||◌, ◌&&◌, true, false, is_err, is_ok, length, IsTrue, IsErr, OnOk};
ghost use Rattle.std.specs.Io.{ReadsAtMost, WritesAtMost};
ghost use Rattle.std.specs.Io.KnownBytes.{Appends, Keeps, ReadConsumes, WriteAppends};
ghost use Rattle.lot_io.specs.Watching.{AppendsBeginning, has_taken_none, is_failed_write};

use std::io;
use std::io::{Error, ErrorKind, Read, Write};
use std::marker::Model;

/// A reader or a writer that remembers a failure, and passes no call on after one. It retries no failed call, not even
/// an interrupted one. For a writer it also remembers whether all accepted bytes have been flushed.
#[derive(Debug, Drop)]
pub struct Watched<T> {
    inner: T,
    failed: bool,
    flushed: bool,
}

impl<T> Model for Watched<T> {
    ghost use Rattle.lot_io.specs.Watching.{Watch};

    ghost Value = { Watch T };

    ghost view = { λ w. record { inner = w.inner; failed = w.failed; flushed = w.flushed } };
}

impl<T> Watched<T> {
    /// Watches this reader or writer, with no failure yet and nothing accepted.
    pub fn new(inner: T) -> Self
        ensures { result ≡ record { inner = inner; failed = false; flushed = true } }
    {
        Watched {
            inner,
            failed: false,
            flushed: true,
        }
    }

    /// Whether a call of the reader or writer has returned an error, or a write of at least one byte has accepted none.
    pub fn failed(&self) -> bool
        ensures { result ≡ self.now.failed }
    {
        self.failed
    }

    /// Whether all bytes that the writer accepted have been flushed.
    pub fn flushed(&self) -> bool
        ensures { result ≡ self.now.flushed }
    {
        self.flushed
    }

    /// The reader or writer.
    pub fn into_inner(self) -> T
        ensures { result ≡ self.inner }
    {
        let Watched { inner, .. } = self;
        inner
    }
}

/// The error returned by each call after a failure.
fn has_failed() -> Error {
    Error::new(ErrorKind::Other, "it has failed before")
}

impl<R: Read> Read for Watched<R> {
    ghost remaining = { λ w. R.remaining w.inner };

    fn read(&mut self, buf: &mut [u8]) -> io::Result<usize>
        ensures bound { ReadsAtMost result buf.new }
        ensures bytes { ReadConsumes (R.remaining self.old.inner) (R.remaining self.new.inner) result buf.new }
        ensures failed { self.new.failed ≡ (self.old.failed || is_err result) }
        ensures flushed { self.new.flushed ≡ self.old.flushed }
        ensures nothing_after { IsTrue self.old.failed → (self.new ≡ self.old) × IsErr result }
    {
        if self.failed {
            return Err(has_failed());
        }
        let result = self.inner.read(buf);
        self.failed = result.is_err();
        result
    }
}

impl<W: Write> Write for Watched<W> {
    ghost contents = { λ w. W.contents w.inner };

    fn write(&mut self, buf: &[u8]) -> io::Result<usize>
        ensures bound { WritesAtMost result buf.now }
        ensures bytes { WriteAppends (W.contents self.old.inner) (W.contents self.new.inner) result buf.now }
        ensures failed { self.new.failed ≡ (self.old.failed || is_failed_write result buf.now) }
        ensures flushed { self.new.flushed ≡ (self.old.flushed && has_taken_none result) }
        ensures nothing_after { IsTrue self.old.failed → (self.new ≡ self.old) × IsErr result }
    {
        if self.failed {
            return Err(has_failed());
        }
        let result = self.inner.write(buf);
        let taken = match &result {
            Ok(taken) => *taken,
            Err(_) => 0,
        };
        self.failed = result.is_err() || (taken == 0 && !buf.is_empty());
        self.flushed = self.flushed && taken == 0;
        result
    }

    fn flush(&mut self) -> io::Result<()>
        ensures bytes { Keeps (W.contents self.old.inner) (W.contents self.new.inner) }
        ensures failed { self.new.failed ≡ (self.old.failed || is_err result) }
        ensures flushed { self.new.flushed ≡ (self.old.flushed || is_ok result) }
        ensures nothing_after { IsTrue self.old.failed → (self.new ≡ self.old) × IsErr result }
    {
        if self.failed {
            return Err(has_failed());
        }
        let result = self.inner.flush();
        self.failed = result.is_err();
        self.flushed = self.flushed || result.is_ok();
        result
    }

    fn write_all(&mut self, buf: &[u8]) -> io::Result<()>
        ensures bytes { OnOk result (Appends (W.contents self.old.inner) (W.contents self.new.inner) buf.now) }
        ensures begun { AppendsBeginning (W.contents self.old.inner) (W.contents self.new.inner) buf.now }
        ensures failed { self.new.failed ≡ (self.old.failed || is_err result) }
        ensures flushed { OnOk result (self.new.flushed ≡ (self.old.flushed && (length buf.now == 0))) }
        ensures unflushed { IsTrue self.new.flushed → IsTrue self.old.flushed }
        ensures nothing_after { IsTrue self.old.failed → self.new ≡ self.old }
    {
        let mut rest = buf;
        while !rest.is_empty() {
            let taken = self.write(rest)?;
            if taken == 0 {
                return Err(Error::new(ErrorKind::WriteZero, "a write took no byte"));
            }
            rest = &rest[taken..];
        }
        Ok(())
    }
}
