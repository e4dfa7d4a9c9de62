//! The sources of an input, standard input or a file, and the reasons why readers and writers fail.
ghost use Rattle.std.specs.Prelude.{◌≡◌, IfErr, None, OnOk, Some};
ghost use Rattle.std.specs.Io.{ReadsAtMost, WritesAtMost};
ghost use Rattle.std.specs.Io.KnownBytes.{Keeps, ReadConsumes, WriteAppends};

use std::io;
use std::io::{Read, Write};

/// The inputs that a command line can name. The program takes one of them.
pub trait Inputs: Drop {
    /// The reader of standard input.
    type Standard: Read + Drop;
    /// The reader of a file.
    type File: Read + Drop;

    /// Takes standard input.
    fn standard(self) -> Self::Standard
    where
        Self: Sized;

    /// Opens the file with this name.
    fn open(self, name: &str) -> io::Result<Self::File>
    where
        Self: Sized;
}

/// A reader or a writer that records the reason for its last failure, which `Watched` doesn't.
#[derive(Drop)]
pub(crate) struct Recorded<T> {
    inner: T,
    failure: Option<io::Error>,
}

impl<T> Recorded<T> {
    /// This reader or writer, with no failure yet.
    pub(crate) fn new(inner: T) -> Self
        ensures { result ≡ record { inner = inner; failure = None } }
    {
        Recorded {
            inner,
            failure: None,
        }
    }
}

impl<T: Drop> Recorded<T> {
    /// The reason for the last failure, if there is one.
    pub(crate) fn into_failure(self) -> Option<io::Error>
        ensures { result ≡ self.failure }
    {
        self.failure
    }
}

impl<R: Read> Read for Recorded<R> {
    ghost remaining = { λ recorded. R.remaining recorded.inner };

    fn read(&mut self, buf: &mut [u8]) -> io::Result<usize>
        ensures bound { ReadsAtMost result buf.new }
        ensures bytes { ReadConsumes (R.remaining self.old.inner) (R.remaining self.new.inner) result buf.new }
        ensures failed { IfErr result (λ error. self.new.failure ≡ Some error) }
        ensures read { OnOk result (self.new.failure ≡ self.old.failure) }
    {
        let result = self.inner.read(buf);
        if let Err(error) = &result {
            self.failure = Some(*error);
        }
        result
    }
}

impl<W: Write> Write for Recorded<W> {
    ghost contents = { λ recorded. W.contents recorded.inner };

    fn write(&mut self, buf: &[u8]) -> io::Result<usize>
        ensures bound { WritesAtMost result buf.now }
        ensures bytes { WriteAppends (W.contents self.old.inner) (W.contents self.new.inner) result buf.now }
        ensures failed { IfErr result (λ error. self.new.failure ≡ Some error) }
        ensures written { OnOk result (self.new.failure ≡ self.old.failure) }
    {
        let result = self.inner.write(buf);
        if let Err(error) = &result {
            self.failure = Some(*error);
        }
        result
    }

    fn flush(&mut self) -> io::Result<()>
        ensures bytes { Keeps (W.contents self.old.inner) (W.contents self.new.inner) }
        ensures failed { IfErr result (λ error. self.new.failure ≡ Some error) }
        ensures flushed { OnOk result (self.new.failure ≡ self.old.failure) }
    {
        let result = self.inner.flush();
        if let Err(error) = &result {
            self.failure = Some(*error);
        }
        result
    }
}
