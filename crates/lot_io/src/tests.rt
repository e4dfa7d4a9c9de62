//! Tests of promises outside contracts: the number of calls that reach a watched reader or writer, and reading an
//! input.
ghost use Rattle.std.specs.Prelude.{◌≤◌, IfOk};

use crate::{Watched, read_input};
use std::alloc::Global;
use std::io;
use std::io::{Error, ErrorKind, Read, Write};
use std::process::Abort;
use std::test::Fail;

/// A reader and writer of single bytes, whose k-th call fails: with an error of this kind, or by accepting nothing.
#[derive(Drop)]
struct Failing {
    calls: u32,
    fails_at: u32,
    kind: Option<ErrorKind>,
}

impl Failing {
    /// Counts one more call.
    fn call(&mut self) -> io::Result<usize>
        ensures { IfOk result (λ n. n ≤ 1) }
    {
        self.calls = self.calls.saturating_add(1);
        if self.calls != self.fails_at {
            return Ok(1);
        }
        match self.kind {
            Some(kind) => Err(Error::new(kind, "as asked")),
            None => Ok(0),
        }
    }
}

impl Read for Failing {
    fn read(&mut self, buf: &mut [u8]) -> io::Result<usize> {
        let count = self.call()?;
        Ok(count.min(buf.len()))
    }
}

impl Write for Failing {
    fn write(&mut self, buf: &[u8]) -> io::Result<usize> {
        let count = self.call()?;
        Ok(count.min(buf.len()))
    }

    fn flush(&mut self) -> io::Result<()> {
        self.call()?;
        Ok(())
    }
}

/// A watched reader or writer whose k-th call fails in this way.
fn make_failing(kind: Option<ErrorKind>, fails_at: u32) -> Watched<Failing> {
    Watched::new(Failing {
        calls: 0,
        fails_at,
        kind,
    })
}

/// The number of calls that have reached the reader or writer.
fn calls_of(watched: Watched<Failing>) -> u32 {
    let Failing { calls, .. } = watched.into_inner();
    calls
}

fn check_write_all(rt: &impl Abort, writer: &mut Watched<Failing>, fails: bool) {
    assert_eq!(rt; writer.write_all(b"abc").is_err(), fails);
    assert_eq!(rt; writer.failed(), fails);
}

fn check_flush(rt: &impl Abort, writer: &mut Watched<Failing>, fails: bool) {
    assert_eq!(rt; writer.flush().is_err(), fails);
}

fn check_write(rt: &impl Abort, writer: &mut Watched<Failing>) {
    assert_eq!(rt; writer.write(b"d").is_err(), writer.failed());
}

/// The number of calls that reach a writer, of five calls, the first three of which write, if this one fails.
fn calls_reaching(kind: Option<ErrorKind>, fails_at: u32) -> u32 {
    if fails_at <= 3 {
        fails_at
    } else if kind.is_some() {
        4
    } else {
        5
    }
}

/// Writes three bytes, flushes, and writes one more.
fn check_writes(rt: &impl Abort, kind: Option<ErrorKind>, fails_at: u32) {
    let mut writer = make_failing(kind, fails_at);
    check_write_all(rt, &mut writer, fails_at <= 3);
    check_flush(rt, &mut writer, fails_at <= 3 || kind.is_some());
    check_write(rt, &mut writer);
    assert_eq!(rt; calls_of(writer), calls_reaching(kind, fails_at));
}

fn check_kind_of_write(rt: &impl Abort, kind: Option<ErrorKind>) {
    for fails_at in 1..5 {
        check_writes(rt, kind, fails_at);
    }
}

#[test]
fn keeps_failures(rt: HostRuntime) {
    for kind in [Some(ErrorKind::Other), Some(ErrorKind::Interrupted), None] {
        check_kind_of_write(&rt, kind);
    }
}

/// A writer that records whether all its bytes were flushed, and whose flushes fail.
#[derive(Drop)]
struct Flushing {
    is_flushed: bool,
    fails: bool,
}

impl Write for Flushing {
    fn write(&mut self, buf: &[u8]) -> io::Result<usize> {
        self.is_flushed = false;
        Ok(buf.len())
    }

    fn flush(&mut self) -> io::Result<()> {
        if self.fails {
            return Err(Error::new(ErrorKind::Other, "as asked"));
        }
        self.is_flushed = true;
        Ok(())
    }
}

/// Makes the writer accept two bytes, which are then not flushed.
fn check_taken(rt: &impl Abort, writer: &mut Watched<Flushing>) {
    assert!(rt; writer.flushed());
    assert_eq!(rt; writer.write(b"ab").ok(), Some(2));
    assert!(rt; !writer.flushed());
}

/// Flushes the writer, which fails or flushes all.
fn check_flushed(rt: &impl Abort, writer: &mut Watched<Flushing>, fails: bool) {
    assert_eq!(rt; writer.flush().is_err(), fails);
    assert_eq!(rt; writer.flushed(), !fails);
}

/// Whether the flush reached the writer.
fn is_flushed(writer: Watched<Flushing>) -> bool {
    let Flushing { is_flushed, .. } = writer.into_inner();
    is_flushed
}

// No clause can tell whether a flush reaches the writer.
#[test]
fn hands_flushes_on(rt: HostRuntime) {
    for fails in [false, true] {
        let mut writer = Watched::new(Flushing {
            is_flushed: true,
            fails,
        });
        check_taken(&rt, &mut writer);
        check_flushed(&rt, &mut writer, fails);
        assert_eq!(rt; is_flushed(writer), !fails);
    }
}

fn check_read(rt: &impl Abort, alloc: Global, reader: &mut Watched<Failing>) {
    let mut bytes = Vec::new(alloc);
    assert!(rt; reader.read_to_end(&mut bytes).is_err());
    assert!(rt; reader.failed());
}

fn check_kind_of_read(rt: &impl Abort, alloc: Global, kind: ErrorKind) {
    for fails_at in 1..4 {
        let mut reader = make_failing(Some(kind), fails_at);
        check_read(rt, alloc, &mut reader);
        assert_eq!(rt; calls_of(reader), fails_at);
    }
}

#[test]
fn keeps_failed_reads(rt: HostRuntime) {
    for kind in [ErrorKind::Other, ErrorKind::Interrupted] {
        check_kind_of_read(&rt, rt.alloc(), kind);
    }
}

/// A call of a watched reader or writer.
#[derive(Clone, Copy, Debug)]
enum Call {
    /// A read of this many bytes, at most 4.
    Read(usize),
    Write(&'static [u8]),
    WriteAll(&'static [u8]),
    Flush,
}

/// The number of times that a call reaches a reader or writer of single bytes, and whether it fails if no byte is
/// accepted.
#[derive(Clone, Copy)]
struct Reaching {
    call: Call,
    times: u32,
    needs_bytes: bool,
}

const REACHING: [Reaching; 7] = [
    Reaching {
        call: Call::Read(4),
        times: 1,
        needs_bytes: false,
    },
    Reaching {
        call: Call::Read(0),
        times: 1,
        needs_bytes: false,
    },
    Reaching {
        call: Call::Write(b"ab"),
        times: 1,
        needs_bytes: true,
    },
    Reaching {
        call: Call::Write(b""),
        times: 1,
        needs_bytes: false,
    },
    Reaching {
        call: Call::WriteAll(b"abc"),
        times: 3,
        needs_bytes: true,
    },
    Reaching {
        call: Call::WriteAll(b""),
        times: 0,
        needs_bytes: false,
    },
    Reaching {
        call: Call::Flush,
        times: 1,
        needs_bytes: false,
    },
];

/// Makes the call, and returns whether it fails.
fn make(watched: &mut Watched<Failing>, call: Call) -> bool {
    let mut room = [0; 4];
    match call {
        Call::Read(count) => watched.read(&mut room[..count.min(4)]).is_err(),
        Call::Write(bytes) => watched.write(bytes).is_err(),
        Call::WriteAll(bytes) => watched.write_all(bytes).is_err(),
        Call::Flush => watched.flush().is_err(),
    }
}

/// Makes this many such calls of a reader or writer that fails in this way, and compares the number that reached it.
fn check_reaching(
    rt: &impl Abort,
    row: Reaching,
    made: u32,
    (kind, fails_at): (Option<ErrorKind>, u32),
) {
    let mut watched = make_failing(kind, fails_at);
    for _ in 0..made {
        make(&mut watched, row.call);
    }
    let without_failure = row.times.saturating_mul(made);
    let wanted = if kind.is_some() || row.needs_bytes {
        without_failure.min(fails_at)
    } else {
        without_failure
    };
    assert_eq!(rt; calls_of(watched), wanted, "{:?} {made} times", row.call);
}

fn check_failing(rt: &impl Abort, failure: (Option<ErrorKind>, u32)) {
    for row in REACHING {
        for made in 0..6 {
            check_reaching(rt, row, made, failure);
        }
    }
}

// Each call reaches the reader or writer once, and `write_all` once for each byte, up to the first failure: the wrapper
// retries nothing.
#[test]
fn calls_that_reach(rt: HostRuntime) {
    for kind in [Some(ErrorKind::Other), Some(ErrorKind::Interrupted), None] {
        for fails_at in 1..5 {
            check_failing(&rt, (kind, fails_at));
        }
    }
}

// No clause guarantees enough memory for it.
#[test]
fn reads_an_input(rt: HostRuntime) -> Result<(), Fail> {
    let mut reader = Watched::new("lottery 1\n".as_bytes());
    let input = read_input(rt.alloc(), &mut reader)?;
    assert_eq!(rt; input.as_slice(), "lottery 1\n".as_bytes());
    Ok(())
}
