//! Reports with their histories, and the counts of numbers.

use super::same::{check_same, check_same_at};
use super::{SPINNER, make_turns, opened, parsed};
use lot_kernel::Kernel;
use lot_machine::{Command, CurrencyRef, Event, Limits, Name, Reply, Sizes};
use lot_system::{PlayFault, System, write_end};
use lot_text::Watched;
use std::alloc::Global;
use std::io;
use std::io::{ErrorKind, Write};
use std::process::Abort;
use std::test::*;

/// A writer that records the bytes that it accepts and whether all of them were flushed. Its call of this number fails:
/// with an error of this kind, or by accepting nothing.
#[derive(Drop)]
struct Failing {
    written: Vec<u8>,
    is_flushed: bool,
    calls: u32,
    fails_at: u32,
    kind: Option<ErrorKind>,
}

impl Failing {
    /// Counts one more call, and fails if it is the one.
    fn call(&mut self) -> io::Result<()> {
        self.calls = self.calls.saturating_add(1);
        match self.kind {
            Some(kind) if self.calls == self.fails_at => Err(io::Error::from(kind)),
            _ => Ok(()),
        }
    }
}

impl Write for Failing {
    fn write(&mut self, buf: &[u8]) -> io::Result<usize> {
        self.call()?;
        if self.calls == self.fails_at {
            return Ok(0);
        }
        self.is_flushed = false;
        self.written.write(buf)
    }

    fn flush(&mut self) -> io::Result<()> {
        self.call()?;
        self.is_flushed = true;
        Ok(())
    }
}

/// Ends a system to a writer whose call of this number fails. Returns whether the writer failed; then it got no further
/// call, and accepted a beginning of the text.
fn ending_fails(
    rt: &impl Abort,
    alloc: Global,
    system: &mut System,
    text: &str,
    fails_at: u32,
    kind: Option<ErrorKind>,
) -> bool {
    let mut writer = Watched::new(Failing {
        written: Vec::new(alloc),
        is_flushed: false,
        calls: 0,
        fails_at,
        kind,
    });
    let ended = write_end(system, &mut writer);
    let has_failed = writer.failed();
    let came = writer.into_inner();
    if has_failed {
        check_failed(rt, ended, &came, text);
    } else {
        check_written(rt, ended, &came, text);
    }
    has_failed
}

/// Checks that the writer's failure was its last call, and that it accepted a beginning of the text.
fn check_failed(rt: &impl Abort, ended: Result<(), PlayFault>, writer: &Failing, text: &str) {
    let fails_at = writer.fails_at;
    check_same(
        rt,
        &(ended, writer.calls),
        &(Err(PlayFault::Write), fails_at),
    );
    let is_beginning = text.as_bytes().starts_with(writer.written.as_slice());
    check_same_at(rt, &fails_at, &is_beginning, &true);
}

/// Checks that the writer accepted the text, and that all of it was flushed.
fn check_written(rt: &impl Abort, ended: Result<(), PlayFault>, writer: &Failing, text: &str) {
    check_same(rt, &(ended, writer.is_flushed), &(Ok(()), true));
    let is_text = text.as_bytes() == writer.written.as_slice();
    check_same_at(rt, &writer.fails_at, &is_text, &true);
}

/// Ends a system to writers that fail at each of its calls, and at none.
fn check_ends(rt: &impl Abort, alloc: Global, system: &mut System, text: &str) {
    for kind in KINDS {
        let unmade = first_unmade_call(rt, alloc, system, text, *kind);
        assert!(rt; 3 < unmade, "{unmade}");
    }
}

/// The kinds of failures.
const KINDS: &[Option<ErrorKind>] = &[Some(ErrorKind::Other), Some(ErrorKind::Interrupted), None];

/// Ends a system of the input after these actors' turns, to a writer that fails at each of its calls, and at none.
fn check_end(rt: &impl Abort, alloc: Global, (input, actors): (&str, &[u8]), text: &str) {
    let program = parsed(rt, alloc, input);
    let mut system = opened(rt, alloc, &program, 3);
    make_turns(rt, &mut system, &program, actors);
    check_ends(rt, alloc, &mut system, text)
}

/// The number of the first call that can't fail so: there are fewer calls, or it is a flush, which accepts no bytes.
fn first_unmade_call(
    rt: &impl Abort,
    alloc: Global,
    system: &mut System,
    text: &str,
    kind: Option<ErrorKind>,
) -> u32 {
    for call in 1..1000 {
        if !ending_fails(rt, alloc, system, text, call, kind) {
            return call;
        }
    }
    0
}

const SPINNER_END: &str = "report
thread 1 a quanta 1 ticks 100
processor 1 quanta 1 idle 0 ticks 100
total turns 3 quanta 1 ticks 100
schedule 0 1 1
";

const IDLE_END: &str = "report
processor 1 quanta 0 idle 3 ticks 0
total turns 3 quanta 0 ticks 0
schedule 1 1 1
";

#[test]
fn ends(rt: HostRuntime) {
    let alloc = rt.alloc();
    check_end(&rt, alloc, (SPINNER, &[0, 1, 1]), SPINNER_END);
    check_end(&rt, alloc, ("lottery 1\n", &[1, 1, 1]), IDLE_END)
}

const IDLE_RUNS: &str = "report
processor 1 quanta 0 idle 3 ticks 0
total turns 3 quanta 0 ticks 0
runs 1 3
";

const NO_RUNS: &str = "report
processor 1 quanta 0 idle 0 ticks 0
total turns 0 quanta 0 ticks 0
";

#[test]
fn ends_with_runs(rt: HostRuntime) {
    let alloc = rt.alloc();
    check_end(&rt, alloc, ("lottery 2\n", &[1, 1, 1]), IDLE_RUNS);
    check_end(&rt, alloc, ("lottery 2\n", &[]), NO_RUNS)
}

/// Compares the counts of tickets and currencies.
fn check_counts(rt: &impl Abort, kernel: &Kernel, counts: (u32, u32)) {
    let found = (kernel.ticket_count(), kernel.currency_count());
    check_same(rt, &found, &counts);
}

/// Makes a command, and compares the reply.
fn check_command(rt: &impl Abort, kernel: &mut Kernel, command: Command, reply: Reply) {
    check_same(rt, &kernel.event(&Event::Command(command)), &reply);
}

/// Makes a ticket and a currency, and removes the ticket.
fn make_and_remove(rt: &impl Abort, kernel: &mut Kernel) {
    let currency = CurrencyRef::Named(Name::new("base").expect(rt, "a name"));
    let name = Name::new("a").expect(rt, "a name");
    let amount = 5;
    let made = Command::MakeTicket { amount, currency };
    check_command(rt, kernel, made, Reply::Ticket(1));
    check_command(
        rt,
        kernel,
        Command::MakeCurrency { name },
        Reply::Currency(1),
    );
    check_command(rt, kernel, Command::RemoveTicket { ticket: 1 }, Reply::Done);
}

// The kernel never reuses numbers: a removed one stays used.
#[test]
fn numbers_given(rt: HostRuntime) {
    let sizes = Sizes {
        tickets: 9,
        currencies: 9,
        threads: 9,
        quantum: 100,
        ..Sizes::SMALLEST
    };
    let limits = Limits::new(sizes).expect(&rt, "limits");
    let mut kernel = Kernel::new(rt.alloc(), limits).expect(&rt, "memory");
    check_counts(&rt, &kernel, (0, 1));
    make_and_remove(&rt, &mut kernel);
    check_counts(&rt, &kernel, (1, 2))
}
