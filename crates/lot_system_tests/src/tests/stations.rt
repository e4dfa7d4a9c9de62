//! Stations whose seats take turns one after another and on threads, and workers at gates; the texts of faults, and
//! runs in which an allocation fails.

ghost use Rattle.std.specs.Prelude.{◌≡◌, false};

mod baton;
mod full;
mod gates;
mod many;
mod outdated;
mod racing;
mod refusing;
mod replaying;
mod runs;
mod scene;
mod seats;
mod session;
mod slicing;
mod texts;
mod turnstile;

use crate::tests::same::check_same;
use lot_engine::System;
use lot_machine::Reply;
use lot_program::Program;
use lot_system::write_end;
use lot_text::{Watched, parse};
use seats::Shares;
use std::alloc::Global;
use std::process::Abort;

/// Two processors with two turns each, and one thread.
const TWO_PROCESSORS: &str =
    "lottery 1\nprocessors 2\nturns 2\nscript spin\ncompute 150\nendscript\nfundx 10 base a spin\n";

// The replies to turns of the actors 0, 1, 2, 1 and 2 in a system of it.

const FUNDED: Option<Reply> = Some(Reply::Funded {
    ticket: 1,
    thread: 1,
});

const FIRST_DRAW: Option<Reply> = Some(Reply::Winner {
    thread: 1,
    number: 4,
    total: 10,
    delivered: None,
});

const IDLE: Option<Reply> = Some(Reply::Idle);

const EXPIRED: Option<Reply> = Some(Reply::Expired {
    thread: 1,
    ticks: 100,
});

const SECOND_DRAW: Option<Reply> = Some(Reply::Winner {
    thread: 1,
    number: 3,
    total: 10,
    delivered: None,
});

/// The output after these turns.
const END: &str = "report
thread 1 a quanta 2 ticks 100
processor 1 quanta 1 idle 0 ticks 100
processor 2 quanta 1 idle 1 ticks 0
total turns 5 quanta 2 ticks 100
schedule 0 1 2 1 2
";

/// The seats' shares after these turns.
static ENDED: [Shares; 3] = [(1, 0, 0), (2, 1, 100), (2, 1, 0)];

fn parsed(rt: &impl Abort, alloc: Global, input: &str) -> Program {
    parse(alloc, input.as_bytes()).expect(rt, "a program")
}

/// A system of the program with room for this many turns.
fn opened(rt: &impl Abort, alloc: Global, program: &Program, room: u32) -> System
    ensures { result.setting.timer ≡ false }
{
    System::open(alloc, program, room).expect(rt, "memory for a system")
}

/// The report and the history.
fn end_of(rt: &impl Abort, alloc: Global, mut system: System) -> Vec<u8> {
    let mut writer = Watched::new(Vec::new(alloc));
    write_end(&mut system, &mut writer).expect(rt, "memory for the end");
    writer.into_inner()
}

/// Compares the report and the history with those after these turns.
fn check_end(rt: &impl Abort, alloc: Global, system: System) {
    let end = end_of(rt, alloc, system);
    check_same(rt, &end.as_slice(), &END.as_bytes());
}
