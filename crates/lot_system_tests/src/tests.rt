//! Systems: turns and their results, reports, histories, the texts of faults, and runs in which an allocation fails.

ghost use Rattle.std.specs.Prelude.{◌≡◌};

mod faults;
mod memory;
mod moves;
mod named;
mod reports;
mod same;
mod shown;
mod sizes;
mod stations;
mod timed;
mod turns;

use lot_program::Program;
use lot_system::System;
use lot_text::parse;
use moves::make_turn;
use same::check_same;
use std::alloc::Global;
use std::process::Abort;

/// One thread that computes.
const SPINNER: &str = "lottery 1\nscript s\ncompute 150\nendscript\nfundx 1 base a s\n";

/// A client calls a server with 41, and the reply is 42.
const CALL_AND_REPLY: &str =
    "lottery 1\nquantum 10\nport p\nscript srv\nreceive p\nadd 1\nreply\nendscript\n\
    script cli\nset 41\ncall p\ncompute 2\nendscript\nfundx 5 base s srv\nfundx 5 base c cli\n\
    schedule 0 0 1 1 1 1 1 1 1 1 1 1\n";

fn parsed(rt: &impl Abort, alloc: Global, input: &str) -> Program {
    parse(alloc, input.as_bytes()).expect(rt, "a program")
}

/// A system of the program with room for this many turns.
fn opened(rt: &impl Abort, alloc: Global, program: &Program, room: u32) -> System
    ensures { result.setting.program ≡ program.now }
{
    System::open(alloc, program, room).expect(rt, "memory for a system")
}

/// A turn of each of these actors, in order.
fn make_turns(rt: &impl Abort, system: &mut System, program: &Program, actors: &[u8])
    ensures { system.new.setting ≡ system.old.setting }
{
    for actor in actors {
        let actor = u32::from(*actor);
        if actor > system.processors() {
            rt.panic("an actor")
        }
        if make_turn(system, program, actor).is_err() {
            rt.panic("a turn")
        }
    }
}

/// Compares the history.
fn check_history(rt: &impl Abort, system: &System, wanted: &[u8]) {
    check_same(rt, &system.history(), &wanted);
}
