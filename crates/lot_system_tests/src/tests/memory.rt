//! Tests for runs in which one allocation fails, each in turn.

use super::same::check_same;
use super::{CALL_AND_REPLY, check_history, make_turns};
use lot_program::Program;
use lot_system::{PlayFault, Played, System, play};
use lot_text::{Watched, parse};
use std::alloc::Global;
use std::io;
use std::io::Write;
use std::test::Fail;

/// A writer that counts the bytes that it accepts, and allocates nothing.
#[derive(Drop)]
struct Counting {
    taken: usize,
}

impl Write for Counting {
    fn write(&mut self, buf: &[u8]) -> io::Result<usize> {
        self.taken = self.taken.saturating_add(buf.len());
        Ok(buf.len())
    }

    fn flush(&mut self) -> io::Result<()> {
        Ok(())
    }
}

// If an allocation fails, nothing was written.
#[test]
fn plays_or_lacks_memory(rt: HostRuntime) {
    let mut reader = Watched::new(CALL_AND_REPLY.as_bytes());
    let mut writer = Watched::new(Counting { taken: 0 });
    let ended = play(rt.alloc(), &mut reader, &mut writer);
    let Counting { taken } = writer.into_inner();
    match ended {
        Ok(Played::Done) => check_same(&rt, &taken, &429),
        Err(PlayFault::Memory) => check_same(&rt, &taken, &0),
        other => assert!(rt; false, "{other:?}"),
    }
}

fn opened(alloc: Global) -> Result<(Program, System), Fail> {
    let Ok(program) = parse(alloc, CALL_AND_REPLY.as_bytes()) else {
        return Err("a program".into());
    };
    let system = System::open(alloc, &program, 12)?;
    Ok((program, system))
}

// This fails in the runs that refuse an allocation of it, and the next fails in no others, since no turn allocates.
#[test]
fn opens(rt: HostRuntime) -> Result<(), Fail> {
    let (_, system) = opened(rt.alloc())?;
    check_history(&rt, &system, &[]);
    Ok(())
}

#[test]
fn opens_and_has_turns(rt: HostRuntime) -> Result<(), Fail> {
    let (program, mut system) = opened(rt.alloc())?;
    make_turns(&rt, &mut system, &program, program.schedule());
    check_history(&rt, &system, program.schedule());
    Ok(())
}
