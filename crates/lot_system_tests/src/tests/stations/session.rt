//! Turns by seats, one after another.
ghost use Rattle.std.specs.Prelude.{◌≡◌, false};

use crate::tests::stations::scene::{Scene, played_in};
use crate::tests::stations::seats::{Shares, answer_of, shares_of};
use crate::tests::stations::{
    ENDED, EXPIRED, FIRST_DRAW, FUNDED, IDLE, SECOND_DRAW, TWO_PROCESSORS, check_end, opened,
    parsed,
};
use lot_engine::System;
use lot_machine::Reply;
use lot_program::Program;
use lot_station::{Seat, Station, TurnLedger};
use lot_text::parse;
use std::alloc::{AllocError, Global};
use std::process::Abort;
use std::sync::Wait;
use std::sync::ledger::Ledger;
use std::test::*;

/// The observations of a session: each seat's shares at its beginning and at its end, and each turn's reply, or
/// `None` for a fault.
#[derive(Drop)]
struct Session {
    begun: Vec<Shares>,
    replies: Vec<Option<Reply>>,
    ended: Vec<Shares>,
}

/// Each seat's shares.
fn all_shares<T: TurnLedger, Q: Ledger, K: Ledger>(
    alloc: Global,
    seats: &[Seat<T, Q, K>],
) -> Result<Vec<Shares>, AllocError> {
    let mut shares = Vec::new(alloc);
    for seat in seats {
        shares.push(shares_of(seat))?;
    }
    Ok(shares)
}

/// A turn of the seat with this number, with the slice of its work.
fn reply_to<T: TurnLedger, Q: Ledger, K: Ledger>(
    rt: &impl Wait,
    program: &Program,
    station: &Station<T, Q, K>,
    seats: &mut [Seat<T, Q, K>],
    number: usize,
) -> Option<Reply> {
    let answer = answer_of(rt, program, station, seats.get_mut(number)?)?;
    Some(answer.reply)
}

/// The actors of a session's turns.
#[derive(Drop)]
struct Actors<'a>(&'a [usize]);

impl<'a> Scene for Actors<'a> {
    type Seen = Result<Session, AllocError>;

    fn play<T: TurnLedger, Q: Ledger, K: Ledger, R: Wait + Abort>(
        &self,
        rt: &R,
        alloc: Global,
        program: &Program,
        station: &Station<T, Q, K>,
        seats: &mut Vec<Seat<T, Q, K>>,
    ) -> Result<Session, AllocError> {
        let begun = all_shares(alloc, seats)?;
        let mut replies = Vec::new(alloc);
        for actor in self.0 {
            replies.push(reply_to(rt, program, station, seats, *actor))?;
        }
        let ended = all_shares(alloc, seats)?;
        Ok(Session {
            begun,
            replies,
            ended,
        })
    }
}

/// Whether the session had these: each seat's shares, the replies, and each seat's shares at the end.
fn was(
    session: &Result<Session, AllocError>,
    begun: &[Shares],
    replies: &[Option<Reply>],
    ended: &[Shares],
) -> bool {
    match session {
        Ok(session) => {
            session.begun.as_slice() == begun
                && session.replies.as_slice() == replies
                && session.ended.as_slice() == ended
        }
        Err(AllocError) => false,
    }
}

/// Checks that the session began with these shares, got these replies, and ended with all turns.
fn check_session(
    rt: &impl Abort,
    session: &Result<Session, AllocError>,
    begun: &[Shares],
    replies: &[Option<Reply>],
) {
    assert!(rt; was(session, begun, replies, &ENDED));
}

/// The replies to turns of the actors 0, 1, 2, 1, 2 and 0.
const REPLIES: &[Option<Reply>] = &[FUNDED, FIRST_DRAW, IDLE, EXPIRED, SECOND_DRAW, None];

/// The last two of these.
const LAST_REPLIES: &[Option<Reply>] = &[SECOND_DRAW, None];

/// The shares before all turns.
static NONE: [Shares; 3] = [(0, 0, 0); 3];

/// Plays all turns of the program, and checks the session and the end.
fn check_played<R: Wait + Abort>(rt: &R, alloc: Global, program: &Program) {
    let system = opened(rt, alloc, program, 6);
    let actors = Actors(&[0, 1, 2, 1, 2, 0]);
    let (session, closed) = played_in(rt, alloc, program, system, &actors).expect(rt, "memory");
    check_session(rt, &session, &NONE, REPLIES);
    check_end(rt, alloc, closed)
}

// A seat's draw sees the thread that another seat's command made.
#[test]
fn write_then_read(rt: HostRuntime) {
    let alloc = rt.alloc();
    let program = parsed(&rt, alloc, TWO_PROCESSORS);
    check_played(&rt, alloc, &program)
}

/// The shares after turns of the actors 0, 1, 2 and 1.
static BETWEEN: [Shares; 3] = [(1, 0, 0), (2, 1, 100), (1, 0, 0)];

/// A system of the program, closed after turns of the actors 0, 1, 2 and 1.
fn closed<R: Wait + Abort>(rt: &R, alloc: Global, program: &Program) -> System
    ensures { result.setting.timer ≡ false }
{
    let system = opened(rt, alloc, program, 6);
    let actors = Actors(&[0, 1, 2, 1]);
    let (_, closed) = played_in(rt, alloc, program, system, &actors).expect(rt, "memory");
    closed
}

/// The session of turns of the actors 2 and 0 in the system.
fn last_session<R: Wait + Abort>(
    rt: &R,
    alloc: Global,
    program: &Program,
    system: System,
) -> Result<Session, AllocError>
    requires { system.setting.timer ≡ false }
{
    let actors = Actors(&[2, 0]);
    let (session, _) = played_in(rt, alloc, program, system, &actors).expect(rt, "memory");
    session
}

// A closed system can be opened again, and its seats begin with the counts of its history.
#[test]
fn opens_again(rt: HostRuntime) {
    let alloc = rt.alloc();
    let program = parsed(&rt, alloc, TWO_PROCESSORS);
    let system = closed(&rt, alloc, &program);
    let session = last_session(&rt, alloc, &program, system);
    check_session(&rt, &session, &BETWEEN, LAST_REPLIES)
}

/// Opens a station of the program and closes it, or lacks memory for it.
fn open_or_lack_memory<R: Wait + Abort>(rt: &R, alloc: Global, program: &Program) {
    if let Ok(system) = System::open(alloc, program, 6) {
        let played = played_in(rt, alloc, program, system, &Actors(&[]));
        assert!(rt; matches!(&played, Ok(_) | Err(AllocError)));
    }
}

// For runs in which one allocation fails: the station opens and closes, or `open` lacks memory.
#[test]
fn opens_or_lacks_memory(rt: HostRuntime) {
    let alloc = rt.alloc();
    if let Ok(program) = parse(alloc, TWO_PROCESSORS.as_bytes()) {
        open_or_lack_memory(&rt, alloc, &program)
    }
}
