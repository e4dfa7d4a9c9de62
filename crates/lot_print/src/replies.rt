//! The lines of turns.
ghost use Rattle.std.specs.Prelude.{◌≡◌, ◌<◌, ◌≤◌, ◌+◌, ◌++◌, codes, false, length};
ghost use Rattle.std.specs.Fmt.{decimal};
ghost use Rattle.lot_simulation.specs.Texts as texts;
ghost use Rattle.lot_simulation.specs.Texts.{delivered_text, drawn_text, drawn_value, ends_text, front, newline};
ghost use Rattle.lot_simulation.specs.Texts.{plain_text, received_text, refused, replied_text, trap_text, trap_text_of};
ghost use Rattle.lot_io.specs.Writing.{Puts};

use crate::line::Line;
use crate::page::Page;
use crate::refused::{
    push_refused, refusal_code, refusal_name, trap_refusal_code, trap_refusal_name,
};
use lot_io::{IoFault, Watched};
use lot_machine::{Action, Event, Outcome, Refusal, Reply};
use lot_simulation::LineStyle;
use std::io::Write;

/// The facts that a turn's line needs in addition to the reply.
#[derive(Clone, Copy, Debug)]
pub struct Heading {
    /// The style of the line.
    pub style: LineStyle,
    /// The base units in one unit of value: 1 or 256.
    pub unit: u32,
    /// The turn's actor.
    pub actor: u32,
}

/// Puts the line of an actor's turn on the page: the reply to this event, which requests no listing. It writes a full
/// page first, and fails with `Write` if the writer fails.
#[inline(always)]
pub fn write_reply<W: Write>(
    writer: &mut Watched<W>,
    page: &mut Page,
    heading: Heading,
    event: &Event,
    reply: &Reply,
) -> Result<(), IoFault>
    requires working { writer.old.failed ≡ false }
    requires unit { 0 < heading.unit }
    ensures { Puts W.contents writer.old writer.new page.old page.new result
        (front heading.style ++ (decimal heading.actor
        ++ (codes " " ++ plain_text heading.style heading.unit event.now reply.now))) }
{
    page.make_room(writer)?;
    push_turn(&mut page.lines, heading, event, reply);
    Ok(())
}

/// Puts the line of a console's turn without a command on the page. It writes a full page first, and fails with `Write`
/// if the writer fails.
pub fn write_ended<W: Write>(
    writer: &mut Watched<W>,
    page: &mut Page,
    heading: Heading,
) -> Result<(), IoFault>
    requires { writer.old.failed ≡ false }
    ensures { Puts W.contents writer.old writer.new page.old page.new result
        (front heading.style ++ (decimal heading.actor ++ (codes " " ++ (refused 41 (codes "Ended") ++ newline)))) }
{
    page.make_room(writer)?;
    push_ended(&mut page.lines, heading);
    Ok(())
}

/// Appends the line of an actor's turn.
#[inline(always)]
fn push_turn<const N: usize>(line: &mut Line<N>, heading: Heading, event: &Event, reply: &Reply)
    requires room { length line.old + 192 ≤ N }
    requires unit { 0 < heading.unit }
    ensures { line.new ≡ line.old ++ (front heading.style
        ++ (decimal heading.actor ++ (codes " " ++ plain_text heading.style heading.unit event.now reply.now))) }
{
    push_heading(line, heading);
    push_reply(line, heading, event, reply);
}

/// Appends the line of a console's turn without a command.
fn push_ended<const N: usize>(line: &mut Line<N>, heading: Heading)
    requires { length line.old + 192 ≤ N }
    ensures { line.new ≡ line.old ++ (front heading.style
        ++ (decimal heading.actor ++ (codes " " ++ (refused 41 (codes "Ended") ++ newline)))) }
{
    push_heading(line, heading);
    push_refused(line, 41, "Ended");
    line.push_text("\n");
}

/// Appends the start of a turn's line.
#[inline(always)]
fn push_heading<const N: usize>(line: &mut Line<N>, heading: Heading)
    requires { length line.old + 192 ≤ N }
    ensures text { line.new ≡ line.old ++ (front heading.style ++ (decimal heading.actor ++ codes " ")) }
    ensures len { length line.new ≤ length line.old + 22 }
{
    line.push_front(heading.style);
    line.push_count("", heading.actor);
    line.push_word(" ");
}

/// Appends the reply to the event, and the line's end.
///
/// Functions that the compiler never inlines append what few turns have: the compiler drops `inline(always)` from a
/// function that would grow very large.
#[inline(always)]
fn push_reply<const N: usize>(line: &mut Line<N>, heading: Heading, event: &Event, reply: &Reply)
    requires room { length line.old + 170 ≤ N }
    requires unit { 0 < heading.unit }
    ensures { line.new ≡ line.old ++ plain_text heading.style heading.unit event.now reply.now }
{
    match reply {
        Reply::Ticket(n) => push_made(line, "ticket ", *n),
        Reply::Currency(n) => push_made(line, "currency ", *n),
        Reply::Thread(n) => push_made(line, "thread ", *n),
        Reply::Funded { ticket, thread } => push_funded(line, *ticket, *thread),
        Reply::Done => push_done(line, event),
        Reply::Killed(_) => line.push_word("done\n"),
        Reply::List(_) => (),
        Reply::Winner {
            thread,
            number,
            total,
            delivered,
        } => push_winner(line, heading, *thread, (*number, *total), *delivered),
        Reply::Idle => line.push_word("idle\n"),
        Reply::Expired { thread, ticks } => {
            push_ran(line, *thread, *ticks);
            line.push_word(" expire\n");
        }
        Reply::Trapped {
            thread,
            ticks,
            outcome,
            ends,
        } => push_trapped(line, heading, event, (*thread, *ticks), outcome, *ends),
        Reply::Refused(why) => push_refusal(line, *why),
    }
}

/// Appends the done command or wake, and the line's end.
fn push_done<const N: usize>(line: &mut Line<N>, event: &Event)
    requires { length line.old + 170 ≤ N }
    ensures { line.new ≡ line.old ++ (texts.done_text event.now ++ newline) }
{
    match event {
        Event::Wake { thread } => push_made(line, "wake thread ", *thread),
        _ => line.push_word("done\n"),
    }
}

/// Appends the reason why the event was refused, and the line's end.
#[inline(never)]
fn push_refusal<const N: usize>(line: &mut Line<N>, why: Refusal)
    requires { length line.old + 170 ≤ N }
    ensures { line.new ≡ line.old ++ (refused (texts.refusal_code why) (texts.refusal_name why) ++ newline) }
{
    push_refused(line, refusal_code(why), refusal_name(why));
    line.push_text("\n");
}

/// Appends the word and the number of the new ticket, currency or thread, and the line's end.
#[inline(never)]
fn push_made<const N: usize>(line: &mut Line<N>, word: &str, number: u32)
    requires { (length line.old + 23 ≤ N) × (length word.now ≤ 12) }
    ensures { line.new ≡ line.old ++ (word.now ++ (decimal number ++ newline)) }
{
    line.push_text(word);
    line.push_count("", number);
    line.push_word("\n");
}

/// Appends the new ticket and the new thread, and the line's end.
#[inline(never)]
fn push_funded<const N: usize>(line: &mut Line<N>, ticket: u32, thread: u32)
    requires { length line.old + 170 ≤ N }
    ensures { line.new
        ≡ line.old ++ (codes "funded " ++ (decimal ticket ++ (codes " " ++ (decimal thread ++ newline)))) }
{
    line.push_count("funded ", ticket);
    push_made(line, " ", thread);
}

/// Appends the draw that this thread won, with this number and total, and the line's end.
#[inline(always)]
fn push_winner<const N: usize>(
    line: &mut Line<N>,
    heading: Heading,
    thread: u32,
    drawn: (u128, u128),
    delivered: Option<u32>,
)
    requires room { length line.old + 170 ≤ N }
    requires unit { 0 < heading.unit }
    ensures { line.new ≡ line.old ++ (codes "draw "
        ++ (drawn_value heading.style heading.unit drawn.0
        ++ (codes " of " ++ (drawn_value heading.style heading.unit drawn.1
        ++ (codes " thread " ++ (decimal thread ++ (delivered_text delivered ++ newline))))))) }
{
    let (number, total) = drawn;
    line.push_drawn("draw ", heading.style, heading.unit, number);
    line.push_drawn(" of ", heading.style, heading.unit, total);
    line.push_count(" thread ", thread);
    if let Some(number) = delivered {
        push_delivered(line, number);
    }
    line.push_word("\n");
}

/// Appends the number delivered to the winner.
#[inline(never)]
fn push_delivered<const N: usize>(line: &mut Line<N>, number: u32)
    requires { length line.old + 15 ≤ N }
    ensures text { line.new ≡ line.old ++ (codes " got " ++ decimal number) }
    ensures len { length line.new ≤ length line.old + 15 }
{
    line.push_count(" got ", number);
}

/// Appends the thread that ran, and its ticks.
#[inline(always)]
fn push_ran<const N: usize>(line: &mut Line<N>, thread: u32, ticks: u32)
    requires { length line.old + 170 ≤ N }
    ensures text { line.new ≡ line.old ++ (codes "thread " ++ (decimal thread ++ (codes " ticks " ++ decimal ticks))) }
    ensures len { length line.new ≤ length line.old + 34 }
{
    line.push_count("thread ", thread);
    line.push_count(" ticks ", ticks);
}

/// Appends the thread that ran, its ticks, and its trap.
#[inline(never)]
fn push_trapped<const N: usize>(
    line: &mut Line<N>,
    heading: Heading,
    event: &Event,
    ran: (u32, u32),
    outcome: &Outcome,
    ends: bool,
)
    requires room { length line.old + 170 ≤ N }
    requires unit { 0 < heading.unit }
    ensures { line.new ≡ line.old ++ (codes "thread " ++ (decimal ran.0 ++ (codes " ticks " ++ (decimal ran.1
        ++ (codes " " ++ (trap_text_of heading.style heading.unit event.now outcome.now
        ++ (ends_text ends ++ newline))))))) }
{
    let (thread, ticks) = ran;
    push_ran(line, thread, ticks);
    push_trap_of(line, heading.style, heading.unit, event, *outcome, ends);
}

/// Appends the outcome of a trap, the mark of a used-up quantum, and the line's end.
fn push_trap_of<const N: usize>(
    line: &mut Line<N>,
    style: LineStyle,
    unit: u32,
    event: &Event,
    outcome: Outcome,
    ends: bool,
)
    requires room { length line.old + 136 ≤ N }
    requires unit { 0 < unit }
    ensures { line.new ≡ line.old ++ (codes " "
        ++ (trap_text_of style unit event.now outcome ++ (ends_text ends ++ newline))) }
{
    line.push_word(" ");
    if let Event::Trap(_, _, action) = event {
        push_trap(line, style, unit, *action, outcome);
    }
    if ends {
        line.push_word(" ends\n");
    } else {
        line.push_word("\n");
    }
}

/// Appends the outcome of a trap; nothing for an outcome that the action never has.
fn push_trap<const N: usize>(
    line: &mut Line<N>,
    style: LineStyle,
    unit: u32,
    action: Action,
    outcome: Outcome,
)
    requires room { length line.old + 128 ≤ N }
    requires unit { 0 < unit }
    ensures text { line.new ≡ line.old ++ trap_text style unit action outcome }
    ensures len { length line.new ≤ length line.old + 128 }
{
    match (action, outcome) {
        (_, Outcome::Refused(why)) => {
            push_refused(line, trap_refusal_code(why), trap_refusal_name(why));
        }
        (Action::Yield, Outcome::Yielded) => line.push_word("yield"),
        (Action::Call(port, _), Outcome::ServedBy(server)) => {
            line.push_count("call ", port);
            line.push_count(" served by ", server);
        }
        (Action::Call(port, _), Outcome::Queued) => push_state(line, "call ", port, " queued"),
        (Action::Receive(port), Outcome::Received { client, number }) => {
            push_received(line, port, client, number);
        }
        (Action::Receive(port), Outcome::Waits) => push_state(line, "receive ", port, " waits"),
        (Action::Reply(_), Outcome::Replied(client)) => line.push_count("reply client ", client),
        (Action::Serve(port, _), Outcome::RepliedThenReceived { to, client, number }) => {
            push_replied_then(line, to);
            push_received(line, port, client, number);
        }
        (Action::Serve(port, _), Outcome::RepliedThenWaits(to)) => {
            push_replied_then(line, to);
            push_state(line, "receive ", port, " waits");
        }
        (Action::Lock(mutex), Outcome::Locked) => push_state(line, "lock ", mutex, " taken"),
        (Action::Lock(mutex), Outcome::Waits) => push_state(line, "lock ", mutex, " waits"),
        (Action::Unlock(mutex, _), Outcome::Freed) => push_state(line, "unlock ", mutex, " free"),
        (Action::Unlock(mutex, _), Outcome::Passed { to, draw }) => {
            line.push_count("unlock ", mutex);
            line.push_count(" to ", to);
            push_draw(line, style, unit, draw);
        }
        (Action::Sleep(_), Outcome::Slept) => line.push_word("sleep"),
        (Action::Exit, Outcome::Exited) => line.push_word("exit"),
        _ => (),
    }
}

/// Appends the port of a receive, the client whose call was taken, and the number that it sent.
fn push_received<const N: usize>(line: &mut Line<N>, port: u32, client: u32, number: u32)
    requires { length line.old + 51 ≤ N }
    ensures text { line.new ≡ line.old ++ received_text port client number }
    ensures len { length line.new ≤ length line.old + 51 }
{
    line.push_count("receive ", port);
    line.push_count(" client ", client);
    line.push_count(" got ", number);
}

/// Appends the client that got a reply, before the outcome of the receive.
fn push_replied_then<const N: usize>(line: &mut Line<N>, client: u32)
    requires { length line.old + 24 ≤ N }
    ensures text { line.new ≡ line.old ++ (replied_text client ++ codes " ") }
    ensures len { length line.new ≤ length line.old + 24 }
{
    line.push_count("reply client ", client);
    line.push_text(" ");
}

/// Appends the port or mutex of a trap, and the trap's outcome there.
#[inline(always)]
fn push_state<const N: usize>(line: &mut Line<N>, word: &str, number: u32, state: &str)
    requires { (length line.old + 25 ≤ N) × (length word.now ≤ 8) × (length state.now ≤ 7) }
    ensures text { line.new ≡ line.old ++ (word.now ++ (decimal number ++ state.now)) }
    ensures len { length line.new ≤ length line.old + 25 }
{
    line.push_count(word, number);
    line.push_text(state);
}

/// Appends the choice of the mutex's new owner: by a lottery, or the one that had waited longest.
fn push_draw<const N: usize>(
    line: &mut Line<N>,
    style: LineStyle,
    unit: u32,
    drawn: Option<(u64, u64)>,
)
    requires room { length line.old + 96 ≤ N }
    requires unit { 0 < unit }
    ensures text { line.new ≡ line.old ++ drawn_text style unit drawn }
    ensures len { length line.new ≤ length line.old + 96 }
{
    match drawn {
        None => line.push_text(" oldest"),
        Some((number, total)) => {
            line.push_drawn(" draw ", style, unit, u128::from(number));
            line.push_drawn(" of ", style, unit, u128::from(total));
        }
    }
}
