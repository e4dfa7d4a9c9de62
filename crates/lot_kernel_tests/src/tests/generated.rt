//! Events of all kinds from a fixed generator, over the largest tables. After many listings a kernel shows the same
//! rows as a kernel that got all events at once.
ghost use Rattle.std.specs.Prelude.{◌≡◌};
ghost use Rattle.lot_simulation.specs.World as world;

use super::same::check_same;
use crate::OneOfEach;
use lot_draw::ParkMiller;
use lot_kernel::{
    Action, Command, CurrencyNumber, Event, Kernel, Limits, Meter, Name, Sizes, ThreadNumber,
    TicketNumber,
};
use lot_machine::{CurrencyRef, TargetRef, ThreadRef, Verb, command_of};
use lot_simulation::BodyWord;
use std::alloc::Global;
use std::process::Abort;

/// The number of events between two comparisons.
const PART: u32 = 1000;

/// The number of comparisons.
const PARTS: u32 = 100;

/// Whether an event may read values: one that takes a drawn number, a draw or an unlock.
fn may_read(event: &Event) -> bool
    ensures { result ≡ world.takes_number event.now }
{
    matches!(
        event,
        Event::Draw(..) | Event::Trap(_, _, Action::Unlock(..))
    )
}

/// The generator of the events, always with the same seed.
fn generator(rt: &impl Abort) -> ParkMiller {
    ParkMiller::new(1).expect(rt, "a seed")
}

fn new_kernel(rt: &impl Abort, alloc: Global) -> Kernel {
    let limits = Limits::new(Sizes::LARGEST).expect(rt, "limits");
    Kernel::new(alloc, limits).expect(rt, "memory")
}

/// The name of a letter and a number.
fn numbered(rt: &impl Abort, alloc: Global, letter: char, number: u32) -> Name {
    let text = format!(in alloc; "{letter}{number}").expect(rt, "memory");
    Name::new(text.as_str()).expect(rt, "a name")
}

/// The name of a currency, or base.
fn currency_name(rt: &impl Abort, alloc: Global, numbers: &mut ParkMiller) -> Name {
    match numbers.next() % 64 {
        0 => Name::new("base").expect(rt, "a name"),
        number => numbered(rt, alloc, 'c', number),
    }
}

fn thread_name(rt: &impl Abort, alloc: Global, numbers: &mut ParkMiller) -> Name {
    numbered(rt, alloc, 't', numbers.next() % 4096)
}

/// A currency by its name or its number, or base.
fn currency_ref(rt: &impl Abort, alloc: Global, numbers: &mut ParkMiller) -> CurrencyRef {
    if numbers.next() % 2 == 0 {
        return CurrencyRef::Named(currency_name(rt, alloc, numbers));
    }
    CurrencyRef::Numbered(numbers.next() % 128)
}

/// A thread by its name or its number.
fn thread_ref(rt: &impl Abort, alloc: Global, numbers: &mut ParkMiller) -> ThreadRef {
    if numbers.next() % 2 == 0 {
        return ThreadRef::Named(thread_name(rt, alloc, numbers));
    }
    ThreadRef::Numbered(numbers.next() % 4098)
}

/// A currency or a thread by its name or its number.
fn target_ref(rt: &impl Abort, alloc: Global, numbers: &mut ParkMiller) -> TargetRef {
    match numbers.next() % 4 {
        0 => TargetRef::Named(currency_name(rt, alloc, numbers)),
        1 => TargetRef::Named(thread_name(rt, alloc, numbers)),
        2 => TargetRef::Currency(numbers.next() % 128),
        _ => TargetRef::Thread(numbers.next() % 4098),
    }
}

/// An amount for a ticket, sometimes the largest, or one that no ticket can have.
fn next_amount(numbers: &mut ParkMiller) -> u64 {
    match numbers.next() % 64 {
        0 => 0,
        1 => 4294967296,
        2 => 4294967295,
        _ => u64::from(numbers.next() % 1000) + 1,
    }
}

/// The name of a new currency or thread.
fn new_name(rt: &impl Abort, alloc: Global, verb: Verb, numbers: &mut ParkMiller) -> Name {
    if verb == Verb::MakeCurrency {
        return currency_name(rt, alloc, numbers);
    }
    thread_name(rt, alloc, numbers)
}

/// A command of this verb.
fn command_with(rt: &impl Abort, alloc: Global, verb: Verb, numbers: &mut ParkMiller) -> Command {
    let mut arguments = OneOfEach {
        amount: next_amount(numbers),
        ticket: u64::from(numbers.next() % 8000),
        currency: currency_ref(rt, alloc, numbers),
        target: target_ref(rt, alloc, numbers),
        thread: thread_ref(rt, alloc, numbers),
        name: new_name(rt, alloc, verb, numbers),
        script: 1,
    };
    command_of(verb, &mut arguments).expect(rt, "each is given")
}

/// A command that an input may have, more often a fund than any other.
fn next_command(rt: &impl Abort, alloc: Global, numbers: &mut ParkMiller) -> Command {
    let words = BodyWord::table();
    let place = numbers.next() as usize % words.len().max(1);
    let verb = match words.get(place) {
        Some((_, BodyWord::Command(verb), _)) => *verb,
        _ => Verb::Fund,
    };
    command_with(rt, alloc, verb, numbers)
}

fn next_action(numbers: &mut ParkMiller) -> Action {
    let number = numbers.next() % 8;
    match numbers.next() % 16 {
        0 | 1 => Action::Yield,
        2..=5 => Action::Call(number, number),
        6..=9 => Action::Receive(number),
        10 => Action::Reply(number),
        11 => Action::Serve(number, number),
        12 | 13 => Action::Lock(number),
        14 => Action::Unlock(number, u128::from(numbers.number())),
        _ => Action::Exit,
    }
}

fn next_event(rt: &impl Abort, alloc: Global, numbers: &mut ParkMiller) -> Event {
    let processor = numbers.next() % 16;
    match numbers.next() % 8 {
        0 | 1 => Event::Command(next_command(rt, alloc, numbers)),
        2..=4 => Event::Draw(processor, numbers.wide_number()),
        5 => Event::Expire(processor),
        _ => Event::Trap(processor, numbers.next() % 64, next_action(numbers)),
    }
}

/// Makes this many events in a kernel, and returns the reads of draws and unlocks. Other events read nothing.
fn give(
    rt: &impl Abort,
    alloc: Global,
    kernel: &mut Kernel,
    numbers: &mut ParkMiller,
    count: u32,
) -> u64 {
    let mut read: u64 = 0;
    for _ in 0..count {
        let event = next_event(rt, alloc, numbers);
        let before = kernel.meter();
        let _ = kernel.event(&event);
        let after = kernel.meter();
        assert!(rt; may_read(&event) || after == before);
        read = read.saturating_add(after.ticket_reads.saturating_sub(before.ticket_reads));
    }
    read
}

/// Compares all rows of two kernels.
fn check_rows(rt: &impl Abort, kernel: &mut Kernel, fresh: &mut Kernel) {
    check_same(rt, &kernel.ticket_count(), &fresh.ticket_count());
    for ticket in 0..kernel.ticket_count() {
        let ticket = TicketNumber {
            number: ticket.saturating_add(1),
        };
        check_same(rt, &kernel.ticket_row(ticket), &fresh.ticket_row(ticket));
    }
    check_same(rt, &kernel.currency_count(), &fresh.currency_count());
    for number in 0..kernel.currency_count() {
        let currency = CurrencyNumber { number };
        check_same(
            rt,
            &kernel.currency_row(currency),
            &fresh.currency_row(currency),
        );
    }
    for number in 1..=4096 {
        let thread = ThreadNumber { number };
        check_same(rt, &kernel.thread_row(thread), &fresh.thread_row(thread));
    }
}

/// Makes all events of this many parts in a new kernel at once, and compares its rows. The reads of its draws and
/// unlocks are its counts.
fn check_part(rt: &impl Abort, alloc: Global, kernel: &mut Kernel, parts: u32) {
    let mut fresh = new_kernel(rt, alloc);
    let mut numbers = generator(rt);
    let count = parts.saturating_mul(PART);
    let read = give(rt, alloc, &mut fresh, &mut numbers, count);
    check_same(rt, &fresh.meter().ticket_reads, &read);
    check_rows(rt, kernel, &mut fresh);
}

#[test]
fn generated_events(rt: HostRuntime) {
    let alloc = rt.alloc();
    let mut kernel = new_kernel(&rt, alloc);
    let mut numbers = generator(&rt);
    for part in 0..PARTS {
        give(&rt, alloc, &mut kernel, &mut numbers, PART);
        check_part(&rt, alloc, &mut kernel, part.saturating_add(1));
    }
    assert!(rt; kernel.meter() != Meter::default());
}
