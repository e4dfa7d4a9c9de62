//! The cells of reports.
ghost use Rattle.std.specs.Prelude.{◌≡◌, ◌*◌, ◌<◌, ◌^◌};
ghost use Rattle.lot_simulation.specs.Columns as columns;
ghost use Rattle.lot_simulation.specs.TimedReport as reports;
ghost use Rattle.lot_simulation.specs.TimedReport.{tick_parts};

use lot_simulation::{Cell, Spans, TICK_PARTS};

/// A number.
pub(crate) fn number(n: u64) -> Cell
    ensures { result ≡ columns.number n }
{
    Cell::Figure(u128::from(n) * 1000)
}

/// A number that a line leaves out if it is 0.
pub(crate) fn quiet(n: u64) -> Cell
    ensures { result ≡ columns.quiet n }
{
    if n == 0 { Cell::Unsaid } else { number(n) }
}

/// A part of a whole in percent.
pub(crate) fn share(part: u64, whole: u128) -> Cell
    ensures { result ≡ columns.share part whole }
{
    if whole == 0 {
        return Cell::Figure(0);
    }
    Cell::Figure(u128::from(part) * 100000 / whole)
}

/// A share of this time in percent, given in parts of a tick. The product with 100000 could overflow, so it divides
/// twice.
pub(crate) fn due_share(due: u128, time: u64) -> Cell
    requires due { due < 2 ^ 121 }
    requires time { time < 2 ^ 57 }
    ensures { result ≡ columns.share due (time * tick_parts) }
{
    if time == 0 {
        return Cell::Figure(0);
    }
    let whole = u128::from(time) * TICK_PARTS;
    let percent = due * 100 / whole;
    let rest = due * 100 % whole;
    Cell::Figure(percent * 1000 + rest * 1000 / whole)
}

/// The mean of so many spans of time with this total; empty if there is none.
pub(crate) fn mean(total: u128, count: u64) -> Cell
    requires { total < 2 ^ 118 }
    ensures { result ≡ columns.mean total count }
{
    if count == 0 {
        return Cell::Empty;
    }
    Cell::Figure(total * 1000 / u128::from(count))
}

/// A number of so many spans of time; empty if there is none.
pub(crate) fn if_any(count: u64, n: u64) -> Cell
    ensures { result ≡ columns.if_any count n }
{
    if count == 0 { Cell::Empty } else { number(n) }
}

/// The number of a thread's waits of one kind.
pub(crate) fn wait_count(waits: Spans) -> Cell
    ensures { result ≡ columns.quiet waits.count }
{
    quiet(u64::from(waits.count))
}

/// Their mean; empty if there is none.
pub(crate) fn wait_mean(waits: Spans) -> Cell
    ensures { result ≡ columns.mean waits.total waits.count }
{
    mean(u128::from(waits.total), u64::from(waits.count))
}

/// The longest of them; empty if there is none.
pub(crate) fn longest_wait(waits: Spans) -> Cell
    ensures { result ≡ columns.if_any waits.count waits.longest }
{
    if_any(u64::from(waits.count), u64::from(waits.longest))
}

/// The time at which the last thread with these lives was made. A line leaves it out if it is 0 and the thread hasn't
/// ended.
pub(crate) fn made(lives: Spans) -> Cell
    ensures { result ≡ reports.made_cell lives }
{
    match (lives.since, lives.last) {
        (Some(since), _) => quiet(u64::from(since)),
        (None, Some(life)) => number(u64::from(life.from)),
        (None, None) => Cell::Empty,
    }
}

/// The time at which it ended, if it has.
pub(crate) fn ended(lives: Spans) -> Cell
    ensures { result ≡ reports.ended_cell lives }
{
    match (lives.since, lives.last) {
        (Some(_), _) => Cell::Empty,
        (None, Some(life)) => number(u64::from(life.to)),
        (None, None) => Cell::Empty,
    }
}
