//! The largest numbers of bytes in lines, as sums over their parts. Clauses have these numbers as literals; the proofs
//! of the functions that append the parts check them.

use lot_simulation::{COLUMNS, SCHEDULE_WORD};

/// The largest number of actors in a `schedule` line.
pub(crate) const ACTORS: usize = 64;

/// A 16-bit, 32-bit or 64-bit number.
const ACTOR: usize = 5;

const NUMBER: usize = 10;

const LONG_NUMBER: usize = 20;

/// A quotient: a 128-bit number, and three digits after the point.
const QUOTIENT: usize = 39 + 4;

/// A name.
const NAME: usize = 16;

/// The time before a line, with a space.
const FRONT: usize = NUMBER + 1;

/// A word, a number and its name.
const NAMED: usize = b"currency ".len() + NUMBER + 1 + NAME;

/// The draws won, and the ticks used.
const COUNTS: usize = b" quanta ".len() + LONG_NUMBER + b" ticks ".len() + LONG_NUMBER;

/// The time and the actor of a turn.
const HEADING: usize = FRONT + NUMBER + 1;

/// The thread that ran, and its ticks.
const RAN: usize = b"thread ".len() + NUMBER + b" ticks ".len() + NUMBER;

/// The longest outcome of a trap: the new owner of a mutex, and the draw.
const OUTCOME: usize = b"unlock ".len()
    + NUMBER
    + b" to ".len()
    + NUMBER
    + b" draw ".len()
    + QUOTIENT
    + b" of ".len()
    + QUOTIENT;

/// The longest end of a turn's line.
const END: usize = b" expire\n".len();

/// The line of a turn.
pub(crate) const TURN: usize = HEADING + RAN + 1 + OUTCOME + END;

/// A page of such lines.
pub(crate) const PAGE: usize = 4096;

/// A ticket's row.
const TICKET_ROW: usize = FRONT
    + b"ticket ".len()
    + NUMBER
    + b" amount ".len()
    + NUMBER
    + b" in ".len()
    + NAME
    + b" funds ".len()
    + NAME
    + b" inactive".len()
    + b" value ".len()
    + QUOTIENT
    + 1;

/// A currency's row.
const CURRENCY_ROW: usize = FRONT
    + NAMED
    + b" backing ".len()
    + NUMBER
    + b" issued ".len()
    + NUMBER
    + b" active ".len()
    + LONG_NUMBER
    + b" value ".len()
    + QUOTIENT
    + 1;

/// A thread's row. Its status is longest while it runs.
const THREAD_ROW: usize = FRONT
    + NAMED
    + 1
    + b"running ".len()
    + NUMBER
    + b" used ".len()
    + NUMBER
    + b" value ".len()
    + QUOTIENT
    + b" weight ".len()
    + QUOTIENT
    + COUNTS
    + 1;

/// The reason for an entrant's weight.
const REASON: usize = b" = value ".len() + QUOTIENT + b" x ".len() + NUMBER + b" / ".len() + NUMBER;

/// An entrant of a lottery.
const LOT: usize = FRONT
    + NUMBER
    + b" lot thread ".len()
    + NUMBER
    + 1
    + NAME
    + b" weight ".len()
    + QUOTIENT
    + REASON
    + b" from ".len()
    + QUOTIENT
    + b" below ".len()
    + QUOTIENT
    + b" wins\n".len();

/// The longest line of an entrant.
pub(crate) const LOT_ROW: usize = 320;

/// A blocked thread, and the thread that it lends to.
const LOAN: usize = FRONT
    + NUMBER
    + b" lent thread ".len()
    + NUMBER
    + 1
    + NAME
    + b" value ".len()
    + QUOTIENT
    + b" to thread ".len()
    + NUMBER
    + 1;

/// The longest line of a listing, of a lender or of the report.
pub(crate) const ROW: usize = 256;

/// The most bytes of a cell in a line or a row, of a third of a figure over several plays, and of a third of the names
/// of a column.
const CELL: usize = 72;

/// A column's word, and its name.
const WORD: usize = b"mutex waits".len();

const COLUMN_NAME: usize = b"mutex_longest".len();

/// A word after a space, and a figure with its sign.
const FIGURE: usize = 1 + WORD + 1 + QUOTIENT + 1;

/// A word after a space, and its mean, its least and its most over several plays.
const SPREAD: usize = 1
    + WORD
    + b" mean ".len()
    + b" least ".len()
    + b" most ".len()
    + 3 * (QUOTIENT + 1)
    + b" in ".len()
    + LONG_NUMBER
    + b" of ".len()
    + LONG_NUMBER;

/// The names of a column over several plays.
const NAMES: usize = 3 * (1 + COLUMN_NAME) + b"_mean".len() + b"_least".len() + b"_most".len();

/// The start of a line or a row over several plays; others are shorter.
const START: usize = NAMED + b" plays ".len() + LONG_NUMBER;

/// The longest line or row of a report.
pub(crate) const REPORT_LINE: usize = START + 3 * CELL * COLUMNS + 1;

/// A `schedule` line.
pub(crate) const SCHEDULE_LINE: usize = SCHEDULE_WORD.len() + ACTORS * (1 + ACTOR) + 1;

const _: () = prove!(TURN == 192 && TURN <= PAGE);

const _: () = prove!(TICKET_ROW <= ROW && CURRENCY_ROW <= ROW && THREAD_ROW <= ROW && LOAN <= ROW);

const _: () = prove!(LOT <= LOT_ROW);

const _: () = prove!(FIGURE <= CELL && SPREAD <= 3 * CELL && NAMES <= 3 * CELL);
