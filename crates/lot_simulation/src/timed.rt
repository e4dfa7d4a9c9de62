//! Clocks, due turns, spans of time and early ends of a timed input.

/// The parts into which reports divide a tick, to add up the dues of threads.
pub const TICK_PARTS: u128 = 1000000000000000000;

/// A processor's clock. Times are in ticks.
#[derive(Clone, Copy, Debug, PartialEq, Eq)]
pub struct Clock {
    /// The time of the last turn.
    pub time: u32,
    /// Whether the processor waits, after an idle draw.
    pub waits: bool,
    /// The total of the past waits.
    pub idle: u64,
}

/// An actor whose turn may come next.
#[derive(Clone, Copy, Debug, PartialEq, Eq)]
pub struct Due {
    /// The time at which the turn would be made, in ticks.
    pub time: u64,
    pub actor: u32,
}

/// A thread that goes to sleep, and for how long.
#[derive(Clone, Copy, Debug, PartialEq, Eq)]
pub struct Sleeper {
    /// The thread's number.
    pub thread: u32,
    /// The ticks that it sleeps.
    pub ticks: u32,
}

/// A play's end before its time. Times are in ticks.
#[derive(Clone, Copy, Debug, PartialEq, Eq)]
pub struct EarlyEnd {
    /// The time of the play's last turn.
    pub time: u32,
    /// The time at which the input ends.
    pub end: u32,
    /// The number of turns made.
    pub turns: u64,
}

/// A span of time. Times are in ticks.
#[derive(Clone, Copy, Debug, PartialEq, Eq)]
pub struct Span {
    pub from: u32,
    pub to: u32,
}

/// Spans of time of one kind: a thread's waits for mutexes, its waits for replies, or the lives of the threads that
/// have had its number. Times are in ticks.
#[derive(Clone, Copy, Debug, PartialEq, Eq)]
pub struct Spans {
    /// The number of past spans.
    pub count: u32,
    /// The total of past spans.
    pub total: u64,
    /// The longest past span.
    pub longest: u32,
    /// The last past span, if there is one.
    pub last: Option<Span>,
    /// The start of the current span, if there is one.
    pub since: Option<u32>,
}

/// The past lives of threads. Times are in ticks.
#[derive(Clone, Copy, Debug, PartialEq, Eq)]
pub struct PastLives {
    /// The number of threads that have ended.
    pub count: u64,
    /// The total of their lives.
    pub total: u128,
    /// The longest life.
    pub longest: u32,
}

/// The change that a turn makes to the spans of one kind.
#[derive(Clone, Copy, Debug, PartialEq, Eq)]
pub enum SpanChange {
    Nobody,
    /// A new thread has this number, and has had no span.
    Anew(u32),
    /// A span of this thread begins.
    Begins(u32),
    /// This thread's span ends.
    Ends(u32),
}
