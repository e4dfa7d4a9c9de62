//! A turn of a program.
use lot_machine::{Event, Reply};

/// The next turn: its actor, and its time if it is timed.
#[derive(Clone, Copy, Debug, PartialEq, Eq)]
pub struct NextTurn {
    /// Its time in ticks, if the program is timed.
    pub time: Option<u32>,
    /// 0 for the console, 1 to P for the processors, and P + t for the timer when it wakes thread t.
    pub actor: u32,
}

/// A turn made. Its event and reply are large, so a play overwrites one `Turn` again and again.
#[derive(Debug, PartialEq, Eq, Drop)]
pub struct Turn {
    /// Its time in ticks, if the program is timed.
    pub time: Option<u32>,
    /// 0 for the console, 1 to P for the processors, and P + t for the timer when it wakes thread t.
    pub actor: u32,
    /// Whether it is the console's turn after its last command. Its event and reply are meaningless then.
    pub has_ended: bool,
    /// The actor's event.
    pub event: Event,
    /// The kernel's reply.
    pub reply: Reply,
}

impl Turn {
    /// A blank turn, to overwrite.
    pub fn blank() -> Turn {
        Turn {
            time: None,
            actor: 0,
            has_ended: true,
            event: Event::Expire(0),
            reply: Reply::Idle,
        }
    }
}
