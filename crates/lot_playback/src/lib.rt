//! A program's turns, one after another, in either order: those of a schedule, or those due by clocks.
//!
//! Its tests stand in `lot_system_tests`.
#![tactic(auto)]

mod alarms;
mod clocks;
mod currencies;
mod dues;
mod making;
mod observer;
mod playback;
mod ready;
mod refused_traps;
mod sharers;
mod spans;
mod timekeeper;
mod turn;
mod values;

pub use alarms::Alarms;
pub use clocks::Clocks;
pub use currencies::CurrencyTable;
pub use dues::{DueTable, Owing, is_dispatch, rate_of};
pub use observer::Observer;
pub use playback::{Order, Playback};
pub use refused_traps::RefusedTraps;
pub use sharers::Sharers;
pub use spans::SpanTable;
pub use timekeeper::Timekeeper;
pub use turn::{NextTurn, Turn};
pub use values::live_value;
