//! A system that its seats pass around as a baton: it is in a queue of capacity one, or held by one seat. It takes no
//! lock.
mod rule;
mod seat;
mod station;
mod view;

pub use seat::BatonSeat;
pub use station::{BatonStation, SeatMissing};
