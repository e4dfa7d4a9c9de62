//! The laws in cases small enough to compute by hand.

pub mod conservation;
pub mod fairness;
pub mod inside;
pub mod insulation;
pub mod kills;
pub mod reused;
pub mod rounds;
pub mod transfers;
pub mod unlocks;
