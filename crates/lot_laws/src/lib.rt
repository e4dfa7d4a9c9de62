//! The claims about lottery scheduling, as laws of the machine: fairness by counting, conservation, insulation, and
//! transfers without loss. Each law is a function with an empty body; its clauses are the law.
#![tactic(auto)]

pub mod conservation;
pub mod fairness;
pub mod inside;
pub mod insulation;
pub mod kills;
pub mod named;
pub mod pauses;
pub mod queues;
pub mod reachable;
pub mod removed;
pub mod reused;
pub mod rounds;
pub mod transfers;
pub mod unlocks;
pub mod worked;
