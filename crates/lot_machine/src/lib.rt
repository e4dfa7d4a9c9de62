//! The vocabulary of the machine: the events of a lottery-scheduled kernel, its replies, and the parts of its state.
//!
//! Its tests stand in `lot_kernel_tests`.
#![tactic(auto)]

mod after;
mod arguments;
mod command;
mod drawn;
mod event;
mod funding;
pub mod kept;
pub mod laws;
mod limits;
mod name;
mod numbers;
pub mod queued;
mod record;
mod reference;
mod refusal;
mod reply;
pub mod reused;
mod row;
mod sizes;
mod ticket;
mod trap;
pub mod worked;

pub use after::After;
pub use arguments::{Arguments, Sink, Slot};
pub use command::{Command, Kind, Verb, command_of, form_of, give_parts};
pub use drawn::Drawn;
pub use event::Event;
pub use funding::{Edge, Lend, Node};
pub use limits::Limits;
pub use name::{Name, is_good_name, is_plain_name};
pub use numbers::{
    CurrencyNumber, MutexNumber, PortNumber, Processor, ThreadNumber, TicketNumber, index_of,
};
pub use record::{Record, Status, Thread};
pub use reference::{CurrencyRef, TargetRef, ThreadRef};
pub use refusal::{Refusal, TrapRefusal};
pub use reply::{Outcome, Reply};
pub use row::{CurrencyRow, ThreadRow, TicketRow};
pub use sizes::Sizes;
pub use ticket::{Target, Ticket};
pub use trap::{Action, ScriptTrap, Trap, TrapWord};
