//! The kernel for C: an export for each of its calls, and for the lottery by itself.
//!
//! An export validates its arguments before it acts. An invalid call changes nothing and returns the reason as its
//! status. `bindings/c/lot.h` lists the caller's obligations for each call.
#![tactic(auto)]

mod event;
mod events;
mod handle;
mod kernel;
mod kind;
pub mod laws;
mod listing;
mod lottery;
mod name;
mod parts;
mod reader;
mod reply;
mod rows;
mod settled;
mod sizes;
mod status;
mod version;
mod wide;
