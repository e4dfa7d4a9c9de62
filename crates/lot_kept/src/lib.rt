//! Tables that allocate only when they are made.
//!
//! Code that allocates needs an allocator, or a value such as a `Vec` that has one. These tables give none away and
//! have no method that grows, even behind a `&mut`. So a function that reaches its data through them alone neither
//! allocates nor frees.
#![tactic(auto)]

mod kept;
mod stack;
#[cfg(test)]
mod tests;

pub use kept::Kept;
pub use stack::Stack;
