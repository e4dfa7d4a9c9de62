//! The vocabulary of a simulated system: scripts, the words of an input, the reasons for refusing one, and the warnings
//! of a run. Its definitions build on those of the machine.
//!
//! Its tests stand in `lot_text_tests`, and those of warnings in `lot_system_tests`.
#![tactic(auto)]

mod columns;
pub mod currencies;
mod first_few;
mod format;
mod forms;
mod input;
pub mod laws;
pub mod named_tickets;
pub mod printed;
pub mod ranges;
pub mod read;
mod script;
mod separators;
pub mod sliced;
pub mod strict;
mod style;
pub mod texts;
mod timed;
pub mod timed_rows;
mod warnings;
mod words;
pub mod worked;

pub use columns::{COLUMNS, Cell, Column, Layout, Subject, Table, Unit};
pub use first_few::FirstFew;
pub use format::Format;
pub use forms::{Argument, Form, Range};
pub use input::{BodyWord, HeaderWord, InputFault, InputRefusal, Options, ScriptWord};
pub use script::ScriptLine;
pub use separators::Separators;
pub use style::LineStyle;
pub use timed::{Clock, Due, EarlyEnd, PastLives, Sleeper, Span, SpanChange, Spans, TICK_PARTS};
pub use warnings::{Lack, Owner, RefusedCommand, RefusedTrap, StuckThread, Warnings};
pub use words::{
    AS_WORD, COMPENSATION_WORD, FIRST_WORD, HEADER_WORDS, LENDING_WORD, RUNS_WORD, SCHEDULE_WORD,
    WordRow, makes_ticket,
};
