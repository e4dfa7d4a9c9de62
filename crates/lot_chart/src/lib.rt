//! Shows an input: `shares` writes a table of each thread's ticks or draws over time, and `chart` a picture of the
//! ticks. For a timed program a picture also has the due of each line. With a window, both show shares of the last
//! ticks. With `reuse` all threads that had one number share a column, and a line. By currency a picture has a line for
//! each currency other than base instead, for the ticks of the threads below it.
//!
//! Its tests stand in `lot_system_tests`.
#![tactic(auto)]

mod axes;
mod charts;
mod due_lines;
mod escapes;
mod gathering;
mod gauges;
pub mod laws;
mod lines;
mod marks;
mod metering;
pub mod rows;
mod shares;
mod showing;
mod standings;
mod tables;
mod text;

pub use charts::{chart_of, program_chart};
pub use gathering::gather;
pub use lines::PlotLine;
pub use showing::{chart_bytes, chart_program, shares_bytes, shares_program};
pub use standings::Standing;
pub use tables::table;
