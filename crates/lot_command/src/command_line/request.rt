//! The request of a command line.

use lot_curves::{By, Interval, Measure};
use lot_explain::Detail;
use lot_program::Seed;
use lot_system::{ReportForm, Seeds};

/// A parsed command line.
#[derive(Clone, Copy)]
pub struct CommandLine<'a> {
    /// The request of the words.
    pub request: Request,
    /// The title of a picture.
    pub title: &'a str,
    /// The name of the file with the input, or `None` for standard input.
    pub file: Option<&'a str>,
}

/// The request of a command line: exactly one subcommand.
#[derive(Clone, Copy)]
pub enum Request {
    /// A view of the input's turns.
    Show(Showing),
    /// A run of the input by threads.
    Run,
}

/// A view of the turns of an input.
#[derive(Clone, Copy)]
pub enum View {
    /// A line for each turn, and the report.
    Play,
    /// The report alone, in this form; with seeds, the report over a play with each of them.
    Report {
        /// The seeds of several plays, or `None` for one play.
        seeds: Option<Seeds>,
        /// Lines or a table.
        form: ReportForm,
    },
    /// A line for each turn, after the lots of its lottery if a thread won it, and the report; in this detail.
    Explain(Detail),
    /// A table of this measure of each thread over time, or over an interval; with a window, of the shares of the last
    /// ticks.
    Shares {
        /// Ticks or draws.
        measure: Measure,
        /// The interval, in ticks, or `None` for the whole time.
        interval: Option<Interval>,
        /// The length of the window, in ticks, or `None` for sums.
        window: Option<u32>,
    },
    /// A picture of the ticks of each thread over time, or of the threads below each currency; or over an interval;
    /// with a window, of the shares of the last ticks.
    Chart {
        /// Threads or currencies.
        by: By,
        /// The interval, in ticks, or `None` for the whole time.
        interval: Option<Interval>,
        /// The length of the window, in ticks, or `None` for sums.
        window: Option<u32>,
    },
}

/// A view of an input, and the seed for its play.
#[derive(Clone, Copy)]
pub struct Showing {
    /// The view of the input.
    pub view: View,
    /// The seed of processor 1, from which the others' are computed, or `None` for the input's own seeds.
    pub seed: Option<Seed>,
}
