//! The form of a report.

/// The form of a report.
#[derive(Clone, Copy, Debug)]
pub enum ReportForm {
    /// Lines of words and numbers.
    Lines,
    /// A table: the columns' names, and a row for each thread, with commas between the fields.
    Table,
    /// A table with a row for each currency of a timed program. For another program it is the table of threads.
    CurrencyTable,
}
