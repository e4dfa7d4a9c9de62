//! Counts of reads.

/// The counts of tickets, lends and owners read for values, and of places visited in the tree of weights. Each count
/// saturates at the largest `u64`.
#[derive(Clone, Copy, Debug, Default, PartialEq, Eq)]
pub struct Meter {
    pub ticket_reads: u64,
    pub tree_visits: u64,
}
