//! The level of detail of an explanation.

/// The detail of an explanation of a won lottery.
#[derive(Clone, Copy, Debug, PartialEq, Eq)]
pub enum Detail {
    /// Its lots, and the loans at it.
    Lots,
    /// The lots and loans, and before them in timed style the funding of a processor's lottery.
    Funding,
}
