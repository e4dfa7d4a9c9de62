//! The status of a call.
ghost use Rattle.std.specs.Prelude.{◌≡◌};
ghost use Rattle.lot_c.specs.Numbers as numbers;

/// The status of a call. With any other than `Done` the call changed nothing, except `lot_kernel_run`, which makes the
/// events before the faulty one.
#[derive(Clone, Copy, Debug, PartialEq, Eq)]
pub(crate) enum Status {
    Done = 0,
    /// The handle has no kernel.
    NoKernel = 1,
    /// The handle has a kernel already.
    KernelThere = 2,
    /// A size is out of its bounds.
    BadLimits = 3,
    /// Out of memory.
    NoMemory = 4,
    /// No event has this kind.
    BadKind = 5,
    /// A name of more than 16 bytes.
    LongName = 6,
    /// A name that the kernel doesn't take, or that the call doesn't make.
    BadName = 7,
    /// Nothing has this number.
    NotThere = 8,
    /// The number of replies differs from the number of events.
    CountsDiffer = 9,
    /// The seed is 0 or above 2147483646.
    BadSeed = 10,
    /// The weights sum to 0.
    NoWinner = 11,
    /// The weights sum to 2 ^ 128 or more.
    TooLarge = 12,
    /// A value is stale.
    NotSettled = 13,
}

impl Status {
    /// The number that C sees.
    pub(crate) fn code(self) -> u32
        ensures { result ≡ numbers.code self }
    {
        self as u32
    }
}
