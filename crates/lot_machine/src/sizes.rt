//! The sizes of a kernel, fixed when it is made.
ghost use Rattle.std.specs.Prelude.{◌≡◌, ◌≤◌, IfSome, IsSome, IsTrue, ◌↔◌};
ghost use Rattle.lot_machine.specs.Bounds.{IsWithinBounds};
ghost use Rattle.lot_machine.specs.State as states;
ghost use Rattle.lot_machine.specs.State.{sizes_of};

use crate::Limits;

/// The sizes of a kernel: the limits on tickets, user currencies and threads, the numbers of ports, mutexes, processors
/// and scripts, the quantum, the unit of value, and departures from the paper.
#[derive(Clone, Copy, Debug, PartialEq, Eq)]
pub struct Sizes {
    /// 1 to 65535.
    pub tickets: u32,
    /// 1 to 4096.
    pub currencies: u32,
    /// 1 to 4096.
    pub threads: u32,
    /// At most 256.
    pub ports: u32,
    /// At most 256.
    pub mutexes: u32,
    /// 1 to 64.
    pub processors: u32,
    /// At most 256.
    pub scripts: u32,
    /// In ticks, 1 to 1000.
    pub quantum: u32,
    /// 1, or 256 for finer shares: an active base ticket is worth its amount times the unit.
    pub unit: u32,
    /// Whether a removal frees its number for the next ticket, currency or thread, the number freed last first. With it
    /// the limits count what exists at once, without it what was ever made.
    pub reuse: bool,
    /// Whether a name may have any printable ASCII but the space. Otherwise it is a letter a to z, followed by letters
    /// a to z, digits, `_` or `-`.
    pub plain_names: bool,
    /// Whether every thread weighs its value, also one that gave up its quantum early or ran past its end.
    pub without_compensation: bool,
    /// Whether a blocked thread lends to nobody: its server, or the owner of its mutex, has its own tickets alone.
    pub without_lending: bool,
    /// Whether a thread whose call is queued lends to the port's server: the thread that took the last call there.
    pub queued_lend: bool,
}

impl Sizes {
    /// The smallest sizes within their bounds, without `reuse`, plain names or `queued_lend`, and with compensation and
    /// lending.
    pub const SMALLEST: Sizes = Sizes {
        tickets: 1,
        currencies: 1,
        threads: 1,
        ports: 0,
        mutexes: 0,
        processors: 1,
        scripts: 0,
        quantum: 1,
        unit: 1,
        reuse: false,
        plain_names: false,
        without_compensation: false,
        without_lending: false,
        queued_lend: false,
    };
    /// The largest sizes within their bounds, without `reuse`, plain names or `queued_lend`, and with compensation and
    /// lending.
    pub const LARGEST: Sizes = Sizes {
        tickets: 65535,
        currencies: 4096,
        threads: 4096,
        ports: 256,
        mutexes: 256,
        processors: 64,
        scripts: 256,
        quantum: 1000,
        unit: 256,
        reuse: false,
        plain_names: false,
        without_compensation: false,
        without_lending: false,
        queued_lend: false,
    };
}

impl Limits {
    /// The limits with these sizes, or `None` if one is out of its bounds.
    pub fn new(sizes: Sizes) -> Option<Self>
        ensures some { IsSome result ↔ IsWithinBounds sizes }
        ensures sizes { IfSome result (λ limits. sizes_of limits ≡ sizes) }
    {
        if !are_within_bounds(&sizes) {
            return None;
        }
        Some(Limits {
            tickets: sizes.tickets,
            currencies: sizes.currencies,
            threads: sizes.threads,
            ports: sizes.ports,
            mutexes: sizes.mutexes,
            processors: sizes.processors,
            scripts: sizes.scripts,
            quantum: sizes.quantum,
            unit: sizes.unit,
            reuse: sizes.reuse,
            plain_names: sizes.plain_names,
            without_compensation: sizes.without_compensation,
            without_lending: sizes.without_lending,
            queued_lend: sizes.queued_lend,
        })
    }
}

impl Limits {
    /// The number of holders: the mutexes, and with `queued_lend` the ports too. Each may have an owner.
    pub fn holders(&self) -> u32
        ensures number { result ≡ states.holders (sizes_of self.now) }
        ensures few { result ≤ 512 }
    {
        if self.queued_lend {
            self.mutexes + self.ports
        } else {
            self.mutexes
        }
    }
}

/// Whether each size is within its bounds.
fn are_within_bounds(sizes: &Sizes) -> bool
    ensures { IsTrue result ↔ IsWithinBounds sizes.now }
{
    Sizes::SMALLEST.tickets <= sizes.tickets
        && sizes.tickets <= Sizes::LARGEST.tickets
        && Sizes::SMALLEST.currencies <= sizes.currencies
        && sizes.currencies <= Sizes::LARGEST.currencies
        && Sizes::SMALLEST.threads <= sizes.threads
        && sizes.threads <= Sizes::LARGEST.threads
        && sizes.ports <= Sizes::LARGEST.ports
        && sizes.mutexes <= Sizes::LARGEST.mutexes
        && Sizes::SMALLEST.processors <= sizes.processors
        && sizes.processors <= Sizes::LARGEST.processors
        && sizes.scripts <= Sizes::LARGEST.scripts
        && Sizes::SMALLEST.quantum <= sizes.quantum
        && sizes.quantum <= Sizes::LARGEST.quantum
        && (sizes.unit == Sizes::SMALLEST.unit || sizes.unit == Sizes::LARGEST.unit)
}
