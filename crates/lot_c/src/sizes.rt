//! Sizes, counts and running threads, in plain fields.
ghost use Rattle.std.specs.Prelude.{◌≡◌, ◌↔◌, IfSome, IsSome};
ghost use Rattle.lot_machine.specs.Bounds.{IsWithinBounds};
ghost use Rattle.lot_machine.specs.State.{sizes_of};
ghost use Rattle.lot_c.specs.Counts.{plain_sizes, plain_meter, plain_runner, sizes_meant};

use lot_kernel::{Meter, Runner};
use lot_machine::{Limits, Sizes};

/// The sizes of a kernel in plain fields.
#[repr(C)]
#[derive(Clone, Copy)]
pub struct PlainSizes {
    pub tickets: u32,
    pub currencies: u32,
    pub threads: u32,
    pub ports: u32,
    pub mutexes: u32,
    pub processors: u32,
    pub scripts: u32,
    pub quantum: u32,
    pub unit: u32,
    /// 0 if each number is given once; otherwise the kernel has `reuse`.
    pub reuse: u32,
    /// 0 if names are good names; otherwise a name may have any printable ASCII but the space.
    pub plain_names: u32,
    /// 0 if a thread whose call is queued lends to nobody; otherwise it lends to the port's server.
    pub queued_lend: u32,
}

impl PlainSizes {
    /// The limits of these sizes, or `None` if one is out of its bounds.
    pub(crate) fn limits(&self) -> Option<Limits>
        ensures some { IsSome result ↔ IsWithinBounds (sizes_meant self.now) }
        ensures sizes { IfSome result (λ limits. sizes_of limits ≡ sizes_meant self.now) }
    {
        Limits::new(Sizes {
            tickets: self.tickets,
            currencies: self.currencies,
            threads: self.threads,
            ports: self.ports,
            mutexes: self.mutexes,
            processors: self.processors,
            scripts: self.scripts,
            quantum: self.quantum,
            unit: self.unit,
            reuse: self.reuse != 0,
            plain_names: self.plain_names != 0,
            without_compensation: false,
            without_lending: false,
            queued_lend: self.queued_lend != 0,
        })
    }

    /// The limits in plain fields.
    pub(crate) fn of(limits: Limits) -> PlainSizes
        ensures { result ≡ plain_sizes (sizes_of limits) }
    {
        PlainSizes {
            tickets: limits.tickets,
            currencies: limits.currencies,
            threads: limits.threads,
            ports: limits.ports,
            mutexes: limits.mutexes,
            processors: limits.processors,
            scripts: limits.scripts,
            quantum: limits.quantum,
            unit: limits.unit,
            reuse: u32::from(limits.reuse),
            plain_names: u32::from(limits.plain_names),
            queued_lend: u32::from(limits.queued_lend),
        }
    }
}

/// The meter in plain fields.
#[repr(C)]
#[derive(Clone, Copy)]
pub struct PlainMeter {
    pub ticket_reads: u64,
    pub tree_visits: u64,
}

impl PlainMeter {
    /// The meter in plain fields.
    pub(crate) fn of(meter: Meter) -> PlainMeter
        ensures { result ≡ plain_meter meter }
    {
        PlainMeter {
            ticket_reads: meter.ticket_reads,
            tree_visits: meter.tree_visits,
        }
    }
}

/// The thread that runs on a processor, in plain fields.
#[repr(C)]
#[derive(Clone, Copy)]
pub struct PlainRunner {
    pub thread: u32,
    /// The ticks of the quantum used, below the quantum.
    pub used: u32,
}

impl PlainRunner {
    /// The running thread in plain fields.
    pub(crate) fn of(runner: Runner) -> PlainRunner
        ensures { result ≡ plain_runner runner }
    {
        PlainRunner {
            thread: runner.thread.number,
            used: runner.used,
        }
    }
}
