//! The limits of a kernel.
ghost use Rattle.lot_machine.specs.Bounds.{IsWithinBounds};

/// The limits of a kernel: sizes within their bounds.
#[derive(Clone, Copy, Debug, PartialEq, Eq)]
pub struct Limits {
    pub tickets: u32,
    pub currencies: u32,
    pub threads: u32,
    pub ports: u32,
    pub mutexes: u32,
    pub processors: u32,
    pub scripts: u32,
    pub quantum: u32,
    pub unit: u32,
    pub reuse: bool,
    pub plain_names: bool,
    pub without_compensation: bool,
    pub without_lending: bool,
    pub queued_lend: bool,
    ghost within_bounds: { IsWithinBounds (record {
      tickets = tickets;
      currencies = currencies;
      threads = threads;
      ports = ports;
      mutexes = mutexes;
      processors = processors;
      scripts = scripts;
      quantum = quantum;
      unit = unit;
      reuse = reuse;
      plain_names = plain_names;
      without_compensation = without_compensation;
      without_lending = without_lending;
      queued_lend = queued_lend;
    }) },
}
