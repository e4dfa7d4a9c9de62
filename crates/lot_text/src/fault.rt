//! Faults of reading an input.
ghost use Rattle.std.specs.Prelude.{◌≡◌};
ghost use Rattle.lot_text.specs.declared.fault.LineFault.TheVariants.{Memory, Refused};
ghost use Rattle.lot_text.specs.declared.fault.ParseFault.TheVariants as parse_fault;
ghost use Rattle.lot_text.specs.Faults.{fault_on};

use lot_simulation::{InputFault, InputRefusal};
use std::alloc::{AllocError, AllocFailed};
use thiserror::Error;

/// The reason why an input isn't read to its end.
#[derive(Debug, PartialEq, Eq, Drop, Error)]
pub enum ParseFault {
    /// Out of memory.
    #[error("out of memory")]
    Memory,
    /// A line is refused.
    #[error("line {line} is refused: {refusal:?}", line = .0.line, refusal = .0.refusal)]
    Input(InputFault),
}

impl From<AllocError> for ParseFault {
    ghost from_gives = { λ _ e. e ≡ parse_fault.Memory };

    fn from(_error: AllocError) -> ParseFault {
        ParseFault::Memory
    }
}

/// The reason why a line isn't read.
#[derive(Drop)]
pub(crate) enum LineFault {
    Memory,
    Refused(InputRefusal),
}

impl LineFault {
    /// This fault, for the line with this number.
    pub(crate) fn on_line(self, line: u32) -> ParseFault
        ensures { result ≡ fault_on line self }
    {
        match self {
            LineFault::Memory => ParseFault::Memory,
            LineFault::Refused(refusal) => ParseFault::Input(InputFault { line, refusal }),
        }
    }
}

impl From<InputRefusal> for LineFault {
    ghost from_gives = { λ refusal e. e ≡ Refused refusal };

    fn from(refusal: InputRefusal) -> LineFault {
        LineFault::Refused(refusal)
    }
}

impl From<AllocError> for LineFault {
    ghost from_gives = { λ _ e. e ≡ Memory };

    fn from(_error: AllocError) -> LineFault {
        LineFault::Memory
    }
}

impl<T: Drop> From<AllocFailed<T>> for LineFault {
    ghost from_gives = { λ _ e. e ≡ Memory };

    fn from(_error: AllocFailed<T>) -> LineFault {
        LineFault::Memory
    }
}
