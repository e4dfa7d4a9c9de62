//! The faults of refused inputs.
ghost use Rattle.std.specs.Prelude.{◌≡◌, Err, IfOk, MatchOption, Ok};
ghost use Rattle.lot_simulation.specs.Grammar.{program_in};
ghost use Rattle.lot_simulation.specs.World.{Program as ProgramRecord};

use lot_simulation::InputFault;
use lot_text::{ParseFault, parse};
use std::alloc::{AllocError, Global};

/// The fault of a refused input, or `None` for an accepted one. Fails only if out of memory.
pub fn fault_of(alloc: Global, bytes: &[u8]) -> Result<Option<InputFault>, AllocError>
    ensures { IfOk result (λ fault. MatchOption fault ((program : ProgramRecord)
        × (program_in bytes.now ≡ Ok program)) (λ f. program_in bytes.now ≡ Err f)) }
{
    match parse(alloc, bytes) {
        Ok(_) => Ok(None),
        Err(ParseFault::Input(fault)) => Ok(Some(fault)),
        Err(ParseFault::Memory) => Err(AllocError),
    }
}
