//! The possible ends of a run, and its output by then. It is among the tests, since the crate would prove it a second
//! time as a library.
ghost use Rattle.std.specs.Prelude.{◌≡◌, ◌<◌, ◌↔◌, ◌⊎◌, Err, IsTrue, Ok};
ghost use Rattle.lot_io.specs.declared.fault.IoFault.TheVariants as faults;
ghost use Rattle.lot_system.specs.declared.inputs.Played.TheVariants as came;

use lot_io::IoFault;
use lot_system::Played;

/// Whether a run was played to its end and wrote something, or lacked memory and wrote nothing.
pub(crate) fn has_written_or_lacked_memory(ended: Result<Played, IoFault>, written: usize) -> bool
    ensures { IsTrue result ↔ (((ended ≡ Ok came.Done) × (0 < written))
        ⊎ ((ended ≡ Err faults.Memory) × (written ≡ 0))) }
{
    match ended {
        Ok(Played::Done) => written > 0,
        Err(IoFault::Memory) => written == 0,
        _ => false,
    }
}
