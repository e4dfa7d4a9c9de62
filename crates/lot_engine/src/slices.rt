//! The slice of a work.
ghost use Rattle.std.specs.Prelude.{◌≡◌, ◌↔◌, length, IfErr, IfOk, IsTrue};
ghost use Rattle.lot_machine.specs.Bounds.{IsBetween};
ghost use Rattle.lot_script.specs.Drafts.{IsScript};
ghost use Rattle.lot_engine.specs.Held.{script_lines};
ghost use Rattle.lot_engine.specs.Turns.{IsFresh, IsSliceOf, Matches};
ghost use Rattle.lot_engine.specs.Fitting.{FitsIn, IsStale};

use crate::known::known;
use crate::turn::KeptWork;
use crate::{System, TurnFault, Work};
use lot_machine::Sizes;
use lot_program::Program;
use lot_script::{Script, Slice};

/// The slice of the work in the given program, as `System::turn` needs it; `None` without a work. Fails with `Stale`
/// and the work if the work doesn't fit the program.
pub fn slice_for(program: &Program, work: Option<Work>) -> Result<Option<Slice<'_>>, TurnFault>
    ensures ok { IfOk result (λ slice. Matches program.now work slice) }
    ensures err { IfErr result (λ fault. IsStale program.now work fault) }
{
    let Some(work) = work else {
        return Ok(None);
    };
    if !fits(program, &work) {
        return Err(TurnFault::Stale(Some(work)));
    }
    Ok(Some(slice_of(program, work)))
}

/// The slice of a work that fits the program.
#[inline(always)]
pub(crate) fn slice_of(program: &Program, work: Work) -> Slice<'_>
    requires { FitsIn program.now work }
    ensures { IsSliceOf program.now work result }
{
    script_numbered(program, work.script).slice(work.place, work.budget)
}

/// The slice of a work that fits the program, from the place in the system's own table. It allocates nothing.
#[inline(always)]
pub(crate) fn slice_of_kept<'a>(program: &'a Program, work: &KeptWork<'_>) -> Slice<'a>
    requires { FitsIn program.now work.now }
    ensures { IsSliceOf program.now work.now result }
{
    script_numbered(program, work.script).slice(work.place.copied(), work.budget)
}

/// The slice of the actor's work, if it has one.
#[inline(always)]
pub fn slice_in<'a>(system: &System, program: &'a Program, actor: u32) -> Option<Slice<'a>>
    requires { system.now.setting.program ≡ program.now }
    ensures { IsFresh system.now actor result }
{
    match system.kept_work(actor) {
        Some(work) => Some(slice_of_kept(program, &work)),
        None => None,
    }
}

/// Whether the program has the work's script, its place fits that script, and its budget is 1 to 1000 ticks.
fn fits(program: &Program, work: &Work) -> bool
    ensures { IsTrue result ↔ FitsIn program.now work.now }
{
    has_script(program, work.script)
        && script_numbered(program, work.script).fits(&work.place)
        && (1..=Sizes::LARGEST.quantum).contains(&work.budget)
}

/// Whether the program has a script with this number.
fn has_script(program: &Program, number: u32) -> bool
    ensures { IsTrue result ↔ IsBetween 1 (length program.now.scripts) number }
{
    0 < number && number as usize <= program.scripts().len()
}

#[inline(always)]
pub(crate) fn script_numbered(program: &Program, number: u32) -> &Script
    requires { IsBetween 1 (length program.now.scripts) number }
    ensures lines { result.now ≡ script_lines program.now number }
    ensures legal { IsScript result.now }
{
    let script = &program.scripts()[number as usize - 1];
    known(script.lines());
    script
}
