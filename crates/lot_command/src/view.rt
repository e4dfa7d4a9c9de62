//! The views of an input's turns.
ghost use Rattle.std.specs.Prelude.{◌≡◌, ◌||◌, false, true, IfOk, OnOk};
ghost use Rattle.lot_simulation.specs.Grammar.{program_in};
ghost use Rattle.lot_system.specs.Played.{Plays, PlaysInput, came_of};
ghost use Rattle.lot_system.specs.declared.inputs.Played.TheVariants.{Done};
ghost use Rattle.lot_command.specs.Statuses.{HasCome};
ghost use Rattle.lot_command.specs.Views.{input_ends_refused, text_of, view_ends_refused, view_of};

use crate::command_line::{Showing, View};
use crate::diagnostics::Diagnostics;
use crate::run::InputRunFault;
use lot_chart::{chart_program, shares_program};
use lot_explain::explain_program;
use lot_io::{IoFault, Watched, read_input};
use lot_program::Program;
use lot_simulation::Warnings;
use lot_system::{Played, play_program, refuse, report_program, report_seeds};
use lot_text::{ParseFault, parse_seeded};
use std::alloc::Global;
use std::io::{Read, Write};

/// Writes this view of the input of this reader, with this title for a picture. It returns the outcome of the input, or
/// why it failed, and stores diagnostics in `diagnostics`.
pub(crate) fn shown<R: Read, W: Write>(
    alloc: Global,
    showing: &Showing,
    title: &str,
    diagnostics: &mut Diagnostics,
    reader: &mut Watched<R>,
    writer: &mut Watched<W>,
) -> Result<Played, InputRunFault>
    requires { (reader.old.failed ≡ false) × (writer.old.failed ≡ false) }
    ensures { IfOk result (HasCome showing.now.view showing.now.seed
        (R.remaining reader.old.inner) (R.remaining reader.new.inner)
        diagnostics.old.warnings.stopped diagnostics.new.warnings.stopped) }
{
    match show(alloc, showing, title, diagnostics, reader, writer) {
        Ok(came) => Ok(came),
        Err(fault) => Err(InputRunFault::Play(fault)),
    }
}

/// Reads an input, makes its turns, and writes this view of them, with this title for a picture; or one line for a
/// refused input. It stores diagnostics in `diagnostics`, and whether a refusal ended the play.
fn show<R: Read, W: Write>(
    alloc: Global,
    showing: &Showing,
    title: &str,
    diagnostics: &mut Diagnostics,
    reader: &mut Watched<R>,
    writer: &mut Watched<W>,
) -> Result<Played, IoFault>
    requires { (reader.old.failed ≡ false) × (writer.old.failed ≡ false) }
    ensures plays { PlaysInput (text_of showing.now.view title.now showing.now.seed)
        R.remaining reader.old reader.new W.contents writer.old writer.new result }
    ensures came { IfOk result (HasCome showing.now.view showing.now.seed
        (R.remaining reader.old.inner) (R.remaining reader.new.inner)
        diagnostics.old.warnings.stopped diagnostics.new.warnings.stopped) }
{
    let bytes = read_input(alloc, reader)?;
    show_bytes(alloc, showing, title, bytes, diagnostics, writer)
}

/// Makes the turns of the input in `bytes`, and writes this view of them, or the line for a refused input. It stores
/// the input and the run's warnings in `diagnostics`, and whether a refusal ended the play.
#[tactic(auto, using(crate::proofs::GivenSeeds::came_seeded))]
fn show_bytes<W: Write>(
    alloc: Global,
    showing: &Showing,
    title: &str,
    bytes: Vec<u8>,
    diagnostics: &mut Diagnostics,
    writer: &mut Watched<W>,
) -> Result<Played, IoFault>
    requires { writer.old.failed ≡ false }
    ensures flushed { OnOk result (writer.new.flushed ≡ true) }
    ensures shown { Plays W.contents writer.old writer.new result (came_of (program_in bytes.items))
        (text_of showing.now.view title.now showing.now.seed bytes.items) }
    ensures stopped { OnOk result (diagnostics.new.warnings.stopped ≡ (diagnostics.old.warnings.stopped
        || input_ends_refused showing.now.view showing.now.seed bytes.items)) }
{
    match parse_seeded(alloc, showing.seed, bytes.as_slice()) {
        Ok(program) => {
            diagnostics.keep_played(bytes);
            let warnings = &mut diagnostics.warnings;
            show_program(alloc, &showing.view, title, &program, warnings, writer)
        }
        Err(ParseFault::Memory) => Err(IoFault::Memory),
        Err(ParseFault::Input(fault)) => {
            diagnostics.input = bytes;
            refuse(fault, writer)
        }
    }
}

/// Makes the program's turns, and writes this view of them. It stores the run's warnings in `warnings`, and whether a
/// refusal ended the play.
fn show_program<W: Write>(
    alloc: Global,
    view: &View,
    title: &str,
    program: &Program,
    warnings: &mut Warnings,
    writer: &mut Watched<W>,
) -> Result<Played, IoFault>
    requires { writer.old.failed ≡ false }
    ensures flushed { OnOk result (writer.new.flushed ≡ true) }
    ensures shown { Plays W.contents writer.old writer.new result Done
        (view_of view.now title.now program.now) }
    ensures stopped { OnOk result (warnings.new.stopped
        ≡ (warnings.old.stopped || view_ends_refused view.now program.now)) }
{
    match view {
        View::Play => play_program(alloc, program, warnings, writer),
        View::Report { seeds: None, form } => {
            report_program(alloc, program, *form, warnings, writer)
        }
        View::Report {
            seeds: Some(seeds),
            form,
        } => report_seeds(alloc, program, seeds, *form, warnings, writer),
        View::Explain(detail) => explain_program(alloc, *detail, program, warnings, writer),
        View::Shares {
            measure,
            interval,
            window,
        } => shares_program(
            alloc, *measure, *interval, *window, program, warnings, writer,
        ),
        View::Chart {
            by,
            interval,
            window,
        } => chart_program(
            alloc, *by, title, *interval, *window, program, warnings, writer,
        ),
    }
}
