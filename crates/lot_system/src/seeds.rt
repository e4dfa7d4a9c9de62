//! The report over several plays of a program, each with another seed.
ghost use Rattle.std.specs.Prelude.{◌≡◌, [], ◌∷◌, ◌||◌, false, flat_map, true, IfOk, None, OnOk, Some};
ghost use Rattle.lot_io.specs.Writing.{Writes};
ghost use Rattle.lot_simulation.specs.Columns.{all_subjects};
ghost use Rattle.lot_simulation.specs.Seeded.{with_seed};
ghost use Rattle.lot_system.specs.Leaving.{any_ends_refused, ends_refused};
ghost use Rattle.lot_system.specs.Played.{Plays};
ghost use Rattle.lot_system.specs.Seeds as seeds_specs;
ghost use Rattle.lot_system.specs.Seeds.{AreAllFigures, AreMany, AreOverOneMore, figures_text, seeds_between};
ghost use Rattle.lot_system.specs.Seeds.{seeds_heading, seeds_report, subjects_in, subjects_over};
ghost use Rattle.lot_system.specs.declared.inputs.Played.TheVariants.{Done};
ghost use Rattle.lot_playback.specs.Stages.{HasMade};

use crate::figures::{AllFigures, add_play, most_of};
use crate::reports::note_ended;
use crate::summary::note_turns;
use crate::{Played, ReportForm};
use lot_io::{IoFault, Watched, flush};
use lot_playback::Playback;
use lot_print::{Figures, write_figures, write_figures_record, write_header, write_seeds};
use lot_program::{Program, Seed};
use lot_simulation::{Subject, Table, Warnings};
use std::alloc::{AllocError, Global};
use std::io::Write;

/// The seeds from `first` to `last`, or `first` alone if `last` is below it.
#[derive(Clone, Copy, Debug)]
pub struct Seeds {
    pub first: Seed,
    pub last: Seed,
}

/// Plays the program once with each of these seeds, and writes the mean, the least and the most of each figure of the
/// reports, in this form. It stores the warnings of the first play in `warnings`, and whether a refusal ended any play.
/// Fails with `Memory` before it has written anything, and with `Write` if the writer fails.
pub fn report_seeds<W: Write>(
    alloc: Global,
    program: &Program,
    seeds: &Seeds,
    form: ReportForm,
    warnings: &mut Warnings,
    writer: &mut Watched<W>,
) -> Result<Played, IoFault>
    requires { writer.old.failed ≡ false }
    ensures flushed { OnOk result (writer.new.flushed ≡ true) }
    ensures reported { Plays W.contents writer.old writer.new result Done
        (seeds_report form seeds.now.first seeds.now.last program.now) }
    ensures stopped { OnOk result (warnings.new.stopped ≡ (warnings.old.stopped
        || any_ends_refused program.now (seeds_between seeds.now.first seeds.now.last))) }
{
    let Ok(all) = figures_of(alloc, program, seeds, warnings) else {
        return Err(IoFault::Memory);
    };
    write_report(program, seeds, &all, form, writer)?;
    Ok(Played::Done)
}

/// The figures over a play with each of these seeds. It stores the warnings of the first play in `warnings`, and
/// whether a refusal ended any play.
fn figures_of(
    alloc: Global,
    program: &Program,
    seeds: &Seeds,
    warnings: &mut Warnings,
) -> Result<AllFigures, AllocError>
    ensures figures { IfOk result (AreAllFigures program.now (seeds_between seeds.now.first seeds.now.last)) }
    ensures stopped { OnOk result (warnings.new.stopped ≡ (warnings.old.stopped
        || any_ends_refused program.now (seeds_between seeds.now.first seeds.now.last))) }
{
    let mut all = AllFigures::over_no_plays(alloc, program)?;
    play_each(alloc, program, seeds, warnings, &mut all)?;
    Ok(all)
}

/// Plays the program once with each of these seeds, and adds the figures at the end of each play to `all`. It stores
/// the warnings of the first play in `warnings`, and whether a refusal ended any play.
fn play_each(
    alloc: Global,
    program: &Program,
    seeds: &Seeds,
    warnings: &mut Warnings,
    all: &mut AllFigures,
) -> Result<(), AllocError>
    requires { AreAllFigures program.now [] all.old }
    ensures figures { OnOk result
        (AreAllFigures program.now (seeds_between seeds.now.first seeds.now.last) all.new) }
    ensures stopped { OnOk result (warnings.new.stopped ≡ (warnings.old.stopped
        || any_ends_refused program.now (seeds_between seeds.now.first seeds.now.last))) }
{
    play_with(alloc, program, seeds.first, warnings, all)?;
    let mut unsaid = Warnings::none(alloc)?;
    play_others(alloc, program, seeds, &mut unsaid, all)?;
    warnings.stopped |= unsaid.stopped;
    Ok(())
}

/// Plays the program once with each of these seeds after the first, and adds the figures to those of the first play. It
/// stores in `warnings`, which have no refusal yet, whether one ended any of these plays.
fn play_others(
    alloc: Global,
    program: &Program,
    seeds: &Seeds,
    warnings: &mut Warnings,
    all: &mut AllFigures,
) -> Result<(), AllocError>
    requires first { AreAllFigures program.now (seeds.now.first ∷ []) all.old }
    requires unsaid { warnings.old.stopped ≡ false }
    ensures figures { OnOk result
        (AreAllFigures program.now (seeds_between seeds.now.first seeds.now.last) all.new) }
    ensures stopped { OnOk result
        ((ends_refused (with_seed (Some seeds.now.first) program.now) || warnings.new.stopped)
        ≡ any_ends_refused program.now (seeds_between seeds.now.first seeds.now.last)) }
{
    for number in seeds.first.number() + 1..seeds.last.number() + 1 {
        let Some(seed) = Seed::new(number) else {
            unreachable!();
        };
        play_with(alloc, program, seed, warnings, all)?;
    }
    Ok(())
}

/// Plays the program with this seed, and adds the figures at the end of the play.
fn play_with(
    alloc: Global,
    program: &Program,
    seed: Seed,
    warnings: &mut Warnings,
    all: &mut AllFigures,
) -> Result<(), AllocError>
    requires many { AreMany program.now all.old }
    ensures played { OnOk result (AreOverOneMore (with_seed (Some seed) program.now) all.old all.new) }
    ensures stopped { OnOk result (warnings.new.stopped
        ≡ (warnings.old.stopped || ends_refused (with_seed (Some seed) program.now))) }
{
    let program = seeded(alloc, program, seed)?;
    play_seeded(alloc, &program, warnings, all)
}

/// A copy of the program with this seed.
fn seeded(alloc: Global, program: &Program, seed: Seed) -> Result<Program, AllocError>
    ensures { IfOk result (λ seeded. seeded ≡ with_seed (Some seed) program.now) }
{
    program.copied(alloc)?.with_seed(alloc, Some(seed))
}

/// Plays the program with its own seed, and adds the figures at the end of the play.
fn play_seeded(
    alloc: Global,
    program: &Program,
    warnings: &mut Warnings,
    all: &mut AllFigures,
) -> Result<(), AllocError>
    requires many { AreMany program.now all.old }
    ensures played { OnOk result (AreOverOneMore program.now all.old all.new) }
    ensures stopped { OnOk result (warnings.new.stopped ≡ (warnings.old.stopped || ends_refused program.now)) }
{
    let playback = Playback::open(alloc, program)?;
    add_playback(program, playback, warnings, all);
    Ok(())
}

/// Makes the program's turns, from its first, and adds the figures at their end.
fn add_playback(
    program: &Program,
    mut playback: Playback,
    warnings: &mut Warnings,
    all: &mut AllFigures,
)
    requires none { playback.made ≡ 0 }
    requires made { HasMade program.now [] playback.seen }
    requires many { AreMany program.now all.old }
    ensures played { AreOverOneMore program.now all.old all.new }
    ensures stopped { warnings.new.stopped ≡ (warnings.old.stopped || ends_refused program.now) }
{
    note_turns(program, &mut playback, warnings);
    let (mut system, order) = playback.into_parts();
    add_play(all, program, &mut system, &order);
    note_ended(program, system, order, warnings);
}

/// The table of the program in this form, or `None` for lines.
fn table_of(form: ReportForm, program: &Program) -> Option<Table>
    ensures { result ≡ seeds_specs.table_of form program.now.duration }
{
    match (form, program.duration()) {
        (ReportForm::Lines, _) => None,
        (ReportForm::Table | ReportForm::CurrencyTable, None) => Some(Table::Schedule),
        (ReportForm::Table, Some(_)) => Some(Table::Timed),
        (ReportForm::CurrencyTable, Some(_)) => Some(Table::Currencies),
    }
}

/// Writes the first line, and the lines of each subject, or the rows of a table, and flushes.
fn write_report<W: Write>(
    program: &Program,
    seeds: &Seeds,
    all: &AllFigures,
    form: ReportForm,
    writer: &mut Watched<W>,
) -> Result<(), IoFault>
    requires are { AreAllFigures program.now (seeds_between seeds.now.first seeds.now.last) all.now }
    requires working { writer.old.failed ≡ false }
    ensures flushed { OnOk result (writer.new.flushed ≡ true) }
    ensures text { Writes W.contents writer.old writer.new result
        (seeds_report form seeds.now.first seeds.now.last program.now) }
{
    let table = table_of(form, program);
    write_heading(seeds, table, writer)?;
    write_lines(program, seeds, all, table, writer)?;
    flush(writer)
}

/// Writes the first line or row.
fn write_heading<W: Write>(
    seeds: &Seeds,
    table: Option<Table>,
    writer: &mut Watched<W>,
) -> Result<(), IoFault>
    requires { writer.old.failed ≡ false }
    ensures { Writes W.contents writer.old writer.new result
        (seeds_heading table seeds.now.first seeds.now.last) }
{
    match table {
        None => write_seeds(writer, seeds.first.number(), seeds.last.number()),
        Some(table) => write_header(writer, table, true),
    }
}

/// Writes the lines of all subjects, or the rows of the table's.
fn write_lines<W: Write>(
    program: &Program,
    seeds: &Seeds,
    all: &AllFigures,
    table: Option<Table>,
    writer: &mut Watched<W>,
) -> Result<(), IoFault>
    requires are { AreAllFigures program.now (seeds_between seeds.now.first seeds.now.last) all.now }
    requires working { writer.old.failed ≡ false }
    ensures { Writes W.contents writer.old writer.new result
        (flat_map (subjects_over table program.now (seeds_between seeds.now.first seeds.now.last))
        (subjects_in table)) }
{
    match table {
        None => write_all(program, seeds, all, writer),
        Some(table) => write_subjects(program, seeds, table.subject(), all, Some(table), writer),
    }
}

/// Writes the lines of all subjects.
fn write_all<W: Write>(
    program: &Program,
    seeds: &Seeds,
    all: &AllFigures,
    writer: &mut Watched<W>,
) -> Result<(), IoFault>
    requires are { AreAllFigures program.now (seeds_between seeds.now.first seeds.now.last) all.now }
    requires working { writer.old.failed ≡ false }
    ensures { Writes W.contents writer.old writer.new result
        (flat_map (subjects_over None program.now (seeds_between seeds.now.first seeds.now.last)) all_subjects) }
{
    let mut rest: &[Subject] = &Subject::ALL;
    while let [subject, others @ ..] = rest {
        write_subjects(program, seeds, *subject, all, None, writer)?;
        rest = others;
    }
    Ok(())
}

/// Writes the lines or rows of all subjects of this kind.
fn write_subjects<W: Write>(
    program: &Program,
    seeds: &Seeds,
    subject: Subject,
    all: &AllFigures,
    table: Option<Table>,
    writer: &mut Watched<W>,
) -> Result<(), IoFault>
    requires are { AreAllFigures program.now (seeds_between seeds.now.first seeds.now.last) all.now }
    requires working { writer.old.failed ≡ false }
    ensures { Writes W.contents writer.old writer.new result
        (subjects_over table program.now (seeds_between seeds.now.first seeds.now.last) subject) }
{
    let figures = all.of(subject);
    for place in 0..most_of(subject, program) {
        write_subject(subject, place + 1, &figures[place as usize], table, writer)?;
    }
    Ok(())
}

/// Writes the lines or the row of the subject with this number, if a play ended with it.
fn write_subject<W: Write>(
    subject: Subject,
    number: u32,
    figures: &Figures,
    table: Option<Table>,
    writer: &mut Watched<W>,
) -> Result<(), IoFault>
    requires { writer.old.failed ≡ false }
    ensures { Writes W.contents writer.old writer.new result (figures_text table subject number figures.now) }
{
    if figures.plays == 0 {
        return Ok(());
    }
    match table {
        None => write_figures(writer, subject, number, figures),
        Some(table) => write_figures_record(writer, table, number, figures),
    }
}
