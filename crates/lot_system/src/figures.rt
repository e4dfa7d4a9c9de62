//! The figures of all subjects over several plays.
ghost use Rattle.std.specs.Prelude.{◌≡◌, ◌<◌, [], IfOk, Some, length, replicate};
ghost use Rattle.lot_machine.specs.Bounds.{IsBetween};
ghost use Rattle.lot_engine.specs.Seen.{world_of};
ghost use Rattle.lot_simulation.specs.Report.{ticks_in, total_of, turns_made};
ghost use Rattle.lot_simulation.specs.declared.columns.Subject.{Subject as AnySubject};
ghost use Rattle.lot_system.specs.ReportTable as tables;
ghost use Rattle.lot_system.specs.Seeds as seeds;
ghost use Rattle.lot_system.specs.Seeds.{AreAllFigures, AreChanged, AreMany, IsChangedAt, IsEndingOf, IsOver};
ghost use Rattle.lot_system.specs.Seeds.{figures_after, figures_in, spreads_after, told_at_end};

use crate::cells::{number as cell, share};
use crate::told::{Ending, Told, ending_of, no_name, told_of};
use lot_engine::System;
use lot_playback::Order;
use lot_print::{Figures, Spread};
use lot_program::Program;
use lot_simulation::{COLUMNS, Cell, Subject};
use std::alloc::{AllocError, Global};

/// The figures over several plays: of threads, currencies, processors and all actors, each starting with number 1.
pub(crate) struct AllFigures {
    pub(crate) threads: Vec<Figures>,
    pub(crate) currencies: Vec<Figures>,
    pub(crate) processors: Vec<Figures>,
    pub(crate) total: Vec<Figures>,
}

impl Drop for AllFigures {
    // An explicit drop: code that drops an `AllFigures` is then proved without unfolding its fields.
    fn drop(self) {
        let Self {
            threads: _,
            currencies: _,
            processors: _,
            total: _,
        } = self;
    }
}

/// The spread over no plays.
const NO_SPREAD: Spread = Spread {
    plays: 0,
    told: false,
    sum: 0,
    least: 0,
    most: 0,
};

impl AllFigures {
    /// The program's figures before any play.
    pub(crate) fn over_no_plays(alloc: Global, program: &Program) -> Result<AllFigures, AllocError>
        ensures { IfOk result (AreAllFigures program.now []) }
    {
        Ok(AllFigures {
            threads: no_figures(alloc, most_of(Subject::Thread, program))?,
            currencies: no_figures(alloc, most_of(Subject::Currency, program))?,
            processors: no_figures(alloc, most_of(Subject::Processor, program))?,
            total: no_figures(alloc, most_of(Subject::Total, program))?,
        })
    }

    /// The figures of the subjects of this kind.
    pub(crate) fn of(&self, subject: Subject) -> &[Figures]
        ensures { result.now ≡ figures_in self.now subject }
    {
        match subject {
            Subject::Thread => self.threads.as_slice(),
            Subject::Currency => self.currencies.as_slice(),
            Subject::Processor => self.processors.as_slice(),
            Subject::Total => self.total.as_slice(),
        }
    }
}

/// The largest number of subjects of this kind that the program may have at once.
pub(crate) fn most_of(subject: Subject, program: &Program) -> u32
    ensures { result ≡ tables.most_of subject program.now }
{
    let limits = program.limits();
    match subject {
        Subject::Thread => limits.threads,
        Subject::Currency => limits.currencies,
        Subject::Processor => limits.processors,
        Subject::Total => 1,
    }
}

/// The figures of `count` subjects before any play.
fn no_figures(alloc: Global, count: u32) -> Result<Vec<Figures>, AllocError>
    ensures { IfOk result (λ figures. figures.items ≡ replicate count seeds.no_figures) }
{
    let mut figures = Vec::with_capacity(alloc, count as usize)?;
    for _ in 0..count {
        figures.push(Figures {
            name: no_name(),
            plays: 0,
            spreads: [NO_SPREAD; COLUMNS],
        })?;
    }
    Ok(figures)
}

/// Adds the figures at the end of a play of the program.
pub(crate) fn add_play(all: &mut AllFigures, program: &Program, system: &mut System, order: &Order)
    requires program { system.old.setting.program ≡ program.now }
    requires many { AreMany program.now all.old }
    requires over { IsOver system.old order.now }
    ensures same { system.new ≡ system.old }
    ensures added { (subject : AnySubject) →
        AreChanged (λ n. figures_after (told_at_end system.old order.now subject n))
        (figures_in all.old subject) (figures_in all.new subject) }
{
    let ending = ending_in(program, system, order);
    add_subjects(
        &mut all.threads,
        Subject::Thread,
        program,
        system,
        order,
        ending,
    );
    add_subjects(
        &mut all.currencies,
        Subject::Currency,
        program,
        system,
        order,
        ending,
    );
    add_subjects(
        &mut all.processors,
        Subject::Processor,
        program,
        system,
        order,
        ending,
    );
    add_subjects(
        &mut all.total,
        Subject::Total,
        program,
        system,
        order,
        ending,
    );
}

/// The end of a play; a schedule's has none.
fn ending_in(program: &Program, system: &mut System, order: &Order) -> Ending
    requires program { system.old.setting.program ≡ program.now }
    requires over { IsOver system.old order.now }
    ensures same { system.new ≡ system.old }
    ensures ending { IsEndingOf system.old order.now result }
{
    match order {
        Order::Scheduled(_) => Ending {
            time: 0,
            all_values: 0,
        },
        Order::InTime(timekeeper) => ending_of(program, system, timekeeper),
    }
}

/// Adds the figures of all subjects of this kind at the end of a play.
fn add_subjects(
    figures: &mut Vec<Figures>,
    subject: Subject,
    program: &Program,
    system: &mut System,
    order: &Order,
    ending: Ending,
)
    requires program { system.old.setting.program ≡ program.now }
    requires count { length figures.old.items ≡ tables.most_of subject program.now }
    requires over { IsOver system.old order.now }
    requires ending { IsEndingOf system.old order.now ending }
    ensures same { system.new ≡ system.old }
    ensures added { AreChanged (λ n. figures_after (told_at_end system.old order.now subject n))
        figures.old.items figures.new.items }
{
    for place in 0..most_of(subject, program) {
        let told = told_at(system, order, ending, subject, place + 1);
        add_told(figures, place as usize, told);
    }
}

/// What the report tells of the subject with this number, if it exists.
fn told_at(
    system: &mut System,
    order: &Order,
    ending: Ending,
    subject: Subject,
    number: u32,
) -> Option<Told>
    requires over { IsOver system.old order.now }
    requires ending { IsEndingOf system.old order.now ending }
    requires there { IsBetween 1 (tables.most_of subject system.old.setting.program) number }
    ensures same { system.new ≡ system.old }
    ensures told { result ≡ told_at_end system.old order.now subject number }
{
    match order {
        Order::Scheduled(_) => scheduled_told(system, subject, number),
        Order::InTime(timekeeper) => told_of(system, timekeeper, ending, subject, number),
    }
}

/// What the report of a schedule tells of the subject with this number: of threads alone.
fn scheduled_told(system: &mut System, subject: Subject, thread: u32) -> Option<Told>
    ensures same { system.new ≡ system.old }
    ensures told { result ≡ seeds.scheduled_told (world_of system.old).state
        (total_of ticks_in (turns_made system.old.setting.program system.old.history)) subject thread }
{
    match subject {
        Subject::Thread => {
            let row = system.thread_row(thread)?;
            let all_ticks = u128::from(system.total().ticks);
            let cells = [
                cell(row.quanta),
                cell(row.ticks),
                share(row.ticks, all_ticks),
            ];
            Some(Told::new(row.name, &cells))
        }
        Subject::Currency | Subject::Processor | Subject::Total => None,
    }
}

/// Adds what a play tells to the figures at this place.
fn add_told(figures: &mut Vec<Figures>, place: usize, told: Option<Told>)
    requires { place < length figures.old.items }
    ensures { IsChangedAt place (figures_after told) figures.old.items figures.new.items }
{
    if let Some(told) = told {
        add_cells(&mut figures[place], told);
    }
}

/// Adds a play's name and cells.
fn add_cells(figures: &mut Figures, told: Told)
    ensures { figures.new ≡ figures_after (Some told) figures.old }
{
    figures.name = told.name;
    figures.plays = figures.plays.saturating_add(1);
    add_spreads(&mut figures.spreads, told.cells.as_slice());
}

/// Adds the cells of one more play to the spreads of the first columns.
fn add_spreads(spreads: &mut [Spread; COLUMNS], cells: &[Cell])
    ensures { spreads.new ≡ spreads_after spreads.old cells.now }
{
    for place in 0..COLUMNS.min(cells.len()) {
        spreads[place] = spread_after(spreads[place], cells[place]);
    }
}

/// The spread with this cell of one more play.
fn spread_after(spread: Spread, told: Cell) -> Spread
    ensures { result ≡ seeds.spread_after spread told }
{
    match told {
        Cell::Empty => spread,
        Cell::Unsaid => spread_with(spread, false, 0),
        Cell::Figure(figure) => spread_with(spread, true, figure),
    }
}

/// The spread with this figure of one more play, whose line tells it or doesn't.
fn spread_with(spread: Spread, told: bool, figure: u128) -> Spread
    ensures { result ≡ seeds.spread_with spread told figure }
{
    Spread {
        plays: spread.plays.saturating_add(1),
        told: spread.told || told,
        sum: spread.sum.saturating_add(figure),
        least: if spread.plays == 0 {
            figure
        } else {
            spread.least.min(figure)
        },
        most: spread.most.max(figure),
    }
}
