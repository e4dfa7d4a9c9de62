//! The state of reading an input.
ghost use Rattle.std.specs.Prelude.{◌≡◌, ℕ, ◌<◌, ◌≤◌, max, false, All, length, map, option_map, position, unwrap_or};
ghost use Rattle.std.specs.Prelude.{[], IfErr, IfOk, IfSome, IsTrue, Ok, OnOk, Some, if◌then◌else◌};
ghost use Rattle.std.specs.Arc.{arc_slice_items};
ghost use Rattle.std.specs.List.{range_with_len};
ghost use Rattle.std.specs.Option.{ForSome};
ghost use Rattle.std.specs.Str.{bytes_eq};
ghost use Rattle.lot_machine.specs.Bounds.{IsBetween};
ghost use Rattle.lot_machine.specs.Lottery.{mixed_seed};
ghost use Rattle.lot_simulation.specs.Grammar.{add_runs as add_runs_read, add_named as add_named_read};
ghost use Rattle.lot_simulation.specs.Grammar.{add_naming as add_naming_read, closed_program};
ghost use Rattle.lot_simulation.specs.Grammar.{lacks_duration as lacks_duration_read, limits_of};
ghost use Rattle.lot_simulation.specs.Grammar.{is_after_seed as is_after_seed_read, is_given as is_given_read};
ghost use Rattle.lot_simulation.specs.Grammar.{has_line as has_line_read, is_late as is_late_read, program_of};
ghost use Rattle.lot_simulation.specs.Grammar.{script_names, whole_program, with_header_word};
ghost use Rattle.lot_simulation.specs.Formats.{is_timed, unit_of};
ghost use Rattle.lot_simulation.specs.Reading.{number_named, opening_reading};
ghost use Rattle.lot_simulation.specs.Words.{header_place};
ghost use Rattle.lot_machine.specs.State.{sizes_of};
ghost use Rattle.lot_text.specs.Faults.{Gives, IsFaultOf};
ghost use Rattle.lot_program.specs.Parts.{AreSeeds};
ghost use Rattle.lot_text.specs.Readings.{after_header};

use crate::ParseFault;
use crate::fault::LineFault;
use crate::name::new_name;
use crate::runs::{ActorRun, actors_of, have_room};
use lot_machine::{Command, Limits, Name, Sizes};
use lot_program::{CommandList, Commands, Parts, Program};
use lot_script::{Script, ScriptBuilder};
use lot_simulation::{Format, HEADER_WORDS, HeaderWord, InputFault, InputRefusal, Options};
use std::alloc::{AllocError, Global};
use std::marker::Model;
use std::mem;
use std::sync::ArcSlice;

/// A closed script.
#[derive(Drop)]
pub(crate) struct NamedScript {
    pub(crate) name: Name,
    pub(crate) script: Script,
}

impl Model for NamedScript {
    ghost use Rattle.lot_simulation.specs.Reading.{NamedScript as NamedScriptRecord};

    ghost Value = { NamedScriptRecord };

    ghost view = { λ s. record { name = s.name; lines = s.script } };
}

/// An open script: the line where it begins, and its lines so far.
#[derive(Drop)]
pub(crate) struct OpenScript {
    pub(crate) name: Name,
    pub(crate) begins: u32,
    pub(crate) builder: ScriptBuilder,
}

impl Model for OpenScript {
    ghost use Rattle.lot_simulation.specs.Reading.{OpenScript as OpenScriptRecord};

    ghost Value = { OpenScriptRecord };

    ghost view = { λ s. record { name = s.name; begins = s.begins; lines = s.builder.lines; loops = s.builder.loops } };
}

/// The place of the body, after those of the header's lines.
pub(crate) const BODY: u32 = HEADER_WORDS.len() as u32;

/// The largest number of entries in a schedule.
pub(crate) const MOST_ENTRIES: usize = 1000000;

/// The largest number of names that tickets can have.
const MOST_TICKET_NAMES: usize = 4096;

/// The state after some lines of an input.
pub(crate) struct Reading {
    /// The place of the last header line, or 0 in a timed input; from the body on, the body's place.
    pub(crate) place: u32,
    /// The words of the header lines so far.
    pub(crate) given: Vec<HeaderWord>,
    pub(crate) format: Format,
    pub(crate) processors: u32,
    pub(crate) quantum: u32,
    pub(crate) turns: u32,
    pub(crate) duration: Option<u32>,
    pub(crate) seeds: Option<Vec<u32>>,
    pub(crate) tickets: u32,
    pub(crate) currencies: u32,
    pub(crate) threads: u32,
    pub(crate) options: Options,
    pub(crate) ports: Vec<Name>,
    pub(crate) mutexes: Vec<Name>,
    pub(crate) scripts: Vec<NamedScript>,
    pub(crate) unclosed: Option<OpenScript>,
    pub(crate) commands: CommandList,
    /// The time of the next commands.
    pub(crate) time: u32,
    /// The times of the commands so far, in a timed input.
    pub(crate) times: Vec<u32>,
    /// The names that tickets can have.
    pub(crate) ticket_names: Vec<Name>,
    /// The number of the name that each command so far has for its ticket, in a timed input.
    pub(crate) names: Vec<Option<u16>>,
    pub(crate) schedule: Vec<u8>,
}

impl Drop for Reading {
    // An explicit drop: code that drops a `Reading` is then proved without unfolding its fields.
    fn drop(self) {
        let Self {
            place: _,
            given: _,
            format: _,
            processors: _,
            quantum: _,
            turns: _,
            duration: _,
            seeds: _,
            tickets: _,
            currencies: _,
            threads: _,
            options: _,
            ports: _,
            mutexes: _,
            scripts: _,
            unclosed: _,
            commands: _,
            time: _,
            times: _,
            ticket_names: _,
            names: _,
            schedule: _,
        } = self;
    }
}

impl Model for Reading {
    ghost use Rattle.lot_simulation.specs.Reading.{Reading as ReadingRecord};

    ghost Value = { ReadingRecord };

    ghost use Rattle.lot_text.specs.ReadingFields.{reading_of};
    ghost use Rattle.lot_text.specs.Readings.{IsReading};

    ghost view = { reading_of };

    ghost invariant = { λ r. IsReading (reading_of r) };
}

impl Reading {
    /// The state after the first line, which gives the format.
    pub(crate) fn new(alloc: Global, format: Format) -> Self
        ensures { result ≡ opening_reading (is_timed format) (unit_of format) }
    {
        Reading {
            place: 0,
            given: Vec::new(alloc),
            format,
            processors: 1,
            quantum: 100,
            turns: 0,
            duration: None,
            seeds: None,
            tickets: Sizes::LARGEST.tickets,
            currencies: Sizes::LARGEST.currencies,
            threads: Sizes::LARGEST.threads,
            options: Options::NONE,
            ports: Vec::new(alloc),
            mutexes: Vec::new(alloc),
            scripts: Vec::new(alloc),
            unclosed: None,
            commands: CommandList::new(alloc),
            time: 0,
            times: Vec::new(alloc),
            ticket_names: Vec::new(alloc),
            names: Vec::new(alloc),
            schedule: Vec::new(alloc),
        }
    }

    /// Whether the duration, which a timed input must give, is still missing.
    pub(crate) fn lacks_duration(&self) -> bool
        ensures { result ≡ lacks_duration_read self.now }
    {
        self.format.is_timed() && self.duration.is_none()
    }

    /// Whether a header line with this word comes too late.
    pub(crate) fn is_late(&self, word: HeaderWord) -> bool
        ensures { result ≡ is_late_read self.now word }
    {
        word.place() <= self.place || self.is_given(word) || self.is_after_seed(word)
    }

    /// Whether the word was given and can't come again. `without` can come again, with its other word.
    fn is_given(&self, word: HeaderWord) -> bool
        ensures { result ≡ is_given_read self.now word }
    {
        match word {
            HeaderWord::Without => false,
            _ => self.has_line(word),
        }
    }

    /// Whether the header has a line with this word.
    fn has_line(&self, word: HeaderWord) -> bool
        ensures { result ≡ has_line_read self.now word }
    {
        let place = word.place();
        self.given.iter().any(|given| given.place() == place)
    }

    /// Whether the word is `processors` after `seed`.
    fn is_after_seed(&self, word: HeaderWord) -> bool
        ensures { result ≡ is_after_seed_read self.now word }
    {
        match word {
            HeaderWord::Processors => self.seeds.is_some(),
            _ => false,
        }
    }

    /// Adds the word of a header line. After it only a timed input may have the words before it.
    pub(crate) fn add_header_word(&mut self, word: HeaderWord) -> Result<(), AllocError>
        requires { 0 < header_place word }
        ensures { OnOk result (self.new ≡ with_header_word self.old word) }
    {
        self.given.push(word)?;
        if !self.format.is_timed() {
            self.place = word.place();
        }
        Ok(())
    }

    /// Adds a command that makes a ticket with this name, which must be new. It ends the header.
    pub(crate) fn add_named(&mut self, token: &[u8], command: Command) -> Result<(), LineFault>
        ensures { Gives self.new result (after_header (add_named_read self.old token.now command)) }
    {
        let name = new_name(self.ticket_names.as_slice(), token)?;
        if MOST_TICKET_NAMES <= self.ticket_names.len() {
            return Err(LineFault::Refused(InputRefusal::TooLong));
        }
        self.ticket_names.push(name)?;
        let number = self.ticket_names.len() as u16;
        self.add_naming(Some(number), command)
    }

    /// Adds a command, with the number of the name that it has for its ticket. It ends the header.
    pub(crate) fn add_naming(
        &mut self,
        name: Option<u16>,
        command: Command,
    ) -> Result<(), LineFault>
        ensures { Gives self.new result (after_header (add_naming_read self.old name command)) }
    {
        if 100000 <= self.commands.len() {
            return Err(LineFault::Refused(InputRefusal::TooLong));
        }
        if self.format.is_timed() {
            return self.add_timed_command(name, command);
        }
        self.commands.push(command)?;
        self.place = BODY;
        Ok(())
    }

    /// Adds a command of a timed input.
    fn add_timed_command(&mut self, name: Option<u16>, command: Command) -> Result<(), LineFault>
        requires timed { IsTrue self.old.is_timed }
        requires room { length self.old.commands < 100000 }
        ensures { Gives self.new result (after_header (add_naming_read self.old name command)) }
    {
        self.times.reserve(1)?;
        self.names.reserve(1)?;
        self.commands.push(command)?;
        self.times.push_reserved(self.time);
        self.names.push_reserved(name);
        self.place = BODY;
        Ok(())
    }

    /// Adds these runs to the schedule, which ends the header.
    pub(crate) fn add_runs(&mut self, alloc: Global, runs: &[ActorRun]) -> Result<(), LineFault>
        requires { All (λ run. run.actor ≤ self.old.processors) runs.now }
        ensures { Gives self.new result (after_header (add_runs_read self.old runs.now)) }
    {
        if !have_room(runs, MOST_ENTRIES - self.schedule.len()) {
            return Err(LineFault::Refused(InputRefusal::TooLong));
        }
        let actors = actors_of(alloc, runs)?;
        self.schedule.extend_from_slice(actors.as_slice())?;
        self.place = BODY;
        Ok(())
    }

    /// The number of the script with this name, or 0 if there is none so far.
    pub(crate) fn script_number(&self, name: &[u8]) -> u32
        ensures { result ≡ unwrap_or (number_named (script_names self.now) name.now) 0 }
    {
        match place_named(self.scripts.as_slice(), name) {
            Some(place) => place as u32 + 1,
            None => 0,
        }
    }

    /// The limits in the header.
    fn limits(&self) -> Limits
        ensures { sizes_of result ≡ limits_of self.now }
    {
        let sizes = Sizes {
            tickets: self.tickets,
            currencies: self.currencies,
            threads: self.threads,
            ports: self.ports.len() as u32,
            mutexes: self.mutexes.len() as u32,
            processors: self.processors,
            scripts: self.scripts.len() as u32,
            quantum: self.quantum,
            unit: self.format.unit(),
            reuse: self.options.reuse,
            plain_names: false,
            without_compensation: self.options.without_compensation,
            without_lending: self.options.without_lending,
            queued_lend: false,
        };
        Limits::new(sizes).unwrap()
    }

    /// The program. Fails if a script is open, or if a timed input gave no duration; `last` is the last line's number.
    pub(crate) fn into_program(self, alloc: Global, last: u32) -> Result<Program, ParseFault>
        ensures program { (count : ℕ) → last ≡ max 1 count
            → IfOk result (λ program. whole_program count (Some self) ≡ Ok program) }
        ensures fault { (count : ℕ) → last ≡ max 1 count → IfErr result (IsFaultOf (whole_program count (Some self))) }
    {
        if self.lacks_duration() {
            return Err(ParseFault::Input(InputFault {
                line: last,
                refusal: InputRefusal::BadHeader,
            }));
        }
        self.into_closed(alloc)
    }

    /// The program. Fails if a script is open.
    fn into_closed(self, alloc: Global) -> Result<Program, ParseFault>
        requires { lacks_duration_read self ≡ false }
        ensures program { IfOk result (λ program. closed_program self self.unclosed ≡ Ok program) }
        ensures fault { IfErr result (IsFaultOf (closed_program self self.unclosed)) }
    {
        let unclosed = &self.unclosed;
        if let Some(script) = unclosed {
            return Err(ParseFault::Input(InputFault {
                line: script.begins,
                refusal: InputRefusal::OpenScript,
            }));
        }
        let mut reading = self;
        Ok(reading.take_program(alloc)?)
    }

    /// The program, whose scripts are all closed. It moves seeds, scripts and tables out of the reading.
    fn take_program(&mut self, alloc: Global) -> Result<Program, AllocError>
        requires { lacks_duration_read self.old ≡ false }
        ensures { IfOk result (λ program. program ≡ program_of self.old) }
    {
        let limits = self.limits();
        let ticket_names = self.ticket_names.len() as u32;
        let format = self.format;
        let turns = self.turns;
        let duration = self.duration;
        let options = self.options;
        let seeds = seeds_or_own(alloc, self.seeds.take(), self.processors, format)?;
        let scripts = without_names(alloc, mem::replace(&mut self.scripts, Vec::new(alloc)))?;
        let tables = self.take_tables(alloc)?;
        Ok(Program::new(Parts {
            format,
            limits,
            seeds,
            turns,
            scripts,
            commands: tables.commands,
            schedule: tables.schedule,
            duration,
            times: tables.times,
            ticket_names,
            names: tables.names,
            options,
        }))
    }

    /// The tables that copies of the program share, moved out of the reading.
    fn take_tables(&mut self, alloc: Global) -> Result<SharedTables, AllocError>
        ensures left { self.new ≡ record self.old { commands = []; schedule = []; times = []; names = [] } }
        ensures commands { IfOk result (λ tables. tables.commands ≡ self.old.commands) }
        ensures schedule { IfOk result (λ tables. arc_slice_items tables.schedule ≡ self.old.schedule) }
        ensures times { IfOk result (λ tables. arc_slice_items tables.times ≡ self.old.times) }
        ensures names { IfOk result (λ tables. arc_slice_items tables.names ≡ self.old.names) }
    {
        shared(
            mem::replace(&mut self.commands, CommandList::new(alloc)),
            mem::replace(&mut self.schedule, Vec::new(alloc)),
            mem::replace(&mut self.times, Vec::new(alloc)),
            mem::replace(&mut self.names, Vec::new(alloc)),
        )
    }
}

/// The tables that copies of a program share.
#[derive(Drop)]
struct SharedTables {
    commands: Commands,
    schedule: ArcSlice<u8>,
    times: ArcSlice<u32>,
    names: ArcSlice<Option<u16>>,
}

/// These tables, in shared memory.
fn shared(
    commands: CommandList,
    schedule: Vec<u8>,
    times: Vec<u32>,
    names: Vec<Option<u16>>,
) -> Result<SharedTables, AllocError>
    ensures commands { IfOk result (λ tables. tables.commands ≡ commands) }
    ensures schedule { IfOk result (λ tables. arc_slice_items tables.schedule ≡ schedule.items) }
    ensures times { IfOk result (λ tables. arc_slice_items tables.times ≡ times.items) }
    ensures names { IfOk result (λ tables. arc_slice_items tables.names ≡ names.items) }
{
    Ok(SharedTables {
        commands: commands.into_commands()?,
        schedule: ArcSlice::from_vec(schedule)?,
        times: ArcSlice::from_vec(times)?,
        names: ArcSlice::from_vec(names)?,
    })
}

/// The index of the first script with this name.
fn place_named(scripts: &[NamedScript], name: &[u8]) -> Option<usize>
    ensures place { result ≡ position (λ s. bytes_eq name.now s.name) scripts.now }
    ensures within { IfSome result (λ place. place < length scripts.now) }
{
    scripts.iter().position(|s| name == s.name.as_bytes())
}

/// The input's seeds. Without them processor p has seed p, or its mixed seed in a timed input.
fn seeds_or_own(
    alloc: Global,
    given: Option<Vec<u32>>,
    processors: u32,
    format: Format,
) -> Result<Vec<u32>, AllocError>
    requires given { ForSome given (λ s. AreSeeds processors s.items) }
    requires processors { IsBetween 1 64 processors }
    ensures seeds { IfOk result (λ s. AreSeeds processors s.items) }
    ensures read { IfOk result (λ s. s.items
        ≡ unwrap_or (option_map (λ g. g.items) given) (if is_timed format
        then map mixed_seed (range_with_len 1 processors) else range_with_len 1 processors)) }
{
    match given {
        Some(seeds) => Ok(seeds),
        None if format.is_timed() => mixed_seeds(alloc, processors),
        None => own_seeds(alloc, processors),
    }
}

/// A distinct mixed seed for each processor, so that they don't draw in lock step.
fn mixed_seeds(alloc: Global, processors: u32) -> Result<Vec<u32>, AllocError>
    requires { IsBetween 1 64 processors }
    ensures seeds { IfOk result (λ s. AreSeeds processors s.items) }
    ensures mixed { IfOk result (λ s. s.items ≡ map mixed_seed (range_with_len 1 processors)) }
{
    let mut seeds = Vec::new(alloc);
    let mut seed = 1u32;
    for _ in 0..processors {
        seed = (u64::from(seed) * 48271 % 2147483647) as u32;
        seeds.push(seed)?;
    }
    Ok(seeds)
}

/// The number of each processor as its seed.
fn own_seeds(alloc: Global, processors: u32) -> Result<Vec<u32>, AllocError>
    requires { IsBetween 1 64 processors }
    ensures seeds { IfOk result (λ s. AreSeeds processors s.items) }
    ensures own { IfOk result (λ s. s.items ≡ range_with_len 1 processors) }
{
    let mut seeds = Vec::new(alloc);
    for processor in 0..processors {
        seeds.push(processor + 1)?;
    }
    Ok(seeds)
}

/// The scripts without their names.
fn without_names(alloc: Global, named: Vec<NamedScript>) -> Result<Vec<Script>, AllocError>
    ensures { IfOk result (λ scripts. scripts.items ≡ map (λ s. s.lines) named.items) }
{
    let mut scripts = Vec::new(alloc);
    for script in named {
        scripts.push(script.script)?;
    }
    Ok(scripts)
}
