//! A program, which the engine plays.
ghost use Rattle.std.specs.Prelude.{◌≡◌, is_some, map, IfOk};
ghost use Rattle.lot_machine.specs.State.{sizes_of};
ghost use Rattle.lot_simulation.specs.Formats.{is_timed, unit_of};
ghost use Rattle.lot_simulation.specs.Script.{without_sleep};
ghost use Rattle.lot_simulation.specs.Seeded.{seeds_from, with_seed};
ghost use Rattle.lot_simulation.specs.World.{without_time};
ghost use Rattle.lot_program.specs.Parts.{AreParts, AreSeeds, program_in};
ghost use Rattle.lot_program.specs.Programs.{IsProgram};

use crate::{Commands, Seed};
use lot_machine::Limits;
use lot_script::Script;
use lot_simulation::{Format, Options};
use std::alloc::{AllocError, Global};
use std::marker::Model;
use std::sync::ArcSlice;

/// The parts of a program, for `Program::new`. The methods of `Program` say what each means.
#[derive(Debug, Drop)]
pub struct Parts {
    pub format: Format,
    pub limits: Limits,
    pub seeds: Vec<u32>,
    pub turns: u32,
    pub scripts: Vec<Script>,
    pub commands: Commands,
    pub schedule: ArcSlice<u8>,
    pub duration: Option<u32>,
    pub times: ArcSlice<u32>,
    pub ticket_names: u32,
    pub names: ArcSlice<Option<u16>>,
    pub options: Options,
}

/// A system and its commands; the turns of each processor in a free run, and the schedule; or the duration, if the
/// program is timed.
#[derive(Debug)]
pub struct Program {
    parts: Parts,
}

impl Drop for Program {
    // An explicit drop: code that drops a `Program` is then proved without unfolding its parts.
    fn drop(self) {
        let Self { parts: _ } = self;
    }
}

impl Model for Program {
    ghost use Rattle.lot_simulation.specs.World.{Program as ProgramRecord};
    ghost use Rattle.lot_program.specs.Parts.{AreParts, program_in};

    ghost Value = { ProgramRecord };

    ghost view = { λ program. program_in program.parts };

    ghost invariant = { λ program. AreParts program.parts };
}

impl Program {
    /// The program of these parts.
    pub fn new(parts: Parts) -> Program
        requires { AreParts parts }
        ensures { result ≡ program_in parts }
    {
        Program { parts }
    }

    /// The format of the program's input.
    #[inline(always)]
    pub fn format(&self) -> Format
        ensures unit { unit_of result ≡ self.now.limits.unit }
        ensures timed { is_timed result ≡ is_some self.now.duration }
        ensures legal { IsProgram self.now }
    {
        self.parts.format
    }

    /// The kernel's limits: tables, processors, the quantum, the unit, and departures from the paper.
    pub fn limits(&self) -> Limits
        ensures limits { sizes_of result ≡ self.now.limits }
        ensures legal { IsProgram self.now }
    {
        self.parts.limits
    }

    /// The seeds of the processors' generators, 1 to 2147483646 each, processor 1 first.
    pub fn seeds(&self) -> &[u32]
        ensures seeds { result.now ≡ self.now.seeds }
        ensures legal { IsProgram self.now }
    {
        self.parts.seeds.as_slice()
    }

    /// The turns of each processor in a free run, 0 to 10000.
    pub fn turns(&self) -> u32
        ensures turns { result ≡ self.now.turns }
        ensures legal { IsProgram self.now }
    {
        self.parts.turns
    }

    /// The scripts; the first has number 1.
    pub fn scripts(&self) -> &[Script]
        ensures scripts { result.now ≡ self.now.scripts }
        ensures legal { IsProgram self.now }
    {
        self.parts.scripts.as_slice()
    }

    /// The console's commands, in order, at most 100000.
    #[inline(always)]
    pub fn commands(&self) -> &Commands
        ensures commands { result.now ≡ self.now.commands }
        ensures legal { IsProgram self.now }
    {
        &self.parts.commands
    }

    /// The actors of a scheduled run in order, 0 for the console and otherwise a processor's number, at most 1000000.
    pub fn schedule(&self) -> &[u8]
        ensures schedule { result.now ≡ self.now.schedule }
        ensures legal { IsProgram self.now }
    {
        self.parts.schedule.as_slice()
    }

    /// The ticks for which a timed program (`lottery 3`) runs, at least 1; `None` for another program.
    pub fn duration(&self) -> Option<u32>
        ensures duration { result ≡ self.now.duration }
        ensures legal { IsProgram self.now }
    {
        self.parts.duration
    }

    /// The tick of each command in a timed program, none in another one. Times never decrease.
    pub fn times(&self) -> &[u32]
        ensures times { result.now ≡ self.now.times }
        ensures legal { IsProgram self.now }
    {
        self.parts.times.as_slice()
    }

    /// The number of names that tickets can have, at most 4096.
    pub fn ticket_names(&self) -> u32
        ensures ticket_names { result ≡ self.now.ticket_names }
        ensures legal { IsProgram self.now }
    {
        self.parts.ticket_names
    }

    /// For each command of a timed program, the number of the name that it has for its ticket; none in another program.
    pub fn names(&self) -> &[Option<u16>]
        ensures names { result.now ≡ self.now.names }
        ensures legal { IsProgram self.now }
    {
        self.parts.names.as_slice()
    }

    /// What the header chooses. The limits have the part of the kernel.
    pub fn options(&self) -> Options
        ensures options { result ≡ self.now.options }
        ensures legal { IsProgram self.now }
    {
        self.parts.options
    }

    /// A copy of the program for a free run, which has no time: each `sleep` ends at once, so it is a `yield`. It fails
    /// only if out of memory.
    pub fn without_time(&self, alloc: Global) -> Result<Program, AllocError>
        ensures { IfOk result (λ program. program ≡ without_time self.now) }
    {
        let mut copy = self.copied(alloc)?;
        copy.parts.scripts = scripts_without_sleeps(alloc, self.scripts())?;
        Ok(copy)
    }

    /// The program with seeds computed from the given one, if there is one: processor 1 has that seed, and each further
    /// processor the next value of the generator that mixes seeds (4.1). It fails only if out of memory.
    pub fn with_seed(self, alloc: Global, seed: Option<Seed>) -> Result<Program, AllocError>
        ensures { IfOk result (λ program. program ≡ with_seed seed self) }
    {
        let mut program = self;
        if let Some(seed) = seed {
            program.parts.seeds = seeds_from(alloc, seed, program.parts.limits.processors)?;
        }
        Ok(program)
    }

    /// A copy of the program. The copies share the schedule and the commands with their times and names, which no
    /// program changes. It fails only if out of memory.
    pub fn copied(&self, alloc: Global) -> Result<Program, AllocError>
        ensures { IfOk result (λ program. program ≡ self.now) }
    {
        let parts = &self.parts;
        Ok(Program {
            parts: Parts {
                format: parts.format,
                limits: parts.limits,
                seeds: Vec::from_slice(alloc, self.seeds())?,
                turns: parts.turns,
                scripts: copied_scripts(alloc, self.scripts())?,
                commands: parts.commands.shared()?,
                schedule: parts.schedule.clone()?,
                duration: parts.duration,
                times: parts.times.clone()?,
                ticket_names: parts.ticket_names,
                names: parts.names.clone()?,
                options: parts.options,
            },
        })
    }
}

/// The seeds of this many processors, computed from this one.
fn seeds_from(alloc: Global, seed: Seed, processors: u32) -> Result<Vec<u32>, AllocError>
    ensures from { IfOk result (λ s. s.items ≡ seeds_from processors seed) }
    ensures seeds { IfOk result (λ s. AreSeeds processors s.items) }
{
    let mut seeds = Vec::new(alloc);
    let mut next = seed.number();
    for _ in 0..processors {
        seeds.push(next)?;
        next = (u64::from(next) * 48271 % 2147483647) as u32;
    }
    Ok(seeds)
}

/// A copy of the scripts.
fn copied_scripts(alloc: Global, scripts: &[Script]) -> Result<Vec<Script>, AllocError>
    ensures { IfOk result (λ copies. copies.items ≡ scripts.now) }
{
    let mut copies = Vec::with_capacity(alloc, scripts.len())?;
    for script in scripts {
        copies.push(script.copied(alloc)?)?;
    }
    Ok(copies)
}

/// A copy of the scripts in which each `sleep` is a `yield`.
fn scripts_without_sleeps(alloc: Global, scripts: &[Script]) -> Result<Vec<Script>, AllocError>
    ensures { IfOk result (λ copies. copies.items ≡ map (map without_sleep) scripts.now) }
{
    let mut copies = Vec::with_capacity(alloc, scripts.len())?;
    for script in scripts {
        copies.push(script.without_sleeps(alloc)?)?;
    }
    Ok(copies)
}
