//! The console's commands, packed.
ghost use Rattle.std.specs.Prelude.{◌≡◌, [], ◌∷◌, ◌++◌, ◌<◌, Some, IfOk, OnErr, OnOk, length};
ghost use Rattle.std.specs.List.{slice_get};

use crate::packed::{PackedCommand, Pool, pack, unpack};
use lot_machine::Command;
use std::alloc::{AllocError, Global};
use std::marker::Model;
use std::sync::ArcSlice;

/// The commands read so far from an input.
#[derive(Drop)]
pub struct CommandList {
    /// The bytes of the arguments.
    pool: Pool,
    packed: Vec<PackedCommand>,
}

impl Model for CommandList {
    ghost use Rattle.std.specs.Prelude.{All, List, map};
    ghost use Rattle.lot_machine.specs.declared.command.Command.{Command};
    ghost use Rattle.lot_program.specs.Packed.{IsCommandIn, command_in};

    ghost Value = { List Command };

    ghost view = { λ l. map (command_in l.pool.bytes) l.packed.items };

    ghost invariant = { λ l. All (IsCommandIn l.pool.bytes) l.packed.items };
}

impl CommandList {
    /// No commands. It allocates nothing.
    pub fn new(alloc: Global) -> Self
        ensures { result ≡ [] }
    {
        CommandList {
            pool: Pool::new(alloc),
            packed: Vec::new(alloc),
        }
    }

    /// The number of commands.
    pub fn len(&self) -> usize
        ensures { result ≡ length self.now }
    {
        self.packed.len()
    }

    /// Adds a command. It fails, and adds none, if out of memory or if the arguments of those before it have 4294967296
    /// bytes or more.
    pub fn push(&mut self, command: Command) -> Result<(), AllocError>
        ensures added { OnOk result (self.new ≡ self.old ++ command ∷ []) }
        ensures kept { OnErr result (self.new ≡ self.old) }
    {
        let packed = pack(&mut self.pool, &command)?;
        self.packed.push(packed)?;
        Ok(())
    }

    /// The commands as a list that copies share. It fails only if out of memory.
    pub fn into_commands(self) -> Result<Commands, AllocError>
        ensures { IfOk result (λ commands. commands ≡ self) }
    {
        let CommandList { pool, packed } = self;
        Ok(Commands {
            pool: ArcSlice::from_vec(pool.into_bytes())?,
            packed: ArcSlice::from_vec(packed)?,
        })
    }
}

/// The commands of a program, in order. A copy of the program shares them. Each takes 6 bytes and those of its
/// arguments: 8 for an amount or a ticket, 4 for a script, 5 for a number of a currency or a thread, and 1 more than it
/// has for a name. So `fundx 100 base t 1` takes 25.
#[derive(Drop)]
#[derive_where(Debug)]
pub struct Commands {
    /// The bytes of the arguments.
    #[derive_where(skip)]
    pool: ArcSlice<u8>,
    #[derive_where(skip)]
    packed: ArcSlice<PackedCommand>,
}

impl Model for Commands {
    ghost use Rattle.std.specs.Arc.{arc_slice_items};
    ghost use Rattle.std.specs.Prelude.{All, List, map};
    ghost use Rattle.lot_machine.specs.declared.command.Command.{Command};
    ghost use Rattle.lot_program.specs.Packed.{IsCommandIn, command_in};

    ghost Value = { List Command };

    ghost view = { λ c. map (command_in (arc_slice_items c.pool)) (arc_slice_items c.packed) };

    ghost invariant = { λ c. All (IsCommandIn (arc_slice_items c.pool)) (arc_slice_items c.packed) };
}

impl Commands {
    /// The number of commands.
    pub fn len(&self) -> usize
        ensures { result ≡ length self.now }
    {
        self.packed.len()
    }

    /// The command at this index, from 0. It allocates nothing.
    pub fn at(&self, index: usize) -> Command
        requires within { index < length self.now }
        ensures { slice_get self.now index ≡ Some result }
    {
        unpack(self.pool.as_slice(), &self.packed.as_slice()[index])
    }

    /// A copy, which shares the memory. It fails only if out of memory.
    pub(crate) fn shared(&self) -> Result<Commands, AllocError>
        ensures { IfOk result (λ commands. commands ≡ self.now) }
    {
        Ok(Commands {
            pool: self.pool.clone()?,
            packed: self.packed.clone()?,
        })
    }
}
