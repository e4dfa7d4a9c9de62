//! Commands in little memory: a verb, and its arguments one after the other in a pool of bytes.
ghost use Rattle.std.specs.Prelude.{◌≡◌, ◌∷◌, [], Err, IfOk, MatchResult, Ok, OnOk, length};
ghost use Rattle.lot_program.specs.Packed.{Extends, IsCommandIn, IsReadAgain, bytes_at, command_in, filled_before};
ghost use Rattle.lot_program.specs.Packed.{long_at, name_at, value_at, with_bytes, with_value, word_at};

use lot_machine::{
    Arguments, Command, CurrencyRef, Name, Sink, TargetRef, ThreadRef, Verb, command_of, give_parts,
};
use std::alloc::{AllocError, Global};
use std::marker::Model;

/// What stands in the place of a name's length, which is at most 16, before a currency's number.
const CURRENCY: u8 = 17;

/// What stands in the place of a name's length before a thread's number.
const THREAD: u8 = 18;

/// A number of 32 bits, aligned like a byte.
#[derive(Drop)]
pub(crate) struct Unaligned32 {
    bytes: [u8; 4],
}

impl Model for Unaligned32 {
    ghost use Rattle.std.specs.Prelude.{ℕ};
    ghost use Rattle.std.specs.Int.{from_le_bytes, w32};

    ghost Value = { ℕ };

    ghost view = { λ number. from_le_bytes w32 number.bytes };
}

impl Unaligned32 {
    #[inline(always)]
    fn new(number: u32) -> Self
        ensures { result ≡ number }
    {
        Unaligned32 {
            bytes: number.to_le_bytes(),
        }
    }

    #[inline(always)]
    fn get(&self) -> u32
        ensures { result ≡ self.now }
    {
        u32::from_le_bytes(self.bytes)
    }
}

/// A command: its verb, and where its arguments begin in a pool.
#[derive(Drop)]
pub(crate) struct PackedCommand {
    verb: Verb,
    start: Unaligned32,
}

const _: () = prove!(size_of::<PackedCommand>() == 6);

/// The arguments of commands, in bytes.
#[derive(Drop)]
pub(crate) struct Pool {
    bytes: Vec<u8>,
    /// Where the arguments of the last command begin.
    start: usize,
}

impl Model for Pool {
    ghost use Rattle.std.specs.Prelude.{◌≤◌, length};
    ghost use Rattle.lot_program.specs.Packed.{Filling};

    ghost Value = { Filling };

    ghost view = { λ pool. record { start = pool.start; bytes = pool.bytes.items } };

    ghost invariant = { λ pool. pool.start ≤ length pool.bytes.items };
}

impl Pool {
    /// No arguments. It allocates nothing.
    pub(crate) fn new(alloc: Global) -> Self
        ensures { result.bytes ≡ [] }
    {
        Pool {
            bytes: Vec::new(alloc),
            start: 0,
        }
    }

    /// Its bytes.
    pub(crate) fn into_bytes(self) -> Vec<u8>
        ensures { result.items ≡ self.bytes }
    {
        let Pool { bytes, start: _ } = self;
        bytes
    }

    /// Begins another command: its place. It fails if this has no number of 32 bits.
    fn begin(&mut self) -> Result<Unaligned32, AllocError>
        ensures place { IfOk result (λ start. start ≡ length self.old.bytes) }
        ensures start { OnOk result (self.new.start ≡ length self.old.bytes) }
        ensures same { self.new.bytes ≡ self.old.bytes }
    {
        let len = self.bytes.len();
        let start = u32::try_from(len).ok().ok_or(AllocError)?;
        self.start = len;
        Ok(Unaligned32::new(start))
    }

    /// Adds these bytes.
    #[inline(always)]
    fn add(&mut self, bytes: &[u8]) -> Result<(), AllocError>
        ensures added { OnOk result (self.new ≡ with_bytes self.old bytes.now) }
        ensures before { filled_before self.new ≡ filled_before self.old }
    {
        self.bytes.extend_from_slice(bytes)
    }

    /// Adds this byte and these.
    #[inline(always)]
    fn add_behind(&mut self, tag: u8, bytes: &[u8]) -> Result<(), AllocError>
        ensures added { OnOk result (self.new ≡ with_bytes self.old (tag ∷ bytes.now)) }
        ensures before { filled_before self.new ≡ filled_before self.old }
    {
        self.bytes.push(tag)?;
        self.add(bytes)
    }
}

impl Sink for Pool {
    type Refusal = AllocError;

    ghost after = { with_value };

    ghost taken = { IsReadAgain };

    ghost kept = { filled_before };

    fn put_amount(&mut self, amount: u64) -> Result<(), AllocError> {
        self.add(&amount.to_le_bytes())
    }

    fn put_ticket(&mut self, ticket: u64) -> Result<(), AllocError> {
        self.add(&ticket.to_le_bytes())
    }

    fn put_currency(&mut self, currency: &CurrencyRef) -> Result<(), AllocError> {
        match currency {
            CurrencyRef::Named(name) => self.put_name(name),
            CurrencyRef::Numbered(number) => self.add_behind(CURRENCY, &number.to_le_bytes()),
        }
    }

    fn put_target(&mut self, target: &TargetRef) -> Result<(), AllocError> {
        match target {
            TargetRef::Named(name) => self.put_name(name),
            TargetRef::Currency(number) => self.add_behind(CURRENCY, &number.to_le_bytes()),
            TargetRef::Thread(number) => self.add_behind(THREAD, &number.to_le_bytes()),
        }
    }

    fn put_thread(&mut self, thread: &ThreadRef) -> Result<(), AllocError> {
        match thread {
            ThreadRef::Named(name) => self.put_name(name),
            ThreadRef::Numbered(number) => self.add_behind(THREAD, &number.to_le_bytes()),
        }
    }

    fn put_name(&mut self, name: &Name) -> Result<(), AllocError> {
        let bytes = name.as_bytes();
        self.add_behind(bytes.len() as u8, bytes)
    }

    fn put_script(&mut self, script: u32) -> Result<(), AllocError> {
        self.add(&script.to_le_bytes())
    }
}

/// The bytes from an argument on. A read fails if they end before what it reads.
#[derive(Drop)]
pub(crate) struct Rest<'a> {
    bytes: &'a [u8],
}

impl<'a> Model for Rest<'a> {
    ghost use Rattle.std.specs.Prelude.{List, ℕ};

    ghost Value = { List ℕ };

    ghost view = { λ rest. rest.bytes.now };
}

impl Rest<'_> {
    /// The next byte.
    #[inline(always)]
    fn byte(&mut self) -> Result<u8, ()>
        ensures { MatchResult result (λ byte. self.old ≡ byte ∷ self.new) (λ _. self.old ≡ []) }
    {
        let (byte, rest) = self.bytes.split_first().ok_or(())?;
        self.bytes = rest;
        Ok(*byte)
    }

    /// The number of 64 bits that comes next.
    #[inline(always)]
    fn long(&mut self) -> Result<u64, ()>
        ensures { MatchResult result (λ number. long_at self.old ≡ Ok (number, self.new))
            (λ missing. long_at self.old ≡ Err missing) }
    {
        let (bytes, rest) = self.bytes.split_first_chunk().ok_or(())?;
        self.bytes = rest;
        Ok(u64::from_le_bytes(*bytes))
    }

    /// The number of 32 bits that comes next.
    #[inline(always)]
    fn word(&mut self) -> Result<u32, ()>
        ensures { MatchResult result (λ number. word_at self.old ≡ Ok (number, self.new))
            (λ missing. word_at self.old ≡ Err missing) }
    {
        let (bytes, rest) = self.bytes.split_first_chunk().ok_or(())?;
        self.bytes = rest;
        Ok(u32::from_le_bytes(*bytes))
    }

    /// The name of this length that comes next. It also fails if no name is so long.
    #[inline(always)]
    fn name_of(&mut self, len: u8) -> Result<Name, ()>
        ensures { MatchResult result (λ name. name_at len self.old ≡ Ok (name, self.new))
            (λ missing. name_at len self.old ≡ Err missing) }
    {
        let (bytes, rest) = self.bytes.split_at_checked(len as usize).ok_or(())?;
        self.bytes = rest;
        Name::from_bytes(bytes).ok_or(())
    }
}

impl Arguments for Rest<'_> {
    type Refusal = ();

    ghost gives = { value_at };

    fn amount(&mut self) -> Result<u64, ()> {
        self.long()
    }

    fn ticket(&mut self) -> Result<u64, ()> {
        self.long()
    }

    fn currency(&mut self) -> Result<CurrencyRef, ()> {
        match self.byte()? {
            CURRENCY => Ok(CurrencyRef::Numbered(self.word()?)),
            len => Ok(CurrencyRef::Named(self.name_of(len)?)),
        }
    }

    fn target(&mut self) -> Result<TargetRef, ()> {
        match self.byte()? {
            CURRENCY => Ok(TargetRef::Currency(self.word()?)),
            THREAD => Ok(TargetRef::Thread(self.word()?)),
            len => Ok(TargetRef::Named(self.name_of(len)?)),
        }
    }

    fn thread(&mut self) -> Result<ThreadRef, ()> {
        match self.byte()? {
            THREAD => Ok(ThreadRef::Numbered(self.word()?)),
            len => Ok(ThreadRef::Named(self.name_of(len)?)),
        }
    }

    fn name(&mut self) -> Result<Name, ()> {
        let len = self.byte()?;
        self.name_of(len)
    }

    fn script(&mut self) -> Result<u32, ()> {
        self.word()
    }
}

/// Adds the arguments of the command to the pool. It fails if out of memory, and the pool may then have some of them,
/// or if their place has no number of 32 bits.
pub(crate) fn pack(pool: &mut Pool, command: &Command) -> Result<PackedCommand, AllocError>
    ensures grows { Extends pool.old.bytes pool.new.bytes }
    ensures within { IfOk result (IsCommandIn pool.new.bytes) }
    ensures same { IfOk result (λ packed. command_in pool.new.bytes packed ≡ command.now) }
{
    let start = pool.begin()?;
    let verb = give_parts(command, pool)?;
    Ok(PackedCommand { verb, start })
}

/// The command, with its arguments from the pool.
pub(crate) fn unpack(pool: &[u8], packed: &PackedCommand) -> Command
    requires { IsCommandIn pool.now packed.now }
    ensures { result ≡ command_in pool.now packed.now }
{
    let start = packed.start.get() as usize;
    let mut arguments = Rest {
        bytes: &pool[start..],
    };
    command_of(packed.verb, &mut arguments).unwrap()
}
