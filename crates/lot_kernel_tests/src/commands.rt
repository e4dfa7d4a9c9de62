//! Arguments for tests.
ghost use Rattle.lot_kernel_tests.specs.Given.{given};

use lot_machine::{
    Arguments, Command, CurrencyRef, Name, Slot, TargetRef, ThreadRef, Verb, command_of, form_of,
};

/// An argument of each kind, which is given as often as it is asked for.
#[derive(Debug, Drop)]
pub struct OneOfEach {
    pub amount: u64,
    pub ticket: u64,
    pub currency: CurrencyRef,
    pub target: TargetRef,
    pub thread: ThreadRef,
    pub name: Name,
    pub script: u32,
}

impl Arguments for OneOfEach {
    type Refusal = ();

    ghost gives = { given };

    fn amount(&mut self) -> Result<u64, ()> {
        Ok(self.amount)
    }

    fn ticket(&mut self) -> Result<u64, ()> {
        Ok(self.ticket)
    }

    fn currency(&mut self) -> Result<CurrencyRef, ()> {
        Ok(self.currency.copied())
    }

    fn target(&mut self) -> Result<TargetRef, ()> {
        Ok(self.target.copied())
    }

    fn thread(&mut self) -> Result<ThreadRef, ()> {
        Ok(self.thread.copied())
    }

    fn name(&mut self) -> Result<Name, ()> {
        Ok(self.name.copied())
    }

    fn script(&mut self) -> Result<u32, ()> {
        Ok(self.script)
    }
}

/// What the word refers to by its number, if it has one behind `#`.
fn numbered(word: &str) -> Option<u32> {
    word.strip_prefix('#')?.parse::<u32>().ok()
}

/// The thread that a word means.
fn thread_of(word: &str) -> Option<ThreadRef> {
    if let Some(number) = numbered(word) {
        return Some(ThreadRef::Numbered(number));
    }
    Some(ThreadRef::Named(Name::new(word)?))
}

/// The target that a word means.
fn target_of(word: &str) -> Option<TargetRef> {
    if let Some(number) = numbered(word) {
        return Some(TargetRef::Thread(number));
    }
    Some(TargetRef::Named(Name::new(word)?))
}

impl OneOfEach {
    /// Arguments that nobody asks for.
    fn unread() -> Option<OneOfEach> {
        Some(OneOfEach {
            amount: 0,
            ticket: 0,
            currency: CurrencyRef::Numbered(0),
            target: TargetRef::Currency(0),
            thread: ThreadRef::Numbered(0),
            name: Name::new("")?,
            script: 0,
        })
    }

    /// Sets the argument of this kind to what the word means.
    fn set(&mut self, slot: Slot, word: &str) -> Option<()> {
        match slot {
            Slot::Amount => self.amount = word.parse::<u64>().ok()?,
            Slot::Ticket => self.ticket = word.parse::<u64>().ok()?,
            Slot::Currency => self.currency = CurrencyRef::Named(Name::new(word)?),
            Slot::Target => self.target = target_of(word)?,
            Slot::Thread => self.thread = thread_of(word)?,
            Slot::Name => self.name = Name::new(word)?,
            Slot::Script => self.script = word.parse::<u32>().ok()?,
        }
        Some(())
    }
}

/// The command of this verb with these arguments, one blank between two: `100 base a 1`. A script is its number, and
/// `#5` a thread's number. A name may have no byte, and the last any blanks. None if an argument is missing, a number
/// is too large or a name too long.
pub fn command_with(verb: Verb, arguments: &str) -> Option<Command> {
    let mut each = OneOfEach::unread()?;
    let form = form_of(verb);
    let mut words = arguments.splitn(form.len(), ' ');
    for (_, slot) in form {
        each.set(*slot, words.next()?)?;
    }
    command_of(verb, &mut each).ok()
}
