//! The arguments of commands.
ghost use Rattle.std.specs.Prelude.{◌≡◌, List, ℕ, Result, OnOk};
ghost use Rattle.lot_machine.specs.declared.arguments.Slot.{Slot};
ghost use Rattle.lot_machine.specs.declared.arguments.Slot.TheVariants as slot;
ghost use Rattle.lot_machine.specs.Arguments.{Value};
ghost use Rattle.lot_machine.specs.Arguments as value;
ghost use Rattle.lot_machine.specs.Verbs.{with_rest};

use crate::{CurrencyRef, Name, TargetRef, ThreadRef};

/// The kind of an argument.
#[derive(Clone, Copy, Debug, PartialEq, Eq)]
pub enum Slot {
    Amount,
    Ticket,
    Currency,
    Target,
    Thread,
    Name,
    Script,
}

/// Where the arguments of a command come from, one after the other.
pub trait Arguments {
    /// Why there is no argument of the kind that is asked for.
    type Refusal;

    // the next argument, which has to be of this kind, and what comes after it
    ghost gives: { Self → Slot → Result (Value × Self) Self.Refusal };

    /// The next argument, an amount.
    fn amount(&mut self) -> Result<u64, Self::Refusal>
        ensures { gives self.old slot.Amount ≡ with_rest value.Amount self.new result };

    /// The next argument, a ticket's number.
    fn ticket(&mut self) -> Result<u64, Self::Refusal>
        ensures { gives self.old slot.Ticket ≡ with_rest value.Ticket self.new result };

    /// The next argument, a currency.
    fn currency(&mut self) -> Result<CurrencyRef, Self::Refusal>
        ensures { gives self.old slot.Currency ≡ with_rest value.Currency self.new result };

    /// The next argument, a ticket's target.
    fn target(&mut self) -> Result<TargetRef, Self::Refusal>
        ensures { gives self.old slot.Target ≡ with_rest value.Target self.new result };

    /// The next argument, a thread.
    fn thread(&mut self) -> Result<ThreadRef, Self::Refusal>
        ensures { gives self.old slot.Thread ≡ with_rest value.Thread self.new result };

    /// The next argument, the name of a new currency or thread.
    fn name(&mut self) -> Result<Name, Self::Refusal>
        ensures { gives self.old slot.Name ≡ with_rest value.Name self.new result };

    /// The next argument, a script's number.
    fn script(&mut self) -> Result<u32, Self::Refusal>
        ensures { gives self.old slot.Script ≡ with_rest value.Script self.new result };
}

/// Where the arguments of a command go, one after the other.
pub trait Sink {
    /// Why an argument isn't taken.
    type Refusal;

    // what it is with one argument more
    ghost after: { Self → Value → Self };

    // what is true of an argument of this kind that it has taken
    ghost taken: { Slot → Value → Type 0 };

    // what it had before, which it keeps even if it doesn't take an argument
    ghost kept: { Self → List ℕ };

    /// Takes an amount.
    fn put_amount(&mut self, amount: u64) -> Result<(), Self::Refusal>
        ensures put { OnOk result (self.new ≡ after self.old (value.Amount amount)) }
        ensures fact { OnOk result (taken slot.Amount (value.Amount amount)) }
        ensures kept { kept self.new ≡ kept self.old };

    /// Takes a ticket's number.
    fn put_ticket(&mut self, ticket: u64) -> Result<(), Self::Refusal>
        ensures put { OnOk result (self.new ≡ after self.old (value.Ticket ticket)) }
        ensures fact { OnOk result (taken slot.Ticket (value.Ticket ticket)) }
        ensures kept { kept self.new ≡ kept self.old };

    /// Takes a currency.
    fn put_currency(&mut self, currency: &CurrencyRef) -> Result<(), Self::Refusal>
        ensures put { OnOk result (self.new ≡ after self.old (value.Currency currency.now)) }
        ensures fact { OnOk result (taken slot.Currency (value.Currency currency.now)) }
        ensures kept { kept self.new ≡ kept self.old };

    /// Takes a ticket's target.
    fn put_target(&mut self, target: &TargetRef) -> Result<(), Self::Refusal>
        ensures put { OnOk result (self.new ≡ after self.old (value.Target target.now)) }
        ensures fact { OnOk result (taken slot.Target (value.Target target.now)) }
        ensures kept { kept self.new ≡ kept self.old };

    /// Takes a thread.
    fn put_thread(&mut self, thread: &ThreadRef) -> Result<(), Self::Refusal>
        ensures put { OnOk result (self.new ≡ after self.old (value.Thread thread.now)) }
        ensures fact { OnOk result (taken slot.Thread (value.Thread thread.now)) }
        ensures kept { kept self.new ≡ kept self.old };

    /// Takes the name of a new currency or thread.
    fn put_name(&mut self, name: &Name) -> Result<(), Self::Refusal>
        ensures put { OnOk result (self.new ≡ after self.old (value.Name name.now)) }
        ensures fact { OnOk result (taken slot.Name (value.Name name.now)) }
        ensures kept { kept self.new ≡ kept self.old };

    /// Takes a script's number.
    fn put_script(&mut self, script: u32) -> Result<(), Self::Refusal>
        ensures put { OnOk result (self.new ≡ after self.old (value.Script script)) }
        ensures fact { OnOk result (taken slot.Script (value.Script script)) }
        ensures kept { kept self.new ≡ kept self.old };
}
