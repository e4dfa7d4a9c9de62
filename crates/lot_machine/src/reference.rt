//! References of a command to a currency, a thread or a target, by name or by number.
ghost use Rattle.std.specs.Prelude.{◌≡◌};

use crate::Name;

/// A currency, by its name or by its number, which is 0 for base.
#[derive(Debug, PartialEq, Eq, Drop)]
pub enum CurrencyRef {
    Named(Name),
    Numbered(u32),
}

impl CurrencyRef {
    /// A copy of the reference. It allocates nothing.
    pub fn copied(&self) -> Self
        ensures { result ≡ self.now }
    {
        match self {
            CurrencyRef::Named(name) => CurrencyRef::Named(name.copied()),
            CurrencyRef::Numbered(number) => CurrencyRef::Numbered(*number),
        }
    }
}

/// A thread, by its name or by its number, from 1.
#[derive(Debug, PartialEq, Eq, Drop)]
pub enum ThreadRef {
    Named(Name),
    Numbered(u32),
}

impl ThreadRef {
    /// A copy of the reference. It allocates nothing.
    pub fn copied(&self) -> Self
        ensures { result ≡ self.now }
    {
        match self {
            ThreadRef::Named(name) => ThreadRef::Named(name.copied()),
            ThreadRef::Numbered(number) => ThreadRef::Numbered(*number),
        }
    }
}

/// A ticket's new target: the currency or thread with a name, the currency with a number, or the thread with a
/// number.
#[derive(Debug, PartialEq, Eq, Drop)]
pub enum TargetRef {
    Named(Name),
    Currency(u32),
    Thread(u32),
}

impl TargetRef {
    /// A copy of the reference. It allocates nothing.
    pub fn copied(&self) -> Self
        ensures { result ≡ self.now }
    {
        match self {
            TargetRef::Named(name) => TargetRef::Named(name.copied()),
            TargetRef::Currency(number) => TargetRef::Currency(*number),
            TargetRef::Thread(number) => TargetRef::Thread(*number),
        }
    }
}
