//! Numbers as types, so that a call that expects a mutex can't be given a port.
ghost use Rattle.std.specs.Prelude.{◌≡◌, ◌<◌, ◌-◌};

/// A thread's number. Threads are numbered from 1 in the order in which they are made.
#[derive(Clone, Copy, Debug, PartialEq, Eq)]
pub struct ThreadNumber {
    pub number: u32,
}

/// A ticket's number. Tickets are numbered from 1 in the order in which they are made.
#[derive(Clone, Copy, Debug, PartialEq, Eq)]
pub struct TicketNumber {
    pub number: u32,
}

/// A currency's number. Base is number 0; the others are numbered from 1 in the order in which they are made.
#[derive(Clone, Copy, Debug, PartialEq, Eq)]
pub struct CurrencyNumber {
    pub number: u32,
}

/// A port's number, from 1.
#[derive(Clone, Copy, Debug, PartialEq, Eq)]
pub struct PortNumber {
    pub number: u32,
}

/// A mutex's number, from 1.
#[derive(Clone, Copy, Debug, PartialEq, Eq)]
pub struct MutexNumber {
    pub number: u32,
}

/// A processor's number, from 1.
#[derive(Clone, Copy, Debug, PartialEq, Eq)]
pub struct Processor {
    pub number: u32,
}

/// The index of the element with this number, in a list whose first element is number 1.
#[inline(always)]
pub fn index_of(number: u32) -> usize
    requires { 0 < number }
    ensures { result ≡ number - 1 }
{
    number as usize - 1
}
