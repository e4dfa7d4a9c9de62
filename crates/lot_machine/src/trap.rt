//! The traps of threads.
ghost use Rattle.std.specs.Prelude.{◌≡◌};
ghost use Rattle.lot_machine.specs.Actions as actions;

/// A trap: at a port or on a mutex, with the number that it sends, the one that draws by it, and the ticks of a sleep.
#[derive(Clone, Copy, Debug, PartialEq, Eq)]
pub enum Trap<Object, Sent, Drawn, Ticks> {
    Yield,
    /// Calls a port and sends a number.
    Call(Object, Sent),
    Receive(Object),
    Reply(Sent),
    /// Replies with a number and then receives at this port, in one trap: the port, then the number.
    Serve(Object, Sent),
    Lock(Object),
    /// Releases a mutex; the number draws the winner of its lottery.
    Unlock(Object, Drawn),
    /// The thread sleeps until it is woken.
    Sleep(Ticks),
    Exit,
}

/// The word of a trap.
pub type TrapWord = Trap<(), (), (), ()>;

/// A trap of a script, which names its port or mutex by number. It sends and draws what is known only when it is made.
pub type ScriptTrap = Trap<u32, (), (), u32>;

/// A trap's request to the kernel, which doesn't know for how long a thread sleeps.
pub type Action = Trap<u32, u32, u128, ()>;

impl<O: Copy, S: Copy, D: Copy, T: Copy> Trap<O, S, D, T> {
    /// The trap of this kind with these in place of its own.
    #[inline(always)]
    pub fn with<Object: Copy, Sent: Copy, Drawn: Copy, Ticks: Copy>(
        self,
        object: Object,
        sent: Sent,
        drawn: Drawn,
        ticks: Ticks,
    ) -> Trap<Object, Sent, Drawn, Ticks>
        ensures { result ≡ actions.with_numbers self object sent drawn ticks }
    {
        match self {
            Trap::Yield => Trap::Yield,
            Trap::Call(_, _) => Trap::Call(object, sent),
            Trap::Receive(_) => Trap::Receive(object),
            Trap::Reply(_) => Trap::Reply(sent),
            Trap::Serve(_, _) => Trap::Serve(object, sent),
            Trap::Lock(_) => Trap::Lock(object),
            Trap::Unlock(_, _) => Trap::Unlock(object, drawn),
            Trap::Sleep(_) => Trap::Sleep(ticks),
            Trap::Exit => Trap::Exit,
        }
    }
}

impl<S: Copy, D: Copy, T: Copy> Trap<u32, S, D, T> {
    /// The number of the trap's port or mutex, or 0 if it has none.
    #[inline(always)]
    pub fn object(self) -> u32
        ensures { result ≡ actions.object_of self }
    {
        match self {
            Trap::Call(port, _) | Trap::Receive(port) | Trap::Serve(port, _) => port,
            Trap::Lock(mutex) | Trap::Unlock(mutex, _) => mutex,
            Trap::Yield | Trap::Reply(_) | Trap::Sleep(_) | Trap::Exit => 0,
        }
    }
}
