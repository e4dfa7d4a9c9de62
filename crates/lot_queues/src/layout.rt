//! The list of each queue. With a limit of r threads, p ports and m mutexes:
//!
//!     list    0 .. r - 1           r .. r + p - 1   r + p .. r + 2p - 1   r + 2p .. r + 2p + m - 1
//!     queue   clients of threads   calls at ports   receivers at ports    waiters for mutexes
ghost use Rattle.std.specs.Prelude.{◌≡◌, ◌-◌, ◌<◌};
ghost use Rattle.lot_queues.specs.Fields as fields;

use lot_machine::index_of;

/// The largest number of threads, and the numbers of ports and mutexes.
#[derive(Clone, Copy, Debug)]
pub(crate) struct Layout {
    pub(crate) room: u32,
    pub(crate) ports: u32,
    pub(crate) mutexes: u32,
}

impl Layout {
    /// The number of lists.
    pub(crate) fn list_count(self) -> usize
        ensures { result ≡ fields.list_count self }
    {
        self.room as usize + self.ports as usize + self.ports as usize + self.mutexes as usize
    }

    pub(crate) fn calls(self, port: u32) -> usize
        requires { 0 < port }
        ensures { result ≡ fields.calls_list self port }
    {
        self.room as usize + index_of(port)
    }

    pub(crate) fn receivers(self, port: u32) -> usize
        requires { 0 < port }
        ensures { result ≡ fields.receivers_list self port }
    {
        self.room as usize + self.ports as usize + index_of(port)
    }

    pub(crate) fn waiters(self, mutex: u32) -> usize
        requires { 0 < mutex }
        ensures { result ≡ fields.waiters_list self mutex }
    {
        self.room as usize + self.ports as usize + self.ports as usize + index_of(mutex)
    }
}

/// The node of a thread, which is also the number of its list of clients.
pub(crate) fn node_of(thread: u32) -> usize
    requires { 0 < thread }
    ensures { result ≡ thread - 1 }
{
    index_of(thread)
}
