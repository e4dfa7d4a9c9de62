//! The queues of ports in reachable states: each waiting thread is in the queue that its status names (4.6).
ghost use Rattle.std.specs.Prelude.{◌≡◌, ◌≢◌, ◌≤◌, ℕ, Contains, Some, sum_by};
ghost use Rattle.lot_machine.specs.declared.record.Status.TheVariants as status;
ghost use Rattle.lot_machine.specs.Ports.{port_at};
ghost use Rattle.lot_machine.specs.State.{State, status_of, value_of};
ghost use Rattle.lot_laws.specs.Reachable.{IsReachable};
ghost use Rattle.lot_laws.specs.Transfers.{LendsQueued, callers_of, port_value};

/// Each thread whose call is queued is among the port's callers, and each thread that waits to receive is among its
/// receivers. A state in order has the converse.
pub fn waiting_threads_are_listed()
    ensures queued { (s : State) (t port : ℕ) → IsReachable s → status_of s.records t ≡ Some (status.Queued port)
        → Contains (callers_of s.ports port) t }
    ensures receiving { (s : State) (t port : ℕ) → IsReachable s → status_of s.records t ≡ Some (status.Receiving port)
        → Contains (port_at s.ports port).receivers t }
{}

/// No thread's call is queued at a port while another thread waits to receive there.
pub fn no_thread_is_queued_beside_a_receiver()
    ensures { (s : State) (caller receiver port : ℕ) → IsReachable s
        → status_of s.records caller ≡ Some (status.Queued port)
        → status_of s.records receiver ≢ Some (status.Receiving port) }
{}

/// With `queued_lend` a port passes on the sum of the values of the callers queued there.
pub fn ports_pass_on_their_queues()
    ensures { (s : State) (port : ℕ) → IsReachable s → LendsQueued s → 1 ≤ port → port ≤ s.limits.ports
        → port_value s port ≡ sum_by (value_of s) (callers_of s.ports port) }
{}
