//! Worked rows for queued calls that lend.
ghost use Rattle.std.specs.Prelude.{◌≡◌, [], ◌∷◌, ◌++◌, codes, false, Some, None};
ghost use Rattle.lot_machine.specs.declared.trap.Trap.TheVariants.{Call, Receive, Serve, Lock, Unlock};
ghost use Rattle.lot_machine.specs.declared.event.Event.TheVariants.{Draw, Trap};
ghost use Rattle.lot_machine.specs.Worked.{after_in, answers_in, largest, queues_lend, values, weights, statuses};
ghost use Rattle.lot_machine.specs.Worked.{kill, unfund, rmthr};
ghost use Rattle.lot_machine.specs.WorkedRuns.{rich_queued, two_servers, second_waits, three_served, two_queued};
ghost use Rattle.lot_machine.specs.WorkedRuns.{own_port, port_cycle, server_ends};
ghost use Rattle.lot_machine.specs.declared.reply.Reply.TheVariants as reply;
ghost use Rattle.lot_machine.specs.declared.reply.Outcome.TheVariants as outcome;
ghost use Rattle.lot_machine.specs.declared.record.Status.TheVariants as status;
ghost use Rattle.lot_machine.specs.declared.refusal.TrapRefusal.TheVariants as trap_refusal;

/// A rich client's call waits behind those of two poor ones. With `queued_lend` the server has the rich client's
/// funding already while it works for a poor one. Without it the server has the poor one's funding alone, and a thread
/// of 1000 wins nine draws of ten (4.6).
pub fn rich_client()
    ensures lent { values (after_in queues_lend rich_queued) ≡ 1002 ∷ 1 ∷ 1 ∷ 1000 ∷ 1000 ∷ [] }
    ensures own { values (after_in largest rich_queued) ≡ 1 ∷ 1 ∷ 0 ∷ 0 ∷ 1000 ∷ [] }
    ensures weigh { weights (after_in queues_lend rich_queued) ≡ 100200 ∷ 100 ∷ 100 ∷ 100000 ∷ 1000 ∷ [] }
    ensures served { answers_in queues_lend rich_queued (Draw 1 0 ∷ Trap 1 49 (Serve 1 5) ∷ [])
        ≡ reply.Winner 1 0 101200 (Some 7) ∷ reply.Trapped 1 50 (outcome.RepliedThenReceived 2 3 8) false ∷ [] }
    ensures inverted { answers_in largest rich_queued (Draw 1 0 ∷ []) ≡ reply.Winner 1 0 1100 (Some 7) ∷ [] }
    ensures next { values (after_in queues_lend (rich_queued ++ Draw 1 0 ∷ Trap 1 49 (Serve 1 5) ∷ []))
        ≡ 1001 ∷ 1 ∷ 1 ∷ 1000 ∷ 1000 ∷ [] }
{}

/// Of several threads that serve a port, the one that took the last call is its server, even while another waits there.
/// All queued calls lend to it alone, until another thread takes one of them (4.6).
pub fn several_servers()
    ensures waits { (after_in queues_lend (two_servers ++ second_waits)).mutexes
        ≡ record { owner = None; waiters = [] } ∷ record { owner = None; waiters = [] }
        ∷ record { owner = Some 1; waiters = [] } ∷ record { owner = None; waiters = [] } ∷ [] }
    ensures lent { values (after_in queues_lend (two_servers ++ three_served)) ≡ 30 ∷ 80 ∷ 20 ∷ 30 ∷ 40 ∷ [] }
    ensures own { values (after_in largest (two_servers ++ three_served)) ≡ 30 ∷ 40 ∷ 20 ∷ 30 ∷ 0 ∷ [] }
    ensures taken { answers_in queues_lend (two_servers ++ three_served) (Draw 1 0 ∷ Trap 1 0 (Serve 1 1) ∷ [])
        ≡ reply.Winner 1 0 11000 (Some 5) ∷ reply.Trapped 1 1 (outcome.RepliedThenReceived 3 5 7) false ∷ [] }
    ensures moved { values (after_in queues_lend (two_servers ++ three_served ++ Draw 1 0 ∷ Trap 1 0 (Serve 1 1) ∷ []))
        ≡ 50 ∷ 40 ∷ 20 ∷ 30 ∷ 40 ∷ [] }
    ensures served_next { values (after_in queues_lend (two_servers ++ three_served ++ Draw 1 0 ∷ Trap 1 0 (Serve 1 1)
        ∷ Draw 2 4000 ∷ Trap 2 0 (Call 1 8) ∷ [])) ≡ 70 ∷ 40 ∷ 20 ∷ 30 ∷ 40 ∷ [] }
    ensures queued { values (after_in queues_lend (two_servers ++ two_queued)) ≡ 100 ∷ 10 ∷ 20 ∷ 30 ∷ 40 ∷ [] }
    ensures taken_by_other { answers_in queues_lend (two_servers ++ two_queued)
        (Draw 1 10000 ∷ Trap 1 0 (Receive 1) ∷ [])
        ≡ reply.Winner 2 10000 10010 None ∷ reply.Trapped 2 1 (outcome.Received 4 6) false ∷ [] }
    ensures rest_moved { values (after_in queues_lend (two_servers ++ two_queued ++ Draw 1 10000
        ∷ Trap 1 0 (Receive 1) ∷ [])) ≡ 30 ∷ 80 ∷ 20 ∷ 30 ∷ 40 ∷ [] }
{}

/// A killed server leaves its port without one: the queued caller lends to nobody until another thread receives. So
/// does a server that ends, and it can be removed. If a thread that waits at the port goes, the server stays (4.6).
pub fn server_gone()
    ensures killed { values (after_in queues_lend (two_servers ++ three_served ++ kill (codes "w") ∷ []))
        ≡ 30 ∷ 0 ∷ 20 ∷ 30 ∷ 0 ∷ [] }
    ensures statuses { statuses (after_in queues_lend (two_servers ++ three_served ++ kill (codes "w") ∷ []))
        ≡ status.Ready ∷ status.Dead ∷ status.Served 1 ∷ status.Ready ∷ status.Queued 1 ∷ [] }
    ensures freed { (after_in queues_lend (two_servers ++ three_served ++ kill (codes "w") ∷ [])).mutexes
        ≡ record { owner = None; waiters = [] } ∷ record { owner = None; waiters = [] }
        ∷ record { owner = None; waiters = [] } ∷ record { owner = None; waiters = [] } ∷ [] }
    ensures ended { (after_in queues_lend server_ends).mutexes
        ≡ record { owner = None; waiters = [] } ∷ record { owner = None; waiters = [] }
        ∷ record { owner = None; waiters = [] } ∷ record { owner = None; waiters = [] } ∷ [] }
    ensures removed { answers_in queues_lend server_ends (unfund 1 ∷ rmthr (codes "v") ∷ [])
        ≡ reply.Done ∷ reply.Done ∷ [] }
    ensures stays { values (after_in queues_lend (two_servers ++ second_waits ++ kill (codes "w") ∷ Draw 1 3000
        ∷ Trap 1 0 (Call 1 6) ∷ [])) ≡ 60 ∷ 0 ∷ 20 ∷ 30 ∷ 40 ∷ [] }
{}

/// A server that calls its own port stops being the port's server, so no lends form a cycle. The next thread that
/// receives there gets the funding of all queued calls (4.6).
pub fn own_port()
    ensures queued { statuses (after_in queues_lend own_port) ≡ status.Queued 1 ∷ status.Served 1 ∷ status.Ready ∷ [] }
    ensures gone { (after_in queues_lend own_port).mutexes
        ≡ record { owner = None; waiters = [] } ∷ record { owner = None; waiters = [] }
        ∷ record { owner = None; waiters = [] } ∷ record { owner = None; waiters = [] } ∷ [] }
    ensures nobody { values (after_in queues_lend own_port) ≡ 0 ∷ 0 ∷ 5 ∷ [] }
    ensures received { answers_in queues_lend own_port (Draw 1 0 ∷ Trap 1 0 (Receive 1) ∷ [])
        ≡ reply.Winner 3 0 5 None ∷ reply.Trapped 3 1 (outcome.Received 1 6) false ∷ [] }
    ensures lent { values (after_in queues_lend (own_port ++ Draw 1 0 ∷ Trap 1 0 (Receive 1) ∷ []))
        ≡ 30 ∷ 20 ∷ 35 ∷ [] }
{}

/// The kernel doesn't refuse a lock whose wait would close a cycle through a port: the port loses its server instead.
/// The next thread that receives there gets the funding of all queued calls. The holder of a port's server is no mutex
/// (4.6, 6.1).
pub fn port_cycle()
    ensures before { values (after_in queues_lend port_cycle) ≡ 10 ∷ 60 ∷ 30 ∷ 5 ∷ [] }
    ensures waits { answers_in queues_lend port_cycle (Trap 1 0 (Lock 1) ∷ [])
        ≡ reply.Trapped 2 1 outcome.Waits false ∷ [] }
    ensures nobody { values (after_in queues_lend (port_cycle ++ Trap 1 0 (Lock 1) ∷ [])) ≡ 0 ∷ 0 ∷ 0 ∷ 5 ∷ [] }
    ensures gone { (after_in queues_lend (port_cycle ++ Trap 1 0 (Lock 1) ∷ [])).mutexes
        ≡ record { owner = Some 3; waiters = 2 ∷ [] } ∷ record { owner = None; waiters = [] }
        ∷ record { owner = None; waiters = [] } ∷ record { owner = None; waiters = [] } ∷ [] }
    ensures lent { values (after_in queues_lend (port_cycle ++ Trap 1 0 (Lock 1) ∷ Draw 2 0 ∷ Trap 2 0 (Receive 1)
        ∷ [])) ≡ 10 ∷ 30 ∷ 60 ∷ 65 ∷ [] }
    ensures no_mutex { answers_in queues_lend port_cycle (Trap 1 0 (Lock 3) ∷ Trap 1 0 (Unlock 3 0) ∷ [])
        ≡ reply.Trapped 2 1 (outcome.Refused trap_refusal.NoMutex) false
        ∷ reply.Trapped 2 1 (outcome.Refused trap_refusal.NoMutex) false ∷ [] }
{}
