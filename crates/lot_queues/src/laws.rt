//! A law of the machine's definitions about queues, without executable code.
ghost use Rattle.std.specs.Prelude.{◌≡◌, ◌||◌, IsTrue, Some, List, ℕ};
ghost use Rattle.lot_machine.specs.declared.record.Record.{Record};
ghost use Rattle.lot_machine.specs.declared.record.Status.{Status};
ghost use Rattle.lot_machine.specs.Order.{HasQueues};
ghost use Rattle.lot_machine.specs.State.{is_dead, is_live_status, status_of};
ghost use Rattle.lot_queues.specs.QueueLists.{QueueLists, IsNowhere};

/// If each thread in a queue has that queue's status, no queue holds a thread that is Ready, Running or Dead.
pub fn others_stand_nowhere()
    ensures { (records : List Record) (q : QueueLists) (t : ℕ) (status : Status)
        → HasQueues records q.clients q.ports q.mutexes
        → status_of records t ≡ Some status → IsTrue (is_live_status status || is_dead status) → IsNowhere q t }
{}
