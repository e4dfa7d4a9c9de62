//! The mutexes of a killed thread (6.1).
ghost use Rattle.std.specs.Prelude.{◌≡◌, ◌≢◌, ℕ, Some, filter_map, length, map, slice_get, take};
ghost use Rattle.lot_machine.specs.declared.funding.Node.{Node as ANode};
ghost use Rattle.lot_machine.specs.Funding.{owner_of};
ghost use Rattle.lot_machine.specs.Kill.{passed_on, released};
ghost use Rattle.lot_machine.specs.Mutexes.{mutex_at};
ghost use Rattle.lot_machine.specs.Numbered.{set_number};
ghost use Rattle.lot_machine.specs.State.{change_each, change_record};
ghost use Rattle.lot_graph.specs.Graphs.{IsMutex};
ghost use Rattle.lot_queues.specs.QueueLists.{IsThere, IsNowhere};
ghost use Rattle.lot_threads.specs.Threaded.{IsStaleIn, IsThreadOf, MakesStaleIn, funding_in, with_records};
ghost use Rattle.lot_mutex.specs.Listed.{next_from, owners_of, passed_from};

use lot_machine::{Status, ThreadNumber};
use lot_queues::Queues;
use lot_threads::Threads;
use lot_value::GraphChange;

/// Passes each mutex of a thread to the waiter that has waited longest, which becomes Ready, or frees it without
/// waiters. The thread itself must wait nowhere.
pub fn pass_all_on(threads: &mut Threads, queues: &mut Queues, owner: ThreadNumber)
    requires nowhere { IsNowhere queues.old owner.number }
    requires same { length threads.old.records ≡ length queues.old.clients }
    requires owners { owners_of queues.old.mutexes ≡ threads.old.owners }
    ensures threads { threads.new ≡ record (with_records threads.old
        (change_each released threads.old.records
        (filter_map (next_from owner.number) queues.old.mutexes)) threads.new.stale) {
          owners = owners_of (map (passed_from owner.number) queues.old.mutexes);
        } }
    ensures queues { queues.new ≡ record queues.old { mutexes = map (passed_from owner.number) queues.old.mutexes } }
    ensures kept { (node : ANode) → IsStaleIn threads.old node → IsStaleIn threads.new node }
    ensures stale { MakesStaleIn threads.old threads.new }
{
    for place in 0..queues.mutexes() {
        if queues.owner(place + 1) == Some(owner.number) {
            pass_on(threads, queues, place + 1);
        }
    }
}

/// Passes a mutex to the waiter that has waited longest, which isn't its owner, or frees it without waiters.
fn pass_on(threads: &mut Threads, queues: &mut Queues, mutex: u32)
    requires mutex { IsThere queues.old.mutexes mutex }
    requires apart { (next : ℕ) → slice_get (mutex_at queues.old.mutexes mutex).waiters 0 ≡ Some next
        → (mutex_at queues.old.mutexes mutex).owner ≢ Some next }
    requires same { length threads.old.records ≡ length queues.old.clients }
    requires owners { owners_of queues.old.mutexes ≡ threads.old.owners }
    ensures threads { threads.new ≡ record (with_records threads.old
        (change_each released threads.old.records
        (take 1 (mutex_at queues.old.mutexes mutex).waiters)) threads.new.stale) {
          owners = set_number threads.old.owners mutex (slice_get (mutex_at queues.old.mutexes mutex).waiters 0);
        } }
    ensures queues { queues.new ≡ record queues.old {
      mutexes = set_number queues.old.mutexes mutex (passed_on (mutex_at queues.old.mutexes mutex).waiters);
    } }
    ensures kept { (node : ANode) → IsStaleIn threads.old node → IsStaleIn threads.new node }
    ensures stale { MakesStaleIn threads.old threads.new }
{
    let Some(next) = queues.first_waiter(mutex) else {
        queues.set_owner(mutex, None);
        threads.apply(GraphChange::PutOwner(mutex, None));
        return;
    };
    queues.take_waiter(next);
    queues.set_owner(mutex, Some(next));
    hand_over(threads, mutex, next);
}

/// Makes a thread Ready, and the owner of a mutex in place of another thread.
fn hand_over(threads: &mut Threads, mutex: u32, next: u32)
    requires mutex { IsMutex (funding_in threads.old) mutex }
    requires thread { IsThreadOf threads.old next }
    requires other { owner_of (funding_in threads.old) mutex ≢ Some next }
    ensures threads { threads.new ≡ record (with_records threads.old
        (change_record released threads.old.records next) threads.new.stale) {
          owners = set_number threads.old.owners mutex (Some next);
        } }
    ensures kept { (node : ANode) → IsStaleIn threads.old node → IsStaleIn threads.new node }
    ensures stale { MakesStaleIn threads.old threads.new }
{
    threads.apply(GraphChange::PutOwner(mutex, None));
    threads.set_status(ThreadNumber { number: next }, Status::Ready);
    threads.apply(GraphChange::PutOwner(mutex, Some(next)));
}
