//! Locks and unlocks (6.1).
ghost use Rattle.std.specs.Prelude.{◌≡◌, ◌<◌, ◌^◌, ℕ, [], IfSome, Option, Some, length, option_map, remove};
ghost use Rattle.std.specs.Prelude.{slice_get};
ghost use Rattle.lot_machine.specs.declared.funding.Node.{Node as ANode};
ghost use Rattle.lot_machine.specs.declared.funding.Node.TheVariants.{Thread as ThreadNode};
ghost use Rattle.lot_machine.specs.declared.record.Status.TheVariants as status;
ghost use Rattle.lot_machine.specs.declared.reply.Outcome.TheVariants.{Freed, Passed};
ghost use Rattle.lot_machine.specs.Mutexes as machine;
ghost use Rattle.lot_machine.specs.Mutexes.{mutex_at};
ghost use Rattle.lot_machine.specs.Numbered.{set_number};
ghost use Rattle.lot_machine.specs.Order.{IsQueue};
ghost use Rattle.lot_machine.specs.State.{change_record, status_of};
ghost use Rattle.lot_queues.specs.QueueLists.{IsThere, IsNowhere, IsWaiter};
ghost use Rattle.lot_threads.specs.Threaded.{IsLiveIn, IsStaleIn, MakesStaleIn, with_records, worth_in};
ghost use Rattle.lot_mutex.specs.Listed.{IsMutexTrap, UnlockSettles, owners_of};

use crate::lottery::Lottery;
use lot_machine::{After, Drawn, MutexNumber, Outcome, Status, ThreadNumber};
use lot_queues::Queues;
use lot_threads::{Threads, TrapEffect};
use lot_value::GraphChange;

/// A lock by a running thread: it takes a free mutex, otherwise it waits behind earlier threads.
pub fn lock(
    threads: &mut Threads,
    queues: &mut Queues,
    thread: ThreadNumber,
    mutex: MutexNumber,
) -> TrapEffect
    requires mutex { IsThere queues.old.mutexes mutex.number }
    requires thread { IsLiveIn threads.old thread.number }
    requires nowhere { IsNowhere queues.old thread.number }
    requires same { length threads.old.records ≡ length queues.old.clients }
    requires owners { owners_of queues.old.mutexes ≡ threads.old.owners }
    ensures trap { IsMutexTrap threads.old queues.old
        (machine.lock threads.old.records queues.old.mutexes thread.number mutex.number)
        result threads.new queues.new }
    ensures kept { (node : ANode) → IsStaleIn threads.old node → IsStaleIn threads.new node }
    ensures stale { MakesStaleIn threads.old threads.new }
{
    if queues.owner(mutex.number).is_some() {
        queues.push_waiter(mutex.number, thread.number);
        return TrapEffect {
            outcome: Outcome::Waits,
            after: After::Leaves(Status::Waiting(mutex.number)),
        };
    }
    queues.set_owner(mutex.number, Some(thread.number));
    threads.apply(GraphChange::PutOwner(mutex.number, Some(thread.number)));
    TrapEffect {
        outcome: Outcome::Locked,
        after: After::GoesOn,
    }
}

/// An unlock by the running owner. Without waiters the mutex becomes free. Otherwise the unlock settles stale nodes,
/// and a lottery with the number `d` over the waiters' values picks the next owner; if the values sum to 0, the first
/// waiter is the next owner.
pub fn unlock(
    threads: &mut Threads,
    queues: &mut Queues,
    lottery: &mut Lottery,
    owner: ThreadNumber,
    mutex: MutexNumber,
    d: u128,
) -> TrapEffect
    requires mutex { IsThere queues.old.mutexes mutex.number }
    requires owner { (mutex_at queues.old.mutexes mutex.number).owner ≡ Some owner.number }
    requires live { IsLiveIn threads.old owner.number }
    requires waiters { IsQueue threads.old.records (status.Waiting mutex.number)
        (mutex_at queues.old.mutexes mutex.number).waiters }
    requires same { length threads.old.records ≡ length queues.old.clients }
    requires owners { owners_of queues.old.mutexes ≡ threads.old.owners }
    requires room { queues.old.room ≡ lottery.old.room }
    ensures trap { IsMutexTrap (record threads.old { meter = threads.new.meter }) queues.old
        (machine.unlock threads.old.records queues.old.mutexes (worth_in threads.old) mutex.number d)
        result threads.new queues.new }
    ensures settles { UnlockSettles (mutex_at queues.old.mutexes mutex.number).waiters threads.old threads.new }
    ensures stale { MakesStaleIn threads.old threads.new }
    ensures owners { (next : ℕ) (draw : Option (ℕ × ℕ)) → result.outcome ≡ Passed next draw
        → IsStaleIn threads.new (ThreadNode owner.number) × IsStaleIn threads.new (ThreadNode next) }
    ensures room { lottery.new.room ≡ lottery.old.room }
{
    lottery.list(queues, mutex.number);
    if lottery.is_empty() {
        return free(threads, queues, mutex.number);
    }
    threads.settle();
    let drawn = lottery.hold(threads, mutex.number, d);
    let next = lottery.picked(drawn);
    pass(threads, queues, owner.number, mutex.number, next);
    TrapEffect {
        outcome: Outcome::Passed {
            to: next,
            draw: drawn_numbers(drawn),
        },
        after: After::Leaves(Status::Ready),
    }
}

/// Frees a mutex without waiters.
fn free(threads: &mut Threads, queues: &mut Queues, mutex: u32) -> TrapEffect
    requires mutex { IsThere queues.old.mutexes mutex }
    requires nobody { (mutex_at queues.old.mutexes mutex).waiters ≡ [] }
    requires owners { owners_of queues.old.mutexes ≡ threads.old.owners }
    ensures freed { result.outcome ≡ Freed }
    ensures frees { (value : ℕ → ℕ) (d : ℕ)
        → IsMutexTrap threads.old queues.old
        (machine.unlock threads.old.records queues.old.mutexes value mutex d) result threads.new queues.new }
    ensures kept { (node : ANode) → IsStaleIn threads.old node → IsStaleIn threads.new node }
    ensures stale { MakesStaleIn threads.old threads.new }
{
    queues.set_owner(mutex, None);
    threads.apply(GraphChange::PutOwner(mutex, None));
    TrapEffect {
        outcome: Outcome::Freed,
        after: After::GoesOn,
    }
}

/// The number and the total of a lottery, if one was held.
fn drawn_numbers(drawn: Option<Drawn>) -> Option<(u64, u64)>
    requires { IfSome drawn (λ w. (w.number < 2 ^ 64) × (w.total < 2 ^ 64)) }
    ensures { result ≡ option_map (λ w. (w.number, w.total)) drawn }
{
    let won = drawn?;
    Some((won.number as u64, won.total as u64))
}

/// Passes a mutex to one of its waiters, which becomes Ready and owner, while the others go on waiting.
fn pass(threads: &mut Threads, queues: &mut Queues, owner: u32, mutex: u32, next: u32)
    requires mutex { IsThere queues.old.mutexes mutex }
    requires owner { (mutex_at queues.old.mutexes mutex).owner ≡ Some owner }
    requires live { IsLiveIn threads.old owner }
    requires waits { status_of threads.old.records next ≡ Some (status.Waiting mutex) }
    requires waiter { IsWaiter queues.old.mutexes next }
    requires same { length threads.old.records ≡ length queues.old.clients }
    requires owners { owners_of queues.old.mutexes ≡ threads.old.owners }
    ensures threads { threads.new ≡ record (with_records threads.old
        (change_record
        (λ r. record r { status = status.Ready }) threads.old.records next) threads.new.stale) {
          owners = set_number threads.old.owners mutex (Some next);
        } }
    ensures queues { (place : ℕ) → slice_get (mutex_at queues.old.mutexes mutex).waiters place ≡ Some next
        → queues.new ≡ record queues.old {
          mutexes = set_number queues.old.mutexes mutex
              (record { owner = Some next; waiters = remove (mutex_at queues.old.mutexes mutex).waiters place });
        } }
    ensures kept { (node : ANode) → IsStaleIn threads.old node → IsStaleIn threads.new node }
    ensures stale { MakesStaleIn threads.old threads.new }
    ensures owners { IsStaleIn threads.new (ThreadNode owner) × IsStaleIn threads.new (ThreadNode next) }
{
    queues.take_waiter(next);
    queues.set_owner(mutex, Some(next));
    threads.set_status(ThreadNumber { number: next }, Status::Ready);
    threads.apply(GraphChange::MoveOwner { mutex, owner, next });
}
