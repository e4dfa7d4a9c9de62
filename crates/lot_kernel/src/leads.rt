//! Chains of lends between threads (4.6, 6.1).
ghost use Rattle.std.specs.Prelude.{◌≡◌, ◌≤◌, length};
ghost use Rattle.lot_machine.specs.Facts.{HasNoCycle};
ghost use Rattle.lot_machine.specs.Lends as lends;
ghost use Rattle.lot_machine.specs.Numbered.{option_any};
ghost use Rattle.lot_threads.specs.Threaded.{IsThreadOf, funding_in};

use lot_machine::{Node, ThreadNumber};
use lot_threads::Threads;

/// Whether a chain of lends, perhaps empty, leads from the lender, if there is one, to the thread. It changes nothing.
pub(crate) fn does_lead(threads: &mut Threads, lender: Option<u32>, thread: ThreadNumber) -> bool
    requires thread { IsThreadOf threads.old thread.number }
    requires few { length threads.old.records ≤ threads.old.thread_limit }
    requires no_cycle { HasNoCycle (funding_in threads.old) }
    ensures leads { result
        ≡ option_any (λ t. lends.lends_lead (funding_in threads.old) t thread.number) lender }
    ensures unchanged { threads.new ≡ threads.old }
{
    match lender {
        Some(number) => lends_lead(threads, ThreadNumber { number }, thread),
        None => false,
    }
}

/// Whether a chain of lends, perhaps empty, leads from the lender to the thread. It changes nothing.
pub(crate) fn lends_lead(threads: &mut Threads, lender: ThreadNumber, thread: ThreadNumber) -> bool
    requires thread { IsThreadOf threads.old thread.number }
    requires few { length threads.old.records ≤ threads.old.thread_limit }
    requires no_cycle { HasNoCycle (funding_in threads.old) }
    ensures leads { result ≡ lends.lends_lead (funding_in threads.old) lender.number thread.number }
    ensures unchanged { threads.new ≡ threads.old }
{
    if threads.record(lender).is_none() {
        return false;
    }
    threads.reaches(Node::Thread(lender.number), Node::Thread(thread.number))
}
