//! Gathering the loans at a lottery before it is held.
ghost use Rattle.std.specs.Prelude.{◌≡◌, ◌+◌, ◌<◌, ◌≤◌, ◌++◌, [], Some, vec_len, vec_capacity};
ghost use Rattle.lot_engine.specs.Seen.{world_of};
ghost use Rattle.lot_explain.specs.Loans.{all_loans, lends_to, loan_of, loan_to};

use lot_engine::{Settled, System};
use lot_machine::{MutexNumber, Status, ThreadNumber, ThreadRow};
use lot_print::Loan;

/// Adds the loans of all threads that lend, in ascending order.
pub(crate) fn push_all_loans(loans: &mut Vec<Loan>, system: &mut System)
    requires none { loans.old.items ≡ [] }
    requires room { system.old.setting.program.limits.threads ≤ vec_capacity loans.old }
    ensures same { system.new ≡ system.old }
    ensures loans { loans.new.items ≡ all_loans (world_of system.old).state }
    ensures room { vec_capacity loans.new ≡ vec_capacity loans.old }
{
    let threads = system.thread_count();
    let settled = system.settle();
    for place in 0..threads {
        push_if_lends(loans, settled, place + 1);
    }
}

/// Adds the loan of the thread with this number, if it lends.
fn push_if_lends(loans: &mut Vec<Loan>, settled: Settled<'_>, thread: u32)
    requires room { vec_len loans.old < vec_capacity loans.old }
    ensures loans { loans.new.items ≡ loans.old.items ++ loan_of settled.entry.kernel.now.state thread }
    ensures few { vec_len loans.new ≤ vec_len loans.old + 1 }
    ensures room { vec_capacity loans.new ≡ vec_capacity loans.old }
{
    let Some(row) = settled.thread_row(ThreadNumber { number: thread }) else {
        return;
    };
    if let Some(to) = borrower_of(settled, row.status) {
        push_loan(loans, settled, thread, row, to);
    }
}

/// The direct borrower from a thread with this status, if it lends.
fn borrower_of(settled: Settled<'_>, status: Status) -> Option<u32>
    ensures { result ≡ lends_to settled.entry.kernel.now.state status }
{
    match status {
        Status::Served(server) => Some(server),
        Status::Waiting(mutex) => settled.kernel.owner(MutexNumber { number: mutex }),
        _ => None,
    }
}

/// Adds the loan of a thread with this row to another, if its value is above 0 and the other exists.
fn push_loan(loans: &mut Vec<Loan>, settled: Settled<'_>, thread: u32, row: ThreadRow, to: u32)
    requires room { vec_len loans.old < vec_capacity loans.old }
    ensures loans { loans.new.items ≡ loans.old.items ++ loan_to settled.entry.kernel.now.state thread row (Some to) }
    ensures few { vec_len loans.new ≤ vec_len loans.old + 1 }
    ensures room { vec_capacity loans.new ≡ vec_capacity loans.old }
{
    let exists = settled.thread_row(ThreadNumber { number: to }).is_some();
    if row.value == 0 || !exists {
        return;
    }
    loans.push_reserved(Loan {
        thread,
        name: row.name,
        value: row.value,
        to,
    });
}
