//! Rows of a settled kernel through a handle, for callers that only read it.
ghost use Rattle.std.specs.Prelude.{◌≡◌, MatchOption};
ghost use Rattle.lot_c.specs.declared.status.Status.TheVariants.{Done, NoKernel};
ghost use Rattle.lot_c.specs.Calls.{IsSettledBy, Through};
ghost use Rattle.lot_c.specs.Calls.{ShowsSettledCurrency, ShowsSettledThread, ShowsSettledTicket};
ghost use Rattle.lot_c.specs.Numbers.{code};

use crate::handle::Handle;
use crate::reader::ReadHandle;
use crate::rows::{PlainCurrencyRow, PlainThreadRow, PlainTicketRow};
use crate::status::Status;
use lot_kernel::{CurrencyNumber, Kernel, Settled, ThreadNumber, TicketNumber};

/// Recomputes all stale values, so that callers can read rows until the next event. Returns `NoKernel` without a
/// kernel.
#[unsafe(no_mangle)]
pub extern "C" fn lot_kernel_settle(kernel: &mut Handle) -> u32
    ensures { Through kernel.old.kernel kernel.new.kernel (result ≡ code NoKernel) (IsSettledBy result) }
{
    match kernel.get_mut() {
        None => Status::NoKernel.code(),
        Some(held) => settle(held),
    }
}

/// Recomputes all stale values.
fn settle(kernel: &mut Kernel) -> u32
    ensures { IsSettledBy result kernel.old kernel.new }
{
    kernel.settle();
    Status::Done.code()
}

/// Stores the row of the ticket with this number. Returns `NoKernel` without a kernel, `NotSettled` if a value is
/// stale, and `NotThere` if there is no such ticket.
#[unsafe(no_mangle)]
pub extern "C" fn lot_kernel_settled_ticket_row(
    kernel: &mut ReadHandle,
    ticket: u32,
    row: &mut PlainTicketRow,
) -> u32
    ensures handle { kernel.new ≡ kernel.old }
    ensures row { MatchOption kernel.old.kernel ((result ≡ code NoKernel) × (row.new ≡ row.old))
        (λ k. ShowsSettledTicket ticket result k row.old row.new) }
{
    match kernel.reader().get() {
        None => Status::NoKernel.code(),
        Some(held) => show_ticket(held, ticket, row),
    }
}

/// Stores the row of the ticket with this number, or returns `NotSettled` or `NotThere`.
fn show_ticket(kernel: &Kernel, ticket: u32, row: &mut PlainTicketRow) -> u32
    ensures { ShowsSettledTicket ticket result kernel.now row.old row.new }
{
    let Some(settled) = Settled::of(kernel) else {
        return Status::NotSettled.code();
    };
    match settled.ticket_row(TicketNumber { number: ticket }) {
        None => Status::NotThere.code(),
        Some(found) => {
            *row = PlainTicketRow::of(&found);
            Status::Done.code()
        }
    }
}

/// Stores the row of the currency with this number. Returns `NoKernel` without a kernel, `NotSettled` if a value is
/// stale, and `NotThere` if there is no such currency.
#[unsafe(no_mangle)]
pub extern "C" fn lot_kernel_settled_currency_row(
    kernel: &mut ReadHandle,
    currency: u32,
    row: &mut PlainCurrencyRow,
) -> u32
    ensures handle { kernel.new ≡ kernel.old }
    ensures row { MatchOption kernel.old.kernel ((result ≡ code NoKernel) × (row.new ≡ row.old))
        (λ k. ShowsSettledCurrency currency result k row.old row.new) }
{
    match kernel.reader().get() {
        None => Status::NoKernel.code(),
        Some(held) => show_currency(held, currency, row),
    }
}

/// Stores the row of the currency with this number, or returns `NotSettled` or `NotThere`.
fn show_currency(kernel: &Kernel, currency: u32, row: &mut PlainCurrencyRow) -> u32
    ensures { ShowsSettledCurrency currency result kernel.now row.old row.new }
{
    let Some(settled) = Settled::of(kernel) else {
        return Status::NotSettled.code();
    };
    match settled.currency_row(CurrencyNumber { number: currency }) {
        None => Status::NotThere.code(),
        Some(found) => {
            *row = PlainCurrencyRow::of(&found);
            Status::Done.code()
        }
    }
}

/// Stores the row of the thread with this number. Returns `NoKernel` without a kernel, `NotSettled` if a value is
/// stale, and `NotThere` if there is no such thread.
#[unsafe(no_mangle)]
pub extern "C" fn lot_kernel_settled_thread_row(
    kernel: &mut ReadHandle,
    thread: u32,
    row: &mut PlainThreadRow,
) -> u32
    ensures handle { kernel.new ≡ kernel.old }
    ensures row { MatchOption kernel.old.kernel ((result ≡ code NoKernel) × (row.new ≡ row.old))
        (λ k. ShowsSettledThread thread result k row.old row.new) }
{
    match kernel.reader().get() {
        None => Status::NoKernel.code(),
        Some(held) => show_thread(held, thread, row),
    }
}

/// Stores the row of the thread with this number, or returns `NotSettled` or `NotThere`.
fn show_thread(kernel: &Kernel, thread: u32, row: &mut PlainThreadRow) -> u32
    ensures { ShowsSettledThread thread result kernel.now row.old row.new }
{
    let Some(settled) = Settled::of(kernel) else {
        return Status::NotSettled.code();
    };
    match settled.thread_row(ThreadNumber { number: thread }) {
        None => Status::NotThere.code(),
        Some(found) => {
            *row = PlainThreadRow::of(&found);
            Status::Done.code()
        }
    }
}
