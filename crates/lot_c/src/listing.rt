//! Rows of listings through a handle.
ghost use Rattle.std.specs.Prelude.{◌≡◌};
ghost use Rattle.lot_c.specs.declared.status.Status.TheVariants.{NoKernel};
ghost use Rattle.lot_c.specs.Calls.{ShowsCurrency, ShowsThread, ShowsTicket, Through};
ghost use Rattle.lot_c.specs.Numbers.{code};

use crate::handle::Handle;
use crate::rows::{PlainCurrencyRow, PlainThreadRow, PlainTicketRow};
use crate::status::Status;
use lot_kernel::{CurrencyNumber, Kernel, ThreadNumber, TicketNumber};

/// Stores the row of the ticket with this number. Returns `NoKernel` without a kernel, and `NotThere` if there is no
/// such ticket.
#[unsafe(no_mangle)]
pub extern "C" fn lot_kernel_ticket_row(
    kernel: &mut Handle,
    ticket: u32,
    row: &mut PlainTicketRow,
) -> u32
    ensures { Through kernel.old.kernel kernel.new.kernel ((result ≡ code NoKernel) × (row.new ≡ row.old))
        (λ old new. ShowsTicket ticket result old new row.old row.new) }
{
    match kernel.get_mut() {
        None => Status::NoKernel.code(),
        Some(held) => show_ticket(held, ticket, row),
    }
}

/// Stores the row of the ticket with this number, or returns `NotThere`.
fn show_ticket(kernel: &mut Kernel, ticket: u32, row: &mut PlainTicketRow) -> u32
    ensures { ShowsTicket ticket result kernel.old kernel.new row.old row.new }
{
    match kernel.ticket_row(TicketNumber { number: ticket }) {
        None => Status::NotThere.code(),
        Some(found) => {
            *row = PlainTicketRow::of(&found);
            Status::Done.code()
        }
    }
}

/// Stores the row of the currency with this number. Returns `NoKernel` without a kernel, and `NotThere` if there is no
/// such currency.
#[unsafe(no_mangle)]
pub extern "C" fn lot_kernel_currency_row(
    kernel: &mut Handle,
    currency: u32,
    row: &mut PlainCurrencyRow,
) -> u32
    ensures { Through kernel.old.kernel kernel.new.kernel ((result ≡ code NoKernel) × (row.new ≡ row.old))
        (λ old new. ShowsCurrency currency result old new row.old row.new) }
{
    match kernel.get_mut() {
        None => Status::NoKernel.code(),
        Some(held) => show_currency(held, currency, row),
    }
}

/// Stores the row of the currency with this number, or returns `NotThere`.
fn show_currency(kernel: &mut Kernel, currency: u32, row: &mut PlainCurrencyRow) -> u32
    ensures { ShowsCurrency currency result kernel.old kernel.new row.old row.new }
{
    match kernel.currency_row(CurrencyNumber { number: currency }) {
        None => Status::NotThere.code(),
        Some(found) => {
            *row = PlainCurrencyRow::of(&found);
            Status::Done.code()
        }
    }
}

/// Stores the row of the thread with this number. Returns `NoKernel` without a kernel, and `NotThere` if there is no
/// such thread.
#[unsafe(no_mangle)]
pub extern "C" fn lot_kernel_thread_row(
    kernel: &mut Handle,
    thread: u32,
    row: &mut PlainThreadRow,
) -> u32
    ensures { Through kernel.old.kernel kernel.new.kernel ((result ≡ code NoKernel) × (row.new ≡ row.old))
        (λ old new. ShowsThread thread result old new row.old row.new) }
{
    match kernel.get_mut() {
        None => Status::NoKernel.code(),
        Some(held) => show_thread(held, thread, row),
    }
}

/// Stores the row of the thread with this number, or returns `NotThere`.
fn show_thread(kernel: &mut Kernel, thread: u32, row: &mut PlainThreadRow) -> u32
    ensures { ShowsThread thread result kernel.old kernel.new row.old row.new }
{
    match kernel.thread_row(ThreadNumber { number: thread }) {
        None => Status::NotThere.code(),
        Some(found) => {
            *row = PlainThreadRow::of(&found);
            Status::Done.code()
        }
    }
}
