//! A kernel through a handle: making and freeing it, and queries that read it in place.
ghost use Rattle.std.specs.Prelude.{◌≡◌, ◌⊎◌, IfOk, IfSome, IfErr, MatchOption, None, Some, length};
ghost use Rattle.lot_machine.specs.Bounds.{IsWithinBounds};
ghost use Rattle.lot_machine.specs.Facts.{IsSound};
ghost use Rattle.lot_kernel.specs.Snapshots.{starting};
ghost use Rattle.lot_c.specs.declared.status.Status.TheVariants.{BadLimits, Done, NoKernel, NoMemory};
ghost use Rattle.lot_c.specs.Calls.{Opens, ShowsRunner, ShowsScript, TellsBytes};
ghost use Rattle.lot_c.specs.Counts.{plain_meter, plain_sizes, sizes_meant};
ghost use Rattle.lot_c.specs.Numbers.{code};

use crate::handle::Handle;
use crate::reader::ReadHandle;
use crate::sizes::{PlainMeter, PlainRunner, PlainSizes};
use crate::status::Status;
use lot_kernel::{Kernel, Processor, ThreadNumber};
use std::alloc::Global;
use std::mem::size_of;

// The bytes of the kernel's box, in addition to those of the kernel's tables.
const KERNEL_BYTES: u64 = size_of::<Kernel>() as u64;

/// Makes a kernel with these sizes, for a handle without one. It allocates all the memory that the kernel will ever
/// use. Returns `KernelThere` if the handle has a kernel, `BadLimits` if a size is out of its bounds, and `NoMemory` if
/// out of memory.
#[unsafe(no_mangle)]
pub extern "C" fn lot_kernel_new(alloc: Global, sizes: &PlainSizes, kernel: &mut Handle) -> u32
    ensures opens { Opens sizes.now result kernel.old.kernel kernel.new.kernel }
    ensures sound { kernel.old.kernel ≡ None → IfSome kernel.new.kernel (λ k. IsSound k.state) }
{
    if !kernel.is_empty() {
        return Status::KernelThere.code();
    }
    match make(alloc, sizes) {
        Err(why) => why.code(),
        Ok(made) => {
            kernel.put(made);
            Status::Done.code()
        }
    }
}

/// A kernel with these sizes, or `BadLimits` or `NoMemory`.
fn make(alloc: Global, sizes: &PlainSizes) -> Result<Box<Kernel>, Status>
    ensures opening { IfOk result (λ k. k.value ≡ starting (sizes_meant sizes.now)) }
    ensures sound { IfOk result (λ k. IsSound k.value.state) }
    ensures limits { IfOk result (λ k. IsWithinBounds (sizes_meant sizes.now)) }
    ensures fault { IfErr result (λ why. ((why ≡ BadLimits) × ¬ IsWithinBounds (sizes_meant sizes.now))
        ⊎ ((why ≡ NoMemory) × IsWithinBounds (sizes_meant sizes.now))) }
{
    let Some(limits) = sizes.limits() else {
        return Err(Status::BadLimits);
    };
    let Ok(kernel) = Kernel::new(alloc, limits) else {
        return Err(Status::NoMemory);
    };
    Box::new(alloc, kernel).map_err(|_| Status::NoMemory)
}

/// Stores the number of bytes that `lot_kernel_new` requests from the allocator for a kernel with these sizes. Returns
/// `BadLimits` if a size is out of its bounds.
#[unsafe(no_mangle)]
pub extern "C" fn lot_kernel_bytes(sizes: &PlainSizes, bytes: &mut u64) -> u32
    ensures { TellsBytes sizes.now result bytes.old bytes.new }
{
    match sizes.limits() {
        None => Status::BadLimits.code(),
        Some(limits) => {
            *bytes = KERNEL_BYTES + Kernel::bytes(&limits);
            Status::Done.code()
        }
    }
}

/// Frees the kernel, if the handle has one, and leaves the handle without a kernel. It always returns `Done`.
#[unsafe(no_mangle)]
pub extern "C" fn lot_kernel_free(alloc: Global, kernel: &mut Handle) -> u32
    ensures freed { kernel.new.kernel ≡ None }
    ensures done { result ≡ code Done }
{
    if let Some(held) = kernel.take(alloc) {
        drop(held);
    }
    Status::Done.code()
}

/// Stores the sizes that the kernel was made with. Returns `NoKernel` without a kernel.
#[unsafe(no_mangle)]
pub extern "C" fn lot_kernel_limits(kernel: &mut ReadHandle, sizes: &mut PlainSizes) -> u32
    ensures handle { kernel.new ≡ kernel.old }
    ensures limits { MatchOption kernel.old.kernel ((result ≡ code NoKernel) × (sizes.new ≡ sizes.old))
        (λ k. (result ≡ code Done) × (sizes.new ≡ plain_sizes k.state.limits)) }
{
    let Some(held) = kernel.reader().get() else {
        return Status::NoKernel.code();
    };
    *sizes = PlainSizes::of(held.limits());
    Status::Done.code()
}

/// Stores the counts of tickets, lends and owners read, and of places visited in the tree of weights. Returns
/// `NoKernel` without a kernel.
#[unsafe(no_mangle)]
pub extern "C" fn lot_kernel_meter(kernel: &mut ReadHandle, meter: &mut PlainMeter) -> u32
    ensures handle { kernel.new ≡ kernel.old }
    ensures meter { MatchOption kernel.old.kernel ((result ≡ code NoKernel) × (meter.new ≡ meter.old))
        (λ k. (result ≡ code Done) × (meter.new ≡ plain_meter k.meter)) }
{
    let Some(held) = kernel.reader().get() else {
        return Status::NoKernel.code();
    };
    *meter = PlainMeter::of(held.meter());
    Status::Done.code()
}

/// Stores the count of ticket numbers given so far, those of removed tickets included. Returns `NoKernel` without a
/// kernel.
#[unsafe(no_mangle)]
pub extern "C" fn lot_kernel_ticket_count(kernel: &mut ReadHandle, count: &mut u32) -> u32
    ensures handle { kernel.new ≡ kernel.old }
    ensures count { MatchOption kernel.old.kernel ((result ≡ code NoKernel) × (count.new ≡ count.old))
        (λ k. (result ≡ code Done) × (count.new ≡ length k.state.tickets)) }
{
    let Some(held) = kernel.reader().get() else {
        return Status::NoKernel.code();
    };
    *count = held.ticket_count();
    Status::Done.code()
}

/// Stores the count of currency numbers given so far, those of base and of removed currencies included. Returns
/// `NoKernel` without a kernel.
#[unsafe(no_mangle)]
pub extern "C" fn lot_kernel_currency_count(kernel: &mut ReadHandle, count: &mut u32) -> u32
    ensures handle { kernel.new ≡ kernel.old }
    ensures count { MatchOption kernel.old.kernel ((result ≡ code NoKernel) × (count.new ≡ count.old))
        (λ k. (result ≡ code Done) × (count.new ≡ length k.state.currencies)) }
{
    let Some(held) = kernel.reader().get() else {
        return Status::NoKernel.code();
    };
    *count = held.currency_count();
    Status::Done.code()
}

/// Stores the thread that runs on the processor. Returns `NoKernel` without a kernel, and `NotThere` if no thread runs
/// there.
#[unsafe(no_mangle)]
pub extern "C" fn lot_kernel_runner(
    kernel: &mut ReadHandle,
    processor: u32,
    runner: &mut PlainRunner,
) -> u32
    ensures handle { kernel.new ≡ kernel.old }
    ensures runner { MatchOption kernel.old.kernel ((result ≡ code NoKernel) × (runner.new ≡ runner.old))
        (λ k. ShowsRunner processor result k runner.old runner.new) }
{
    match kernel.reader().get() {
        None => Status::NoKernel.code(),
        Some(held) => show_runner(held, processor, runner),
    }
}

/// Stores the thread that runs on the processor, or returns `NotThere`.
fn show_runner(kernel: &Kernel, processor: u32, runner: &mut PlainRunner) -> u32
    ensures { ShowsRunner processor result kernel.now runner.old runner.new }
{
    match kernel.runner(Processor { number: processor }) {
        None => Status::NotThere.code(),
        Some(found) => {
            *runner = PlainRunner::of(found);
            Status::Done.code()
        }
    }
}

/// Stores the number of the thread's script, fixed when it was made. Returns `NoKernel` without a kernel, and
/// `NotThere` if there is no such thread.
#[unsafe(no_mangle)]
pub extern "C" fn lot_kernel_script_of(
    kernel: &mut ReadHandle,
    thread: u32,
    script: &mut u32,
) -> u32
    ensures handle { kernel.new ≡ kernel.old }
    ensures script { MatchOption kernel.old.kernel ((result ≡ code NoKernel) × (script.new ≡ script.old))
        (λ k. ShowsScript thread result k script.old script.new) }
{
    match kernel.reader().get() {
        None => Status::NoKernel.code(),
        Some(held) => show_script(held, thread, script),
    }
}

/// Stores the number of the thread's script, or returns `NotThere`.
fn show_script(kernel: &Kernel, thread: u32, script: &mut u32) -> u32
    ensures { ShowsScript thread result kernel.now script.old script.new }
{
    match kernel.script_of(ThreadNumber { number: thread }) {
        None => Status::NotThere.code(),
        Some(found) => {
            *script = found;
            Status::Done.code()
        }
    }
}
