//! Events through a handle.
ghost use Rattle.std.specs.Prelude.{◌≡◌, ◌≢◌, length};
ghost use Rattle.lot_c.specs.declared.status.Status.TheVariants.{CountsDiffer, NoKernel};
ghost use Rattle.lot_c.specs.Calls.{AreAnswered, IsAnswered, Through};
ghost use Rattle.lot_c.specs.Numbers.{code};

use crate::event::PlainEvent;
use crate::handle::Handle;
use crate::reply::PlainReply;
use crate::status::Status;
use lot_kernel::Kernel;

/// Makes one event and stores its reply. Returns `NoKernel` without a kernel, and `BadKind`, `LongName` or `BadName`
/// for invalid fields; then nothing changes. A refusal by the kernel is a reply, with the status `Done`.
#[unsafe(no_mangle)]
pub extern "C" fn lot_kernel_event(
    kernel: &mut Handle,
    event: &PlainEvent,
    reply: &mut PlainReply,
) -> u32
    ensures { Through kernel.old.kernel kernel.new.kernel ((result ≡ code NoKernel) × (reply.new ≡ reply.old))
        (λ old new. IsAnswered event.now result old new reply.old reply.new) }
{
    match kernel.get_mut() {
        None => Status::NoKernel.code(),
        Some(held) => answer(held, event, reply),
    }
}

/// Makes one event if its fields are valid, and otherwise returns the fault.
fn answer(kernel: &mut Kernel, event: &PlainEvent, reply: &mut PlainReply) -> u32
    ensures { IsAnswered event.now result kernel.old kernel.new reply.old reply.new }
{
    match event.read(&kernel.limits()) {
        Err(why) => why.code(),
        Ok(event) => {
            *reply = PlainReply::of(kernel.event(&event));
            Status::Done.code()
        }
    }
}

/// Makes events in order, up to the first with invalid fields, and stores how many it made. Returns `CountsDiffer`
/// unless there are as many replies as events, `NoKernel` without a kernel, and the fault of the first invalid fields,
/// after the events before it.
#[unsafe(no_mangle)]
pub extern "C" fn lot_kernel_run(
    kernel: &mut Handle,
    events: &[PlainEvent],
    replies: &mut [PlainReply],
    done: &mut usize,
) -> u32
    ensures differ { length events.now ≢ length replies.old
        → (result ≡ code CountsDiffer) × (kernel.new.kernel ≡ kernel.old.kernel) × (replies.new ≡ replies.old)
        × (done.new ≡ done.old) }
    ensures answers { length events.now ≡ length replies.old
        → Through kernel.old.kernel kernel.new.kernel ((result ≡ code NoKernel) × (replies.new ≡ replies.old)
        × (done.new ≡ done.old)) (λ old new. AreAnswered events.now result done.new old new replies.old replies.new) }
{
    if events.len() != replies.len() {
        return Status::CountsDiffer.code();
    }
    match kernel.get_mut() {
        None => Status::NoKernel.code(),
        Some(held) => answer_all(held, events, replies, done),
    }
}

/// Makes events in order, up to the first with invalid fields, and stores how many it made. Returns the fault of these
/// fields.
fn answer_all(
    kernel: &mut Kernel,
    events: &[PlainEvent],
    replies: &mut [PlainReply],
    done: &mut usize,
) -> u32
    requires { length events.now ≡ length replies.old }
    ensures { AreAnswered events.now result done.new kernel.old kernel.new replies.old replies.new }
{
    *done = 0;
    let limits = kernel.limits();
    for i in 0..events.len() {
        match events[i].read(&limits) {
            Err(why) => return why.code(),
            Ok(event) => {
                replies[i] = PlainReply::of(kernel.event(&event));
                *done = i + 1;
            }
        }
    }
    Status::Done.code()
}
