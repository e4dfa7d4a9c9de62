//! Calls, receives and replies (4.6).
ghost use Rattle.std.specs.Prelude.{◌≡◌, [], Some, length};
ghost use Rattle.lot_machine.specs.declared.funding.Node.{Node as ANode};
ghost use Rattle.lot_machine.specs.Kill.{released};
ghost use Rattle.lot_machine.specs.Numbered.{set_number};
ghost use Rattle.lot_machine.specs.Ports as machine;
ghost use Rattle.lot_machine.specs.Ports.{first_client, clients_of};
ghost use Rattle.lot_machine.specs.State.{change_each};
ghost use Rattle.lot_machine.specs.declared.reply.Outcome.TheVariants.{Replied};
ghost use Rattle.lot_queues.specs.QueueLists.{IsThere, IsNowhere};
ghost use Rattle.lot_threads.specs.Threaded.{IsLiveIn, IsStaleIn, MakesStaleIn, with_records};
ghost use Rattle.lot_ports.specs.Traps.{IsPortTrap};

use lot_machine::{After, Outcome, PortNumber, Status, ThreadNumber};
use lot_queues::Queues;
use lot_threads::{Threads, TrapEffect};

/// A call to a port: the thread that has waited longest to receive there serves it, otherwise it is queued.
pub fn call(
    threads: &mut Threads,
    queues: &mut Queues,
    caller: ThreadNumber,
    port: PortNumber,
    number: u32,
) -> TrapEffect
    requires port { IsThere queues.old.ports port.number }
    requires caller { IsThere queues.old.clients caller.number }
    requires nowhere { IsNowhere queues.old caller.number }
    requires same { length threads.old.records ≡ length queues.old.clients }
    ensures { IsPortTrap threads.old queues.old
        (machine.call threads.old.records queues.old.clients queues.old.ports caller.number port.number number)
        result threads.new queues.new }
{
    let Some(server) = queues.take_receiver(port.number) else {
        queues.push_call(port.number, caller.number, number);
        return TrapEffect {
            outcome: Outcome::Queued,
            after: After::Leaves(Status::Queued(port.number)),
        };
    };
    threads.deliver(ThreadNumber { number: server }, number);
    queues.push_client(server, caller.number);
    TrapEffect {
        outcome: Outcome::ServedBy(server),
        after: After::Leaves(Status::Served(server)),
    }
}

/// A receive at a port by a running thread: it takes the call that has waited longest, otherwise it waits there.
pub fn receive(
    threads: &mut Threads,
    queues: &mut Queues,
    server: ThreadNumber,
    port: PortNumber,
) -> TrapEffect
    requires port { IsThere queues.old.ports port.number }
    requires server { IsLiveIn threads.old server.number }
    requires nowhere { IsNowhere queues.old server.number }
    requires same { length threads.old.records ≡ length queues.old.clients }
    ensures { IsPortTrap threads.old queues.old
        (machine.receive threads.old.records queues.old.clients queues.old.ports server.number port.number)
        result threads.new queues.new }
{
    let Some(call) = queues.take_call(port.number) else {
        queues.push_receiver(port.number, server.number);
        return TrapEffect {
            outcome: Outcome::Waits,
            after: After::Leaves(Status::Receiving(port.number)),
        };
    };
    let caller = ThreadNumber {
        number: call.caller,
    };
    threads.set_status(caller, Status::Served(server.number));
    queues.push_client(server.number, call.caller);
    TrapEffect {
        outcome: Outcome::Received {
            client: call.caller,
            number: call.number,
        },
        after: After::GoesOn,
    }
}

/// A reply of a thread to its next client: the client becomes Ready, and the number is delivered to it.
pub fn reply(
    threads: &mut Threads,
    queues: &mut Queues,
    server: ThreadNumber,
    client: ThreadNumber,
    number: u32,
) -> TrapEffect
    requires server { IsThere queues.old.clients server.number }
    requires client { first_client queues.old.clients server.number ≡ Some client.number }
    requires same { length threads.old.records ≡ length queues.old.clients }
    ensures done { IsPortTrap threads.old queues.old
        (machine.reply threads.old.records queues.old.clients queues.old.ports server.number number)
        result threads.new queues.new }
    ensures nowhere { IsNowhere queues.new client.number }
{
    let _ = queues.take_client(server.number);
    threads.deliver(client, number);
    TrapEffect {
        outcome: Outcome::Replied(client.number),
        after: After::GoesOn,
    }
}

/// A reply of a running thread to its next client, followed by a receive at a port.
pub fn serve(
    threads: &mut Threads,
    queues: &mut Queues,
    server: ThreadNumber,
    client: ThreadNumber,
    port: PortNumber,
    number: u32,
) -> TrapEffect
    requires port { IsThere queues.old.ports port.number }
    requires server { IsLiveIn threads.old server.number }
    requires nowhere { IsNowhere queues.old server.number }
    requires client { first_client queues.old.clients server.number ≡ Some client.number }
    requires same { length threads.old.records ≡ length queues.old.clients }
    ensures { IsPortTrap threads.old queues.old
        (machine.serve threads.old.records queues.old.clients queues.old.ports server.number port.number number)
        result threads.new queues.new }
{
    let _ = reply(threads, queues, server, client, number);
    let receipt = receive(threads, queues, server, port);
    TrapEffect {
        outcome: replied_then(client.number, receipt.outcome),
        after: receipt.after,
    }
}

/// Ends the calls of a server's clients: each is Ready again, with nothing delivered.
pub fn release_clients(threads: &mut Threads, queues: &mut Queues, server: ThreadNumber)
    requires server { IsThere queues.old.clients server.number }
    requires same { length threads.old.records ≡ length queues.old.clients }
    ensures threads { threads.new ≡ with_records threads.old
        (change_each released threads.old.records (clients_of queues.old.clients server.number)) threads.new.stale }
    ensures queues { queues.new ≡ record queues.old {
      clients = set_number queues.old.clients server.number [];
    } }
    ensures kept { (node : ANode) → IsStaleIn threads.old node → IsStaleIn threads.new node }
    ensures stale { MakesStaleIn threads.old threads.new }
{
    while let Some(client) = queues.take_client(server.number) {
        threads.set_status(ThreadNumber { number: client }, Status::Ready);
    }
}

/// The outcome of a serve, from the client that got the reply and the outcome of the receive.
fn replied_then(to: u32, receipt: Outcome) -> Outcome
    ensures { result ≡ machine.replied_then (Replied to) receipt }
{
    match receipt {
        Outcome::Received { client, number } => {
            Outcome::RepliedThenReceived { to, client, number }
        }
        _ => Outcome::RepliedThenWaits(to),
    }
}
