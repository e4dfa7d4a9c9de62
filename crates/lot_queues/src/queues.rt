//! The queues.
ghost use Rattle.std.specs.Prelude.{◌≡◌, ◌↔◌, ◌<◌, ◌≤◌, ◌^◌, ◌++◌, ◌∷◌, [], ℕ, IfNone, IfOk, IfSome, IsTrue, drop};
ghost use Rattle.std.specs.Prelude.{◌+◌, ◌*◌, length, map, remove, option_map, slice_get};
ghost use Rattle.lot_machine.specs.Numbered.{set_number};
ghost use Rattle.lot_machine.specs.Ports as machine;
ghost use Rattle.lot_machine.specs.Ports.{port_at, clients_of, with_client};
ghost use Rattle.lot_machine.specs.Mutexes.{mutex_at};
ghost use Rattle.lot_machine.specs.Kill.{without};
ghost use Rattle.lot_lists.specs.NodeLists.{nodes_of, node_at, IsFree, HasSameSize, IsConsistent};
ghost use Rattle.lot_queues.specs.QueueLists.{IsThere, IsNowhere, IsWaiter, empty_queues, with_calls, with_receivers};
ghost use Rattle.lot_queues.specs.QueueLists.{with_waiters, with_owner, queues_without};
ghost use Rattle.lot_queues.specs.Calls.{queued_call};
ghost use Rattle.lot_queues.specs.Fields.{relisted, threads_in, call_of};

use crate::layout::{Layout, node_of};
use lot_kept::{Kept, Stack};
use lot_lists::Lists;
use lot_machine::index_of;
use std::alloc::{AllocError, Global};
use std::marker::Model;
use std::mem::size_of;

// The bytes of the number that a thread sent, and of a mutex's owner.
const SENT_BYTES: u64 = size_of::<u32>() as u64;

const OWNER_BYTES: u64 = size_of::<Option<u32>>() as u64;

/// A call taken from its port: the caller, and the number that it sent.
#[derive(Clone, Copy, Debug, PartialEq, Eq)]
pub struct TakenCall {
    pub caller: u32,
    pub number: u32,
}

/// The queues. Threads, ports and mutexes are numbered from 1.
#[derive(Debug)]
pub struct Queues {
    lists: Lists,
    // The number that each thread sent with its last queued call.
    sent: Kept<u32>,
    owners: Kept<Option<u32>>,
    threads: u32,
    layout: Layout,
}

impl Drop for Queues {
    // An explicit drop: code that drops a `Queues` is then proved without unfolding its fields.
    fn drop(self) {
        let Self {
            lists: _,
            sent: _,
            owners: _,
            threads: _,
            layout: _,
        } = self;
    }
}

impl Model for Queues {
    ghost use Rattle.lot_queues.specs.QueueLists.{QueueLists};

    ghost Value = { QueueLists };

    ghost use Rattle.lot_queues.specs.Fields.{seen, IsLaidOut};

    ghost view = { λ s. seen (record {
      lists = s.lists;
      sent = s.sent.items;
      owners = s.owners.items;
      threads = s.threads;
      layout = s.layout;
    }) };

    ghost invariant = { λ s. IsLaidOut (record {
      lists = s.lists;
      sent = s.sent.items;
      owners = s.owners.items;
      threads = s.threads;
      layout = s.layout;
    }) };
}

impl Queues {
    /// Empty ports and free mutexes, with capacity for `threads` threads, and none of them made.
    ///
    /// Fails with `AllocError` if out of memory, or if a `u32` can't number the queues and the threads together.
    pub fn new(alloc: Global, ports: u32, mutexes: u32, threads: u32) -> Result<Self, AllocError>
        ensures { IfOk result (λ made. made ≡ empty_queues ports mutexes threads) }
    {
        let layout = Layout {
            room: threads,
            ports,
            mutexes,
        };
        Ok(Queues {
            lists: Lists::new(alloc, layout.list_count(), threads as usize)?,
            sent: Kept::filled(alloc, 0, threads as usize)?,
            owners: Kept::filled(alloc, None, mutexes as usize)?,
            threads: 0,
            layout,
        })
    }

    /// The number of bytes that `new` requests from the allocator.
    pub fn bytes(ports: u32, mutexes: u32, threads: u32) -> u64
        ensures { result ≡ 16 * ports + 16 * mutexes + 24 * threads }
    {
        let layout = Layout {
            room: threads,
            ports,
            mutexes,
        };
        Lists::bytes(layout.list_count(), threads as usize)
            + SENT_BYTES * threads as u64
            + OWNER_BYTES * mutexes as u64
    }

    /// The capacity in bytes: always exactly what `new` requested.
    pub fn held(&self) -> u64
        ensures { result ≡ 16 * length self.now.ports + 16 * length self.now.mutexes + 24 * self.now.room }
    {
        self.lists.held()
            + SENT_BYTES * self.sent.room() as u64
            + OWNER_BYTES * self.owners.room() as u64
    }

    /// The capacity, in threads.
    pub fn room(&self) -> u32
        ensures { result ≡ self.now.room }
    {
        self.layout.room
    }

    /// The number of threads.
    pub fn threads(&self) -> u32
        ensures { result ≡ length self.now.clients }
    {
        self.threads
    }

    /// The number of ports.
    pub fn ports(&self) -> u32
        ensures { result ≡ length self.now.ports }
    {
        self.layout.ports
    }

    /// The number of mutexes.
    pub fn mutexes(&self) -> u32
        ensures { result ≡ length self.now.mutexes }
    {
        self.layout.mutexes
    }

    /// Adds a thread, which serves nobody.
    pub fn add_thread(&mut self)
        requires room { length self.old.clients < self.old.room }
        ensures { self.new ≡ record self.old { clients = self.old.clients ++ [] ∷ [] } }
    {
        self.threads += 1;
    }

    /// Whether a thread is in no queue, which calls that add it to a queue require.
    pub fn is_nowhere(&self, thread: u32) -> bool
        requires { IsThere self.now.clients thread }
        ensures { IsTrue result ↔ IsNowhere self.now thread }
    {
        self.lists.list_of(node_of(thread)).is_none()
    }

    /// Queues a thread's call at a port, behind earlier calls.
    pub fn push_call(&mut self, port: u32, caller: u32, number: u32)
        requires port_there { IsThere self.old.ports port }
        requires thread_there { IsThere self.old.clients caller }
        requires nowhere { IsNowhere self.old caller }
        ensures { self.new ≡ record self.old {
          ports = with_calls self.old.ports port
              ((port_at self.old.ports port).calls ++ record { caller = caller; number = number } ∷ []);
        } }
    {
        let node = node_of(caller);
        self.lists.push_back(self.layout.calls(port), node);
        self.sent[node] = number;
    }

    /// Takes the call that has waited longest at a port, or returns `None` if there is none.
    pub fn take_call(&mut self, port: u32) -> Option<TakenCall>
        requires port_there { IsThere self.old.ports port }
        ensures first { option_map queued_call result ≡ slice_get (port_at self.old.ports port).calls 0 }
        ensures rest { self.new ≡ record self.old {
          ports = with_calls self.old.ports port
              (drop 1 (port_at self.old.ports port).calls);
        } }
        ensures unchanged { IfNone result (self.new ≡ self.old) }
        ensures there { IfSome result (λ call. IsThere self.new.clients call.caller) }
        ensures nowhere { IfSome result (λ call. IsNowhere self.new call.caller) }
        ensures others { (t : ℕ) → IsNowhere self.old t → IsNowhere self.new t }
    {
        let node = take_first(&mut self.lists, self.layout.calls(port));
        taken_call(&self.sent, node)
    }

    /// Puts a thread behind those that wait at a port to receive.
    pub fn push_receiver(&mut self, port: u32, thread: u32)
        requires port_there { IsThere self.old.ports port }
        requires thread_there { IsThere self.old.clients thread }
        requires nowhere { IsNowhere self.old thread }
        ensures { self.new ≡ record self.old {
          ports = with_receivers self.old.ports port
              ((port_at self.old.ports port).receivers ++ thread ∷ []);
        } }
    {
        self.lists
            .push_back(self.layout.receivers(port), node_of(thread));
    }

    /// Takes the thread that has waited longest at a port to receive, or returns `None` if there is none.
    pub fn take_receiver(&mut self, port: u32) -> Option<u32>
        requires port_there { IsThere self.old.ports port }
        ensures first { result ≡ slice_get (port_at self.old.ports port).receivers 0 }
        ensures rest { self.new ≡ record self.old {
          ports = with_receivers self.old.ports port
              (drop 1 (port_at self.old.ports port).receivers);
        } }
        ensures unchanged { IfNone result (self.new ≡ self.old) }
        ensures there { IfSome result (IsThere self.new.clients) }
        ensures nowhere { IfSome result (IsNowhere self.new) }
        ensures others { (t : ℕ) → IsNowhere self.old t → IsNowhere self.new t }
    {
        let node = take_first(&mut self.lists, self.layout.receivers(port));
        thread_of(node)
    }

    /// The client that gets a thread's next reply, the one taken first, or `None` if the thread serves nobody.
    pub fn first_client(&self, server: u32) -> Option<u32>
        requires { IsThere self.now.clients server }
        ensures { result ≡ machine.first_client self.now.clients server }
    {
        thread_of(self.lists.first(node_of(server)))
    }

    /// Makes a thread the last client of a server.
    pub fn push_client(&mut self, server: u32, thread: u32)
        requires server_there { IsThere self.old.clients server }
        requires thread_there { IsThere self.old.clients thread }
        requires nowhere { IsNowhere self.old thread }
        ensures { self.new ≡ record self.old { clients = with_client self.old.clients server thread } }
    {
        self.lists.push_back(node_of(server), node_of(thread));
    }

    /// Takes the first client of a server, or returns `None` if it serves nobody.
    pub fn take_client(&mut self, server: u32) -> Option<u32>
        requires server_there { IsThere self.old.clients server }
        ensures first { result ≡ machine.first_client self.old.clients server }
        ensures rest { self.new ≡ record self.old {
          clients = set_number self.old.clients server
              (drop 1 (clients_of self.old.clients server));
        } }
        ensures unchanged { IfNone result (self.new ≡ self.old) }
        ensures there { IfSome result (IsThere self.new.clients) }
        ensures nowhere { IfSome result (IsNowhere self.new) }
        ensures others { (t : ℕ) → IsNowhere self.old t → IsNowhere self.new t }
    {
        let node = take_first(&mut self.lists, node_of(server));
        thread_of(node)
    }

    /// The owner of a mutex, or `None` if it is free.
    pub fn owner(&self, mutex: u32) -> Option<u32>
        requires { IsThere self.now.mutexes mutex }
        ensures { result ≡ (mutex_at self.now.mutexes mutex).owner }
    {
        self.owners[index_of(mutex)]
    }

    /// The owner of each mutex.
    pub fn owners(&self) -> &[Option<u32>]
        ensures { result.now ≡ map (λ m. m.owner) self.now.mutexes }
    {
        &self.owners
    }

    /// Sets the owner of a mutex; `None` frees it.
    pub fn set_owner(&mut self, mutex: u32, owner: Option<u32>)
        requires { IsThere self.old.mutexes mutex }
        ensures { self.new ≡ record self.old { mutexes = with_owner self.old.mutexes mutex owner } }
    {
        self.owners[index_of(mutex)] = owner;
    }

    /// Puts a thread behind the waiters of a mutex.
    pub fn push_waiter(&mut self, mutex: u32, thread: u32)
        requires mutex_there { IsThere self.old.mutexes mutex }
        requires thread_there { IsThere self.old.clients thread }
        requires nowhere { IsNowhere self.old thread }
        ensures { self.new ≡ record self.old {
          mutexes = with_waiters self.old.mutexes mutex
              ((mutex_at self.old.mutexes mutex).waiters ++ thread ∷ []);
        } }
    {
        self.lists
            .push_back(self.layout.waiters(mutex), node_of(thread));
    }

    /// The thread that has waited longest for a mutex, or `None` if none waits.
    pub fn first_waiter(&self, mutex: u32) -> Option<u32>
        requires { IsThere self.now.mutexes mutex }
        ensures first { result ≡ slice_get (mutex_at self.now.mutexes mutex).waiters 0 }
        ensures there { IfSome result (IsThere self.now.clients) }
    {
        thread_of(self.lists.first(self.layout.waiters(mutex)))
    }

    /// Removes a thread from the waiters of the mutex for which it waits.
    pub fn take_waiter(&mut self, thread: u32)
        requires waits { IsWaiter self.old.mutexes thread }
        ensures taken { (m place : ℕ) → slice_get (mutex_at self.old.mutexes m).waiters place ≡ Some thread
            → self.new ≡ record self.old {
              mutexes = with_waiters self.old.mutexes m
                  (remove (mutex_at self.old.mutexes m).waiters place);
            } }
        ensures there { IsThere self.new.clients thread }
        ensures nowhere { IsNowhere self.new thread }
        ensures others { (t : ℕ) → IsNowhere self.old t → IsNowhere self.new t }
    {
        self.lists.remove(node_of(thread));
    }

    /// Takes a thread out of its queue, if it is in one: its call, receive or wait ends, and no thread serves it.
    pub fn take_out(&mut self, thread: u32)
        requires { IsThere self.old.clients thread }
        ensures out { self.new ≡ queues_without self.old thread }
        ensures nowhere { IsNowhere self.new thread }
    {
        remove_listed(&mut self.lists, node_of(thread));
    }

    /// Stores in `out` the threads that wait for a mutex, the longest wait first. It allocates nothing.
    pub fn list_waiters(&self, mutex: u32, out: &mut Stack<u32>)
        requires mutex_there { IsThere self.now.mutexes mutex }
        requires room { self.now.room ≤ out.old.room }
        ensures waiters { out.new.items ≡ (mutex_at self.now.mutexes mutex).waiters }
        ensures few { length out.new.items ≤ self.now.room }
        ensures room { out.new.room ≡ out.old.room }
    {
        list_threads(&self.lists, self.layout.waiters(mutex), out);
    }
}

/// Takes the first node of a list, if there is one.
fn take_first(lists: &mut Lists, list: usize) -> Option<usize>
    requires { list < length lists.old.lists }
    ensures first { result ≡ node_at lists.old list 0 }
    ensures rest { lists.new ≡ relisted lists.old list (drop 1 (nodes_of lists.old list)) }
    ensures free { IfSome result (IsFree lists.new) }
    ensures consistent { IsConsistent lists.new }
{
    let node = lists.first(list)?;
    lists.remove(node);
    Some(node)
}

/// Removes a node from its list, if it is in one.
fn remove_listed(lists: &mut Lists, node: usize)
    requires { node < lists.old.nodes }
    ensures left { (list : ℕ) → nodes_of lists.new list ≡ without node (nodes_of lists.old list) }
    ensures size { HasSameSize lists.old lists.new }
    ensures free { IsFree lists.new node }
    ensures consistent { IsConsistent lists.new }
{
    if lists.list_of(node).is_none() {
        return;
    }
    lists.remove(node);
}

fn thread_of(node: Option<usize>) -> Option<u32>
    requires { IfSome node (λ n. n + 1 < 2 ^ 32) }
    ensures { result ≡ option_map (λ n. n + 1) node }
{
    let node = node?;
    Some(node as u32 + 1)
}

/// The call of a node's thread.
fn taken_call(sent: &[u32], node: Option<usize>) -> Option<TakenCall>
    requires sent { IfSome node (λ n. n < length sent.now) }
    requires fits { IfSome node (λ n. n + 1 < 2 ^ 32) }
    ensures call { option_map queued_call result ≡ option_map (call_of sent.now) node }
    ensures caller { option_map (λ call. call.caller) result ≡ option_map (λ n. n + 1) node }
{
    let node = node?;
    Some(TakenCall {
        caller: node as u32 + 1,
        number: sent[node],
    })
}

/// Stores the threads of a list in `out`.
fn list_threads(lists: &Lists, list: usize, out: &mut Stack<u32>)
    requires list { list < length lists.now.lists }
    requires room { lists.now.nodes ≤ out.old.room }
    ensures threads { out.new.items ≡ threads_in lists.now list }
    ensures few { length out.new.items ≤ lists.now.nodes }
    ensures room { out.new.room ≡ out.old.room }
{
    out.clear();
    for node in lists.iter(list) {
        out.push(node as u32 + 1);
    }
}
