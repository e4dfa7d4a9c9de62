//! Threads that can never run again.

use crate::lines::{Named, name_numbered};
use crate::message::{Message, Part};
use lot_machine::{Name, Status};
use lot_simulation::{BodyWord, Lack, Owner, StuckThread};
use std::str;

/// The words for a thread with this name and this number.
pub(crate) fn thread_called<'a>(name: Option<&'a Name>, number: u32) -> Part<'a> {
    match name {
        Some(name) if !name.is_none() => Part::Named("thread", text_of(name)),
        _ => Part::Numbered("thread", number),
    }
}

fn text_of(name: &Name) -> &str {
    str::from_utf8(name.as_bytes()).unwrap_or("")
}

/// The words for the port or the mutex with this number, by the word that begins its line.
fn object_called(input: &[u8], word: BodyWord, number: u32) -> Part<'_> {
    let kind = Named::ByWord(word);
    match name_numbered(input, kind, number) {
        Some(name) => Part::Named(kind.text(), name),
        None => Part::Numbered(kind.text(), number),
    }
}

/// The warning about a thread that weighs nothing or waits for good. The input names the ports and mutexes.
pub(crate) fn stuck_message<'a>(thread: &'a StuckThread, input: &'a [u8]) -> Message<'a> {
    let name = thread_called(Some(&thread.name), thread.number);
    match &thread.lack {
        Some(lack) => weightless_message(name, lack),
        None => waiting_message(name, thread, input),
    }
}

/// The warning about a thread that is called so, is ready and weighs nothing.
fn weightless_message<'a>(name: Part<'a>, lack: &'a Lack) -> Message<'a> {
    match lack {
        Lack::Ticket => Message::new(
            "{} is ready at the end and weighs nothing: it wins no draw before something funds it",
            &[name],
        ),
        Lack::Funding(currency) => Message::new(
            "{} is ready at the end and weighs nothing: it wins no draw before something funds its currency '{}'",
            &[name, Part::Text(text_of(currency))],
        ),
        Lack::Value => Message::new(
            "{} is ready at the end and weighs nothing: it is funded, but its value rounds to 0",
            &[name],
        ),
    }
}

/// The warning about a thread that is called so and waits for good.
fn waiting_message<'a>(name: Part<'a>, thread: &'a StuckThread, input: &'a [u8]) -> Message<'a> {
    match thread.status {
        Status::Served(server) => {
            let server = thread_called(thread.server.as_ref(), server);
            Message::new("{} waits for good for a reply of {}", &[name, server])
        }
        Status::Queued(port) => {
            let port = object_called(input, BodyWord::Port, port);
            Message::new("{} waits for good for a server at {}", &[name, port])
        }
        Status::Waiting(mutex) => {
            let mutex = object_called(input, BodyWord::Mutex, mutex);
            mutex_message(name, mutex, thread.owner.as_ref())
        }
        _ => Message::new("{} waits for good", &[name]),
    }
}

/// The warning about a thread that is called so and waits for the mutex that is called so, which has this owner.
fn mutex_message<'a>(name: Part<'a>, mutex: Part<'a>, owner: Option<&'a Owner>) -> Message<'a> {
    let Some(owner) = owner else {
        return Message::new("{} waits for good for {}", &[name, mutex]);
    };
    let text = if owner.has_ended {
        "{} waits for good for {}, whose owner, {}, has ended"
    } else {
        "{} waits for good for {}, which {} owns"
    };
    let owner = thread_called(Some(&owner.name), owner.number);
    Message::new(text, &[name, mutex, owner])
}
