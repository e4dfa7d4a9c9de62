//! The reasons why commands are refused.

use crate::limit::limit_message;
use crate::lines::{InputCommand, Named, Nearest, nearest_name};
use crate::message::{Message, Part};
use lot_machine::{Refusal, Verb, is_good_name};
use lot_simulation::{BodyWord, RefusedCommand};
use std::alloc::Global;

/// The reason for the refusal of this command of the input, among these refusals.
pub(crate) fn reason_message<'a>(
    alloc: Global,
    input: &'a [u8],
    command: InputCommand<'a>,
    refusal: Refusal,
    refused: &[RefusedCommand],
) -> Message<'a> {
    if refusal == Refusal::Full {
        return limit_message(input, command, refused);
    }
    let word = match argument_of(refusal) {
        Some(name) => command.argument(name).unwrap_or(""),
        None => "",
    };
    if refusal == Refusal::NoTicket && is_good_name(word.as_bytes()) {
        return Message::new("no ticket has the name '{}' now", &[Part::Text(word)]);
    }
    let text = match refusal {
        _ if word.is_empty() => "{}",
        Refusal::NoTicket | Refusal::BadAmount => "{} {}",
        _ => "{} '{}'{}",
    };
    let nearest = Part::Nearest(nearest_made(alloc, input, refusal, word));
    Message::new(
        text,
        &[Part::Text(text_of(refusal)), Part::Text(word), nearest],
    )
}

/// The name of the argument at fault, if one is.
fn argument_of(refusal: Refusal) -> Option<&'static str> {
    match refusal {
        Refusal::BadName | Refusal::NameTaken => Some("NAME"),
        Refusal::NoCurrency => Some("CURRENCY"),
        Refusal::NoTicket => Some("TICKET"),
        Refusal::NoTarget => Some("TARGET"),
        Refusal::BadAmount => Some("AMOUNT"),
        Refusal::NoScript => Some("SCRIPT"),
        Refusal::NoThread => Some("THREAD"),
        _ => None,
    }
}

/// The kinds of names among which the word of this refusal is missing, if it is a missing name.
fn missing_kinds(refusal: Refusal) -> &'static [Named] {
    match refusal {
        Refusal::NoCurrency => &[Named::ByWord(BodyWord::Command(Verb::MakeCurrency))],
        Refusal::NoThread => &[
            Named::ByWord(BodyWord::Command(Verb::MakeThread)),
            Named::ByWord(BodyWord::Command(Verb::MakeFunded)),
        ],
        Refusal::NoTarget => &[
            Named::ByWord(BodyWord::Command(Verb::MakeCurrency)),
            Named::ByWord(BodyWord::Command(Verb::MakeThread)),
            Named::ByWord(BodyWord::Command(Verb::MakeFunded)),
        ],
        Refusal::NoScript => &[Named::ByWord(BodyWord::Script)],
        _ => &[],
    }
}

/// The name nearest to this word, among those of the kinds where the refusal misses it.
fn nearest_made<'a>(alloc: Global, input: &'a [u8], refusal: Refusal, word: &str) -> Nearest<'a> {
    let kinds = missing_kinds(refusal);
    if kinds.is_empty() {
        return Nearest::NONE;
    }
    let nearest = nearest_name(alloc, input, kinds, word);
    if refusal == Refusal::NoCurrency {
        nearest.or(alloc, word, "base")
    } else {
        nearest
    }
}

/// The reason in words. The word at fault comes after them.
fn text_of(refusal: Refusal) -> &'static str {
    match refusal {
        Refusal::BadName => {
            "a name is a letter a to z, and then letters a to z, digits, '_' or '-', and not"
        }
        Refusal::NameTaken => "a currency or a thread already has the name",
        Refusal::NoCurrency => "no currency has the name",
        Refusal::NoTicket => "no ticket has the number",
        Refusal::NoTarget => "no currency and no thread has the name",
        Refusal::BadAmount => "an amount is a number from 1 to 4294967295, and not",
        Refusal::InUse => {
            "tickets are in it or fund it, or the thread has a client or owns a mutex"
        }
        Refusal::Funding => "the ticket funds something: 'unfund' comes first",
        Refusal::NotFunding => "the ticket funds nothing",
        Refusal::Cycle => "the currency would fund itself",
        Refusal::BaseFixed => "base can't be removed, and nothing can fund it",
        Refusal::DeadThread => "the thread has ended",
        Refusal::Full => "there are as many as the limits allow",
        Refusal::NoScript => "no script of an earlier line has the name",
        Refusal::NoThread => "no thread has the name",
        Refusal::Alive => "the thread hasn't ended",
        Refusal::BadProcessor
        | Refusal::Busy
        | Refusal::NotRunning
        | Refusal::BadTicks
        | Refusal::NotAsleep => "the kernel can't take it now",
    }
}
