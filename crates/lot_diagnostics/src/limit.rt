//! The limit that a command has reached.

use crate::lines::{InputCommand, has_header_line, header_number, is_timed};
use crate::message::{Message, Part};
use lot_machine::Verb;
use lot_simulation::{BodyWord, HeaderWord, Range, RefusedCommand, ranges};

/// A limit of the header: its name there, the things that it limits, and the largest number that an input may give it,
/// which is also the default.
#[derive(Clone, Copy)]
struct Limit {
    name: &'static str,
    what: &'static str,
    range: Range,
}

const TICKETS: Limit = Limit {
    name: "TICKETS",
    what: "tickets",
    range: ranges::TICKETS,
};

const CURRENCIES: Limit = Limit {
    name: "CURRENCIES",
    what: "currencies",
    range: ranges::CURRENCIES,
};

const THREADS: Limit = Limit {
    name: "THREADS",
    what: "threads",
    range: ranges::THREADS,
};

impl Limit {
    fn number(self, input: &[u8]) -> u32 {
        header_number(input, HeaderWord::Limits, self.name).unwrap_or(self.range.last)
    }
}

/// The reason why this command of the input is refused, after these refusals: it has reached a limit.
pub(crate) fn limit_message(
    input: &[u8],
    command: InputCommand<'_>,
    refused: &[RefusedCommand],
) -> Message<'static> {
    let limit = match command.word {
        BodyWord::Command(Verb::MakeCurrency) => CURRENCIES,
        BodyWord::Command(Verb::MakeThread) => THREADS,
        BodyWord::Command(Verb::MakeFunded) if has_all_threads(input, command, refused) => THREADS,
        _ => TICKETS,
    };
    let text = if is_timed(input) && !has_header_line(input, HeaderWord::Reuse) {
        "there are as many {} as {} allows in the header's 'limits TICKETS CURRENCIES THREADS', {}; \
        removed ones count too, unless the header has 'reuse'"
    } else {
        "there are as many {} as {} allows in the header's 'limits TICKETS CURRENCIES THREADS', {}"
    };
    let number = Part::Number(u64::from(limit.number(input)));
    Message::new(
        text,
        &[Part::Text(limit.what), Part::Text(limit.name), number],
    )
}

/// Whether there are as many threads as the limit allows before this command, after these refusals.
fn has_all_threads(input: &[u8], command: InputCommand<'_>, refused: &[RefusedCommand]) -> bool {
    let place = command.place;
    let threads = count_made(input, place, refused, Verb::MakeThread);
    let funded = count_made(input, place, refused, Verb::MakeFunded);
    let removed = if has_header_line(input, HeaderWord::Reuse) {
        count_made(input, place, refused, Verb::RemoveThread)
    } else {
        0
    };
    threads.saturating_add(funded).saturating_sub(removed) >= THREADS.number(input)
}

/// The number of commands with this verb before the one with this index, without the refused ones.
fn count_made(input: &[u8], place: usize, refused: &[RefusedCommand], verb: Verb) -> u32 {
    let word = BodyWord::Command(verb);
    let mut count = InputCommand::count(input, place, word);
    for one in refused {
        match InputCommand::at(input, one.place) {
            Some(command) if one.place < place && command.word == word => {
                count = count.saturating_sub(1);
            }
            _ => {}
        }
    }
    count
}
