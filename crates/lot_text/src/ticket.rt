//! Names of tickets in commands.
ghost use Rattle.std.specs.Prelude.{◌≡◌, option_map, MatchResult, None, Ok, Err};
ghost use Rattle.lot_machine.specs.Arguments.{NamedTicket};
ghost use Rattle.lot_simulation.specs.Grammar.{name_at_end as name_at_end_read};
ghost use Rattle.lot_simulation.specs.Lines.{number_of};
ghost use Rattle.lot_simulation.specs.Reading.{any_ticket};

use crate::name::number_named;
use crate::reading::Reading;
use crate::tokens::Tokens;
use lot_machine::{Verb, is_good_name};
use lot_simulation::{AS_WORD, InputRefusal, makes_ticket};

/// A ticket in a command that isn't given by its number: in a timed input, the number of a name that an earlier line
/// gave.
pub(crate) fn named_ticket(reading: &Reading, token: &[u8]) -> Result<u16, InputRefusal>
    requires { number_of token.now ≡ None }
    ensures { MatchResult result (λ name. any_ticket reading.now token.now ≡ Ok (NamedTicket name))
        (λ e. any_ticket reading.now token.now ≡ Err e) }
{
    if !reading.format.is_timed() || !is_good_name(token) {
        return Err(InputRefusal::BadNumber);
    }
    match number_named(reading.ticket_names.as_slice(), token) {
        Some(name) => Ok(name as u16),
        None => Err(InputRefusal::UnknownName),
    }
}

/// The name of a new ticket, if `as` and a name follow the arguments of a command that makes one, in a timed input.
/// These are the line's last tokens.
pub(crate) fn name_at_end<'a>(
    reading: &Reading,
    verb: Verb,
    mut tokens: Tokens<'a>,
) -> Result<Option<&'a [u8]>, InputRefusal>
    ensures { MatchResult result
        (λ name. name_at_end_read reading.now verb tokens.entry ≡ Ok (option_map (λ token. token.now) name))
        (λ e. name_at_end_read reading.now verb tokens.entry ≡ Err e) }
{
    let Some(word) = tokens.next_token() else {
        return Ok(None);
    };
    let name = tokens.only()?;
    if !makes_ticket(verb) || !reading.format.is_timed() || word != AS_WORD {
        return Err(InputRefusal::BadLine);
    }
    Ok(Some(name))
}
