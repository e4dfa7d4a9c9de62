//! Lines of commands.
ghost use Rattle.std.specs.Prelude.{◌≡◌};
ghost use Rattle.lot_simulation.specs.Grammar.{command_line as command_line_read, script_names};
ghost use Rattle.lot_simulation.specs.Reading.{script_number as script_number_read};
ghost use Rattle.lot_text.specs.Faults.{Gives};
ghost use Rattle.lot_text.specs.LineArguments.{token_given};
ghost use Rattle.lot_text.specs.Readings.{after_header};

use crate::fault::LineFault;
use crate::name::any_name;
use crate::number::{any_number, number};
use crate::reading::Reading;
use crate::ticket::{name_at_end, named_ticket};
use crate::tokens::Tokens;
use lot_machine::{Arguments, CurrencyRef, Name, TargetRef, ThreadRef, Verb, command_of, form_of};
use lot_simulation::InputRefusal;
use std::marker::Model;

/// A line of a command: its arguments, one token each, and for a new ticket perhaps a name. A line that ends too early
/// or goes on behind that is bad, whatever its arguments are.
pub(crate) fn command_line(
    reading: &mut Reading,
    verb: Verb,
    tokens: Tokens<'_>,
) -> Result<(), LineFault>
    ensures { Gives reading.new result (after_header (command_line_read reading.old verb tokens.entry)) }
{
    let mut arguments = LineArguments {
        reading,
        tokens: tokens.again(),
        name: None,
    };
    match command_of(verb, &mut arguments) {
        Ok(command) => {
            let LineArguments { tokens, name, .. } = arguments;
            match name_at_end(reading, verb, tokens)? {
                Some(token) => reading.add_named(token, command),
                None => reading.add_naming(name, command),
            }
        }
        Err(refusal) => {
            let rest = tokens.after(form_of(verb).len())?;
            name_at_end(reading, verb, rest)?;
            Err(LineFault::Refused(refusal))
        }
    }
}

/// The arguments that are left on a line, one token each.
#[derive(Drop)]
struct LineArguments<'r, 'a> {
    reading: &'r Reading,
    tokens: Tokens<'a>,
    /// The number of the name of the first ticket so far that has one.
    name: Option<u16>,
}

impl<'r, 'a> Model for LineArguments<'r, 'a> {
    ghost use Rattle.lot_text.specs.LineArguments.{LineTokens};

    ghost Value = { LineTokens };

    ghost view = { λ a. record { reading = a.reading.now; tokens = a.tokens; name = a.name } };
}

impl<'r, 'a> Arguments for LineArguments<'r, 'a> {
    type Refusal = InputRefusal;

    ghost gives = { token_given };

    fn amount(&mut self) -> Result<u64, InputRefusal> {
        let token = self.tokens.expected()?;
        Ok(any_number(token)?)
    }

    fn ticket(&mut self) -> Result<u64, InputRefusal> {
        let token = self.tokens.expected()?;
        if let Some(number) = number(token) {
            return Ok(number);
        }
        let name = named_ticket(self.reading, token)?;
        self.name = Some(self.name.unwrap_or(name));
        Ok(0)
    }

    fn currency(&mut self) -> Result<CurrencyRef, InputRefusal> {
        let token = self.tokens.expected()?;
        Ok(CurrencyRef::Named(any_name(token)?))
    }

    fn target(&mut self) -> Result<TargetRef, InputRefusal> {
        let token = self.tokens.expected()?;
        Ok(TargetRef::Named(any_name(token)?))
    }

    fn thread(&mut self) -> Result<ThreadRef, InputRefusal> {
        let token = self.tokens.expected()?;
        Ok(ThreadRef::Named(any_name(token)?))
    }

    fn name(&mut self) -> Result<Name, InputRefusal> {
        let token = self.tokens.expected()?;
        Ok(any_name(token)?)
    }

    fn script(&mut self) -> Result<u32, InputRefusal> {
        let token = self.tokens.expected()?;
        Ok(script_named(self.reading, token)?)
    }
}

/// The number of the script with this name, in a command; 0 if there is none so far.
fn script_named(reading: &Reading, token: &[u8]) -> Result<u32, InputRefusal>
    ensures { result ≡ script_number_read (script_names reading.now) token.now }
{
    if 16 < token.len() {
        return Err(InputRefusal::TooLong);
    }
    Ok(reading.script_number(token))
}
