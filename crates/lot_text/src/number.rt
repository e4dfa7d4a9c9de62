//! Numbers.
ghost use Rattle.std.specs.Prelude.{◌≡◌, ◌≤◌, ◌+◌, ◌*◌, [], ◌∷◌, true, IfOk};
ghost use Rattle.std.specs.Char.{is_ascii_digit, digit_value};
ghost use Rattle.std.specs.List.{list_all};
ghost use Rattle.lot_machine.specs.Bounds.{IsBetween};
ghost use Rattle.std.specs.Str.Parse.{digits_value};
ghost use Rattle.lot_simulation.specs.Lines.{is_numeral as is_numeral_token, number_of};
ghost use Rattle.lot_simulation.specs.Reading.{number_between as number_read, any_number as any_number_read};
ghost use Rattle.lot_simulation.specs.Reading.{actor_below as actor_read, only_token};
ghost use Rattle.lot_text.specs.Numbers.{within_64_bits};

use crate::tokens::Tokens;
use lot_simulation::{InputRefusal, Range};

/// Whether the token is one or more digits, without a leading zero except in `0` itself.
fn is_numeral(token: &[u8]) -> bool
    ensures { result ≡ is_numeral_token token.now }
{
    if token.is_empty() {
        return false;
    }
    if token.len() > 1 && token[0] == b'0' {
        return false;
    }
    are_digits(token)
}

/// Whether each byte is a digit.
fn are_digits(token: &[u8]) -> bool
    ensures { result ≡ list_all is_ascii_digit token.now }
{
    token.iter().all(|b| b.is_ascii_digit())
}

/// The number with these digits, or `None` if it has more than 64 bits.
fn value(digits: &[u8]) -> Option<u64>
    requires { list_all is_ascii_digit digits.now ≡ true }
    ensures { result ≡ within_64_bits (digits_value 10 digits.now) }
{
    let mut value = 0u64;
    for digit in digits {
        match with_digit(value, *digit) {
            Some(next) => value = next,
            None => return None,
        }
    }
    Some(value)
}

/// The number with one more digit at its end.
fn with_digit(value: u64, digit: u8) -> Option<u64>
    requires { is_ascii_digit digit ≡ true }
    ensures { result ≡ within_64_bits (value * 10 + digit_value digit) }
{
    let tens = value.checked_mul(10)?;
    tens.checked_add(u64::from(digit - b'0'))
}

/// The token as a number, if it is one.
pub(crate) fn number(token: &[u8]) -> Option<u64>
    ensures { result ≡ number_of token.now }
{
    // Most entries of a schedule have one digit.
    if let [byte] = token {
        return one_digit(*byte);
    }
    if is_numeral(token) {
        value(token)
    } else {
        None
    }
}

/// The number of a token that is this byte, if it is a digit.
fn one_digit(byte: u8) -> Option<u64>
    ensures { result ≡ number_of (byte ∷ []) }
{
    if byte.is_ascii_digit() {
        with_digit(0, byte)
    } else {
        None
    }
}

pub(crate) fn number_in(range: Range, token: &[u8]) -> Result<u32, InputRefusal>
    ensures between { IfOk result (IsBetween range.first range.last) }
    ensures read { result ≡ number_read range.first range.last token.now }
{
    let number = number(token).ok_or(InputRefusal::BadNumber)?;
    if number < u64::from(range.first) || u64::from(range.last) < number {
        return Err(InputRefusal::BadNumber);
    }
    Ok(number as u32)
}

/// An amount in a command: any 64-bit number, which the kernel then judges.
pub(crate) fn any_number(token: &[u8]) -> Result<u64, InputRefusal>
    ensures { result ≡ any_number_read token.now }
{
    number(token).ok_or(InputRefusal::BadNumber)
}

/// An actor: 0 is the console, and the others are processors.
pub(crate) fn actor_below(processors: u32, token: &[u8]) -> Result<u8, InputRefusal>
    requires { processors ≤ 64 }
    ensures below { IfOk result (λ actor. actor ≤ processors) }
    ensures read { result ≡ actor_read processors token.now }
{
    let number = number(token).ok_or(InputRefusal::BadNumber)?;
    if u64::from(processors) < number {
        return Err(InputRefusal::BadActor);
    }
    Ok(number as u8)
}

/// The only token as a number in the range.
pub(crate) fn only_number(range: Range, tokens: Tokens<'_>) -> Result<u32, InputRefusal>
    ensures between { IfOk result (IsBetween range.first range.last) }
    ensures read { result ≡ only_token (number_read range.first range.last) tokens.entry }
{
    let token = tokens.only()?;
    number_in(range, token)
}
