//! Names.
ghost use Rattle.std.specs.Prelude.{◌≡◌, ◌<◌, ◌≤◌, length, position, IfOk, IfSome};
ghost use Rattle.std.specs.Str.{bytes_eq};
ghost use Rattle.lot_simulation.specs.Reading.{any_name as any_name_read, new_name as new_name_read};
ghost use Rattle.lot_simulation.specs.Reading.{known_name as known_name_read, number_named as number_named_read};
ghost use Rattle.lot_text.specs.Alone.{new_name_alone};

use crate::tokens::Tokens;
use lot_machine::{Name, is_good_name};
use lot_simulation::InputRefusal;

/// A name in a command: any of at most 16 bytes, which the kernel then judges.
pub(crate) fn any_name(token: &[u8]) -> Result<Name, InputRefusal>
    ensures { result ≡ any_name_read token.now }
{
    Name::from_bytes(token).ok_or(InputRefusal::TooLong)
}

/// The name of a new port, mutex or ticket: a good one that no other of its kind has.
pub(crate) fn new_name(names: &[Name], token: &[u8]) -> Result<Name, InputRefusal>
    requires { length names.now ≤ 4096 }
    ensures { result ≡ new_name_read names.now token.now }
{
    let name = any_name(token)?;
    if !is_good_name(token) || number_named(names, token).is_some() {
        return Err(InputRefusal::BadLine);
    }
    Ok(name)
}

/// The only token as a new name, if there are fewer than `most` names.
pub(crate) fn only_new_name(
    names: &[Name],
    most: usize,
    tokens: Tokens<'_>,
) -> Result<Name, InputRefusal>
    requires { length names.now ≤ 4096 }
    ensures room { IfOk result (λ _. length names.now < most) }
    ensures read { result ≡ new_name_alone most names.now tokens.entry }
{
    let token = tokens.only()?;
    let name = new_name(names, token)?;
    if most <= names.len() {
        return Err(InputRefusal::TooLong);
    }
    Ok(name)
}

/// The number of the port or mutex with this name, in a line of a script.
pub(crate) fn known_name(names: &[Name], token: &[u8]) -> Result<u32, InputRefusal>
    requires { length names.now ≤ 4096 }
    ensures { result ≡ known_name_read names.now token.now }
{
    if 16 < token.len() {
        return Err(InputRefusal::TooLong);
    }
    number_named(names, token).ok_or(InputRefusal::UnknownName)
}

/// The number of the first of these names with this spelling, from 1.
pub(crate) fn number_named(names: &[Name], token: &[u8]) -> Option<u32>
    requires { length names.now ≤ 4096 }
    ensures number { result ≡ number_named_read names.now token.now }
    ensures within { IfSome result (λ number. number ≤ length names.now) }
{
    match place_named(names, token) {
        Some(place) => Some(place as u32 + 1),
        None => None,
    }
}

/// The index of the first of these names with this spelling.
fn place_named(names: &[Name], token: &[u8]) -> Option<usize>
    ensures place { result ≡ position (bytes_eq token.now) names.now }
    ensures within { IfSome result (λ place. place < length names.now) }
{
    names.iter().position(|name| token == name.as_bytes())
}
