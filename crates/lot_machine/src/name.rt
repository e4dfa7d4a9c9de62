//! Names of currencies and threads.
ghost use Rattle.std.specs.Prelude.{◌≡◌, ◌≤◌, length, IfSome, IsSome, ◌↔◌};
ghost use Rattle.std.specs.List.{list_all};
ghost use Rattle.lot_machine.specs.Commands as names;
ghost use Rattle.lot_machine.specs.State.{sizes_of};

use crate::Limits;
use arrayvec::ArrayVec;
use std::marker::Model;

/// A name of at most 16 bytes, not necessarily a good one. No bytes mean no name.
#[derive(Clone, Debug, PartialEq, Eq, Drop)]
pub struct Name {
    bytes: ArrayVec<u8, 16>,
}

impl Model for Name {
    ghost use Rattle.std.specs.Prelude.{List, ℕ};

    ghost Value = { List ℕ };

    ghost view = { λ n. n.bytes.items };

    ghost inverse = { λ bytes. record { bytes = record { items = bytes } } };
}

impl Name {
    /// The name with this text, or `None` if the text has more than 16 bytes.
    pub fn new(text: &str) -> Option<Self>
        ensures fits { IsSome result ↔ (length text.now ≤ 16) }
        ensures bytes { IfSome result (λ name. name ≡ text.now) }
    {
        Self::from_bytes(text.as_bytes())
    }

    /// The name with these bytes, or `None` if there are more than 16.
    pub fn from_bytes(bytes: &[u8]) -> Option<Self>
        ensures fits { IsSome result ↔ (length bytes.now ≤ 16) }
        ensures bytes { IfSome result (λ name. name ≡ bytes.now) }
    {
        let mut copy = ArrayVec::new();
        copy.try_extend_from_slice(bytes).ok()?;
        Some(Name { bytes: copy })
    }

    /// A copy of the name. It allocates nothing.
    pub fn copied(&self) -> Self
        ensures { result ≡ self.now }
    {
        let mut bytes = ArrayVec::new();
        let _ = bytes.try_extend_from_slice(self.bytes.as_slice());
        Name { bytes }
    }

    /// The bytes of the name.
    pub fn as_bytes(&self) -> &[u8]
        ensures bytes { result.now ≡ self.now }
        ensures fits { length result.now ≤ 16 }
    {
        self.bytes.as_slice()
    }

    /// Whether there is no name.
    pub fn is_none(&self) -> bool
        ensures { result ≡ names.is_no_name self.now }
    {
        self.bytes.is_empty()
    }
}

impl Limits {
    /// Whether a currency may have these bytes as its name.
    pub fn allow_name(&self, bytes: &[u8]) -> bool
        ensures { result ≡ names.is_name (sizes_of self.now) bytes.now }
    {
        if self.plain_names {
            is_plain_name(bytes)
        } else {
            is_good_name(bytes)
        }
    }

    /// Whether a thread may have these bytes as its name. It may also have none.
    pub fn allow_thread_name(&self, bytes: &[u8]) -> bool
        ensures { result ≡ names.is_thread_name (sizes_of self.now) bytes.now }
    {
        bytes.is_empty() || self.allow_name(bytes)
    }
}

/// Whether the bytes are a plain name: at least one byte, each printable ASCII but the space.
pub fn is_plain_name(bytes: &[u8]) -> bool
    ensures { result ≡ names.is_plain_name bytes.now }
{
    !bytes.is_empty() && are_printable(bytes)
}

/// Whether each byte is printable ASCII but the space.
fn are_printable(bytes: &[u8]) -> bool
    ensures { result ≡ list_all names.is_printable bytes.now }
{
    bytes.iter().all(|byte| is_printable(*byte))
}

/// Whether the byte is printable ASCII but the space.
fn is_printable(byte: u8) -> bool
    ensures { result ≡ names.is_printable byte }
{
    33 <= byte && byte <= 126
}

/// Whether the bytes are a good name: a letter a to z, followed by letters a to z, digits, `_` or `-`.
pub fn is_good_name(bytes: &[u8]) -> bool
    ensures { result ≡ names.is_good_name bytes.now }
{
    let Some((first, others)) = bytes.split_first() else {
        return false;
    };
    is_letter(*first) && are_name_bytes(others)
}

/// Whether each byte may follow a good name's first letter.
fn are_name_bytes(bytes: &[u8]) -> bool
    ensures { result ≡ list_all names.is_name_byte bytes.now }
{
    bytes.iter().all(|byte| is_name_byte(*byte))
}

/// Whether the byte is a letter a to z.
fn is_letter(byte: u8) -> bool
    ensures { result ≡ names.is_letter byte }
{
    97 <= byte && byte <= 122
}

/// Whether the byte may follow a good name's first letter.
fn is_name_byte(byte: u8) -> bool
    ensures { result ≡ names.is_name_byte byte }
{
    is_letter(byte) || byte.is_ascii_digit() || byte == b'_' || byte == b'-'
}
