//! Names in plain fields.
ghost use Rattle.std.specs.Prelude.{◌≡◌, ◌<◌, ◌≤◌, true, false, length, nat_lt, Ok, Err, if◌then◌else◌};
ghost use Rattle.lot_machine.specs.State.{sizes_of};
ghost use Rattle.lot_machine.specs.Commands as names;
ghost use Rattle.lot_c.specs.declared.status.Status.TheVariants.{BadName, Done, LongName};
ghost use Rattle.lot_c.specs.Names.{plain_name, name_meant, spelled, thread_name_meant};
ghost use Rattle.lot_c.specs.Numbers.{code};

use crate::status::Status;
use lot_machine::{Limits, Name, is_good_name, is_plain_name};

/// A name in plain fields: the first `length` of the bytes.
#[repr(C)]
#[derive(Clone, Copy)]
pub struct PlainName {
    /// At most 16.
    pub length: u32,
    pub bytes: [u8; 16],
}

impl PlainName {
    /// The name in plain fields, padded with 0.
    pub(crate) fn of(name: &Name) -> PlainName
        ensures { result ≡ plain_name name.now }
    {
        let text = name.as_bytes();
        let mut bytes = [0; 16];
        bytes[..text.len()].copy_from_slice(text);
        PlainName {
            length: text.len() as u32,
            bytes,
        }
    }

    /// The name in these fields. `LongName` if it has more than 16 bytes, `BadName` if a kernel with these limits
    /// doesn't take it.
    pub(crate) fn read(&self, limits: &Limits) -> Result<Name, Status>
        ensures { result ≡ name_meant (sizes_of limits.now) self.now }
    {
        let name = self.spelled()?;
        if !limits.allow_name(name.as_bytes()) {
            return Err(Status::BadName);
        }
        Ok(name)
    }

    /// The name of a new thread in these fields, which may have none. `LongName` if it has more than 16 bytes,
    /// `BadName` if a kernel with these limits doesn't take it.
    pub(crate) fn read_thread(&self, limits: &Limits) -> Result<Name, Status>
        ensures { result ≡ thread_name_meant (sizes_of limits.now) self.now }
    {
        let name = self.spelled()?;
        if !limits.allow_thread_name(name.as_bytes()) {
            return Err(Status::BadName);
        }
        Ok(name)
    }

    /// The bytes of the name, or `LongName` for more than 16.
    fn spelled(&self) -> Result<Name, Status>
        ensures { result ≡ (if nat_lt 16 self.now.length then Err LongName else Ok (spelled self.now)) }
    {
        if self.length > 16 {
            return Err(Status::LongName);
        }
        Name::from_bytes(&self.bytes[..self.length as usize]).ok_or(Status::LongName)
    }
}

/// Stores the good name with these bytes. Returns `LongName` for more than 16 bytes, and `BadName` for any other name.
#[unsafe(no_mangle)]
pub extern "C" fn lot_name_new(bytes: &[u8], name: &mut PlainName) -> u32
    ensures good { length bytes.now ≤ 16 → names.is_good_name bytes.now ≡ true
        → (result ≡ code Done) × (name.new ≡ plain_name bytes.now) }
    ensures bad { length bytes.now ≤ 16 → names.is_good_name bytes.now ≡ false
        → (result ≡ code BadName) × (name.new ≡ name.old) }
    ensures long { 16 < length bytes.now → (result ≡ code LongName) × (name.new ≡ name.old) }
{
    let Some(text) = Name::from_bytes(bytes) else {
        return Status::LongName.code();
    };
    if !is_good_name(bytes) {
        return Status::BadName.code();
    }
    *name = PlainName::of(&text);
    Status::Done.code()
}

/// Stores the plain name with these bytes: any printable ASCII but the space. A kernel takes it if its sizes have plain
/// names, or if it is a good name too. Returns `LongName` for more than 16 bytes, and `BadName` for any other name.
#[unsafe(no_mangle)]
pub extern "C" fn lot_plain_name_new(bytes: &[u8], name: &mut PlainName) -> u32
    ensures plain { length bytes.now ≤ 16 → names.is_plain_name bytes.now ≡ true
        → (result ≡ code Done) × (name.new ≡ plain_name bytes.now) }
    ensures bad { length bytes.now ≤ 16 → names.is_plain_name bytes.now ≡ false
        → (result ≡ code BadName) × (name.new ≡ name.old) }
    ensures long { 16 < length bytes.now → (result ≡ code LongName) × (name.new ≡ name.old) }
{
    let Some(text) = Name::from_bytes(bytes) else {
        return Status::LongName.code();
    };
    if !is_plain_name(bytes) {
        return Status::BadName.code();
    }
    *name = PlainName::of(&text);
    Status::Done.code()
}
