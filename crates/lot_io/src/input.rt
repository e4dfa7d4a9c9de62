//! Reading an input.
ghost use Rattle.std.specs.Prelude.{◌≡◌, ◌<◌, ◌≤◌, false, length, IfOk, IfErr, OnOk};
ghost use Rattle.lot_io.specs.Reading.{HasTaken, IsReadFault, Reads};

use crate::{IoFault, Watched};
use std::alloc::Global;
use std::io::Read;

/// The most bytes that it reads: one more than an input may have.
const MOST: usize = 16777217;

/// The number of bytes read at a time.
const PIECE: usize = 65536;

/// Reads to the end of the input, or to its byte 16777217, and leaves the rest unread. Fails with `Read` if the reader
/// fails, and with `Memory` if out of memory.
pub fn read_input<R: Read>(alloc: Global, reader: &mut Watched<R>) -> Result<Vec<u8>, IoFault>
    requires { reader.old.failed ≡ false }
    ensures read { IfOk result (λ bytes. Reads R.remaining reader.old reader.new bytes.items) }
    ensures ok { OnOk result (reader.new.failed ≡ false) }
    ensures err { IfErr result (λ fault. IsReadFault fault reader.new.failed) }
{
    let mut bytes = Vec::new(alloc);
    let Ok(mut piece) = vec![in alloc; 0u8; PIECE] else {
        return Err(IoFault::Memory);
    };
    for _ in 0..MOST {
        if bytes.len() == MOST {
            break;
        }
        let room = PIECE.min(MOST - bytes.len());
        if read_piece(reader, &mut piece[..room], &mut bytes)? == 0 {
            break;
        }
    }
    Ok(bytes)
}

/// Reads once, appends the bytes, and returns their number: 0 only at the end.
fn read_piece<R: Read>(
    reader: &mut Watched<R>,
    room: &mut [u8],
    bytes: &mut Vec<u8>,
) -> Result<usize, IoFault>
    requires working { reader.old.failed ≡ false }
    requires some { 0 < length room.old }
    ensures most { IfOk result (λ count. count ≤ length room.old) }
    ensures read { IfOk result (λ count. HasTaken (R.remaining reader.old.inner)
        (R.remaining reader.new.inner) bytes.old.items bytes.new.items count) }
    ensures ok { OnOk result (reader.new.failed ≡ false) }
    ensures err { IfErr result (λ fault. IsReadFault fault reader.new.failed) }
{
    let Ok(read) = reader.read(room) else {
        return Err(IoFault::Read);
    };
    if bytes.extend_from_slice(&room[..read]).is_err() {
        return Err(IoFault::Memory);
    }
    Ok(read)
}
