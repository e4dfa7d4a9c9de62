//! Text in XML.
ghost use Rattle.std.specs.Prelude.{◌≡◌, ◌++◌, OnOk};
ghost use Rattle.lot_chart.specs.Escapes.{escaped, escaped_byte};

use crate::text::Text;
use std::alloc::AllocError;

/// Adds the text, escaped for XML.
pub(crate) fn push_escaped(text: &mut Text, bytes: &[u8]) -> Result<(), AllocError>
    ensures { OnOk result (text.new ≡ text.old ++ escaped bytes.now) }
{
    for byte in bytes {
        push_byte(text, *byte)?;
    }
    Ok(())
}

/// Adds one byte of the text.
fn push_byte(text: &mut Text, byte: u8) -> Result<(), AllocError>
    ensures { OnOk result (text.new ≡ text.old ++ escaped_byte byte) }
{
    match byte {
        b'&' => text.push("&amp;"),
        b'<' => text.push("&lt;"),
        b'>' => text.push("&gt;"),
        _ if byte < 32 => text.push(" "),
        _ => text.push_bytes(&[byte]),
    }
}
