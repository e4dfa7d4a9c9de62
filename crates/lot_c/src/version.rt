//! The version of the library.
ghost use Rattle.std.specs.Prelude.{◌≡◌};
ghost use Rattle.lot_c.specs.Numbers as numbers;

/// Version 0.4.0: the major number times 65536, the minor times 256, and the patch.
const VERSION: u32 = 0x00_04_00;

/// The version of the library, to be compared with the header's.
#[unsafe(no_mangle)]
pub extern "C" fn lot_version() -> u32
    ensures { result ≡ numbers.version }
{
    VERSION
}
