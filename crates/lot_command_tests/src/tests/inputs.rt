//! Inputs in place of the system's.

use lot_command::Inputs;
use std::io;
use std::io::{Error, ErrorKind, Read};

/// A reader in place of standard input, and one file.
#[derive(Drop)]
pub(crate) struct Fake<'a, R, F> {
    pub(crate) standard: R,
    /// The file's name.
    pub(crate) name: &'a str,
    pub(crate) file: F,
}

impl<R: Read + Drop, F: Read + Drop> Inputs for Fake<'_, R, F> {
    type Standard = R;

    type File = F;

    fn standard(self) -> R {
        let Fake { standard, .. } = self;
        standard
    }

    fn open(self, name: &str) -> io::Result<F> {
        if name != self.name {
            return Err(Error::new(ErrorKind::NotFound, "no such file"));
        }
        let Fake { file, .. } = self;
        Ok(file)
    }
}

/// This reader in place of standard input, and an empty file without a name.
pub(crate) fn on_standard<R: Read + Drop>(standard: R) -> Fake<'static, R, &'static [u8]> {
    Fake {
        standard,
        name: "",
        file: "".as_bytes(),
    }
}
