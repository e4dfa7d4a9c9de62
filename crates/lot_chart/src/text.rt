//! A text under construction.
ghost use Rattle.std.specs.Prelude.{◌≡◌, ◌++◌, [], OnOk};
ghost use Rattle.std.specs.Fmt.{decimal};
ghost use Rattle.lot_chart.specs.Shares as shares;

use itoa::Buffer;
use std::alloc::{AllocError, Global};
use std::marker::Model;

/// A text that grows at its end. A failed allocation discards it.
#[derive(Drop)]
pub(crate) struct Text {
    bytes: Vec<u8>,
}

impl Model for Text {
    ghost use Rattle.std.specs.Prelude.{List, ℕ};

    ghost Value = { List ℕ };

    ghost view = { λ t. t.bytes.items };
}

impl Text {
    /// An empty text.
    pub(crate) fn new(alloc: Global) -> Text
        ensures { result ≡ [] }
    {
        Text {
            bytes: Vec::new(alloc),
        }
    }

    /// The bytes of the text.
    pub(crate) fn into_bytes(self) -> Vec<u8>
        ensures { result.items ≡ self }
    {
        let Text { bytes } = self;
        bytes
    }

    /// Appends the bytes. Fails only if out of memory.
    pub(crate) fn push_bytes(&mut self, bytes: &[u8]) -> Result<(), AllocError>
        ensures { OnOk result (self.new ≡ self.old ++ bytes.now) }
    {
        self.bytes.extend_from_slice(bytes)
    }

    /// Appends the text.
    pub(crate) fn push(&mut self, text: &str) -> Result<(), AllocError>
        ensures { OnOk result (self.new ≡ self.old ++ text.now) }
    {
        self.push_bytes(text.as_bytes())
    }

    /// Appends three texts.
    pub(crate) fn push_within(
        &mut self,
        before: &str,
        within: &str,
        after: &str,
    ) -> Result<(), AllocError>
        ensures { OnOk result (self.new ≡ self.old ++ (before.now ++ (within.now ++ after.now))) }
    {
        self.push(before)?;
        self.push(within)?;
        self.push(after)
    }

    /// Appends the number.
    pub(crate) fn push_number(&mut self, number: u64) -> Result<(), AllocError>
        ensures { OnOk result (self.new ≡ self.old ++ decimal number) }
    {
        let mut buffer = Buffer::new();
        self.push(buffer.format(number))
    }

    /// Appends the number between two texts.
    pub(crate) fn push_number_within(
        &mut self,
        before: &str,
        number: u64,
        after: &str,
    ) -> Result<(), AllocError>
        ensures { OnOk result (self.new ≡ self.old ++ (before.now ++ (decimal number ++ after.now))) }
    {
        let mut buffer = Buffer::new();
        self.push_within(before, buffer.format(number), after)
    }

    /// Appends a number of tenths, with a point.
    pub(crate) fn push_tenths(&mut self, tenths: u32) -> Result<(), AllocError>
        ensures { OnOk result (self.new ≡ self.old ++ shares.tenths tenths) }
    {
        self.push_number(u64::from(tenths / 10))?;
        self.push(".")?;
        self.push_number(u64::from(tenths % 10))
    }

    /// Appends a number of tenths between two texts.
    pub(crate) fn push_tenths_within(
        &mut self,
        before: &str,
        tenths: u32,
        after: &str,
    ) -> Result<(), AllocError>
        ensures { OnOk result (self.new ≡ self.old ++ (before.now ++ (shares.tenths tenths ++ after.now))) }
    {
        self.push(before)?;
        self.push_tenths(tenths)?;
        self.push(after)
    }
}
