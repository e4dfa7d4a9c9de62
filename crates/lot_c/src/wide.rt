//! 128-bit numbers in plain fields.
ghost use Rattle.std.specs.Prelude.{◌≡◌};
ghost use Rattle.lot_c.specs.Wides.{plain_wide, wide_meant};

/// A number below 2 ^ 128: `high` times 2 ^ 64, plus `low`.
#[repr(C)]
#[derive(Clone, Copy)]
pub struct Wide {
    pub low: u64,
    pub high: u64,
}

impl Wide {
    /// The number in plain fields.
    pub(crate) fn of(number: u128) -> Wide
        ensures { result ≡ plain_wide number }
    {
        Wide {
            low: (number % (1 << 64)) as u64,
            high: (number / (1 << 64)) as u64,
        }
    }

    /// The number in these fields.
    pub(crate) fn number(self) -> u128
        ensures { result ≡ wide_meant self }
    {
        u128::from(self.high) * (1 << 64) + u128::from(self.low)
    }
}
