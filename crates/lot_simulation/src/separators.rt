//! The bytes that separate tokens.
ghost use Rattle.std.specs.Prelude.{◌≡◌};
ghost use Rattle.lot_simulation.specs.Lines as lines;

/// The bytes that separate the tokens of a line.
#[derive(Clone, Copy, Debug, PartialEq, Eq)]
pub enum Separators {
    /// Spaces, in `lottery 1` and `lottery 2`.
    Spaces,
    /// Spaces, tabs and carriage returns, in `lottery 3`.
    Blanks,
}

impl Separators {
    /// Whether the byte is one of them.
    #[inline(always)]
    pub fn contains(self, byte: u8) -> bool
        ensures { result ≡ lines.separates self byte }
    {
        match self {
            Separators::Spaces => byte == b' ',
            Separators::Blanks => byte == b'\t' || byte == b'\r' || byte == b' ',
        }
    }
}
