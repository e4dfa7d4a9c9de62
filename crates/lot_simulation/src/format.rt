//! The formats of inputs.
ghost use Rattle.std.specs.Prelude.{◌≡◌, ◌==◌, ◌||◌, not};
ghost use Rattle.lot_machine.specs.Bounds.{IsUnit};
ghost use Rattle.lot_simulation.specs.Formats as formats;
ghost use Rattle.lot_simulation.specs.Lines.{separators_in};
ghost use Rattle.lot_simulation.specs.Words.{word_in};

use crate::separators::Separators;

/// The format of an input, given on its first line. Code that depends on the format calls one of its methods.
#[derive(Clone, Copy, Debug, PartialEq, Eq)]
pub enum Format {
    /// `lottery 1`
    V1,
    /// `lottery 2`
    V2,
    /// `lottery 3`
    V3,
}

impl Format {
    /// The format with this word after `lottery`, if there is one.
    pub fn of_word(word: &[u8]) -> Option<Format>
        ensures { result ≡ word_in formats.versions word.now }
    {
        match word {
            b"1" => Some(Format::V1),
            b"2" => Some(Format::V2),
            b"3" => Some(Format::V3),
            _ => None,
        }
    }

    /// The base units in one unit of value, 1 or 256.
    pub fn unit(self) -> u32
        ensures unit { result ≡ formats.unit_of self }
        ensures legal { IsUnit result }
    {
        match self {
            Format::V1 => 1,
            Format::V2 | Format::V3 => 256,
        }
    }

    /// Whether an input of this format is timed: turns come in time order, and no schedule gives them. A timed input
    /// gives its duration and the times of its commands, and each line printed for a turn begins with its time.
    #[inline(always)]
    pub fn is_timed(self) -> bool
        ensures { result ≡ formats.is_timed self }
    {
        match self {
            Format::V1 | Format::V2 => false,
            Format::V3 => true,
        }
    }

    /// The bytes that separate tokens in an input of this format.
    pub fn separators(self) -> Separators
        ensures { result ≡ separators_in (formats.is_timed self) }
    {
        match self {
            Format::V1 | Format::V2 => Separators::Spaces,
            Format::V3 => Separators::Blanks,
        }
    }

    /// Whether the processors' generators give wide numbers; only a timed input's do.
    #[inline(always)]
    pub fn draws_wide_numbers(self) -> bool
        ensures { result ≡ formats.is_timed self }
    {
        self.is_timed()
    }

    /// Whether a schedule may have lines of runs; only `lottery 2` has them.
    pub fn has_runs(self) -> bool
        ensures { result ≡ not (formats.unit_of self == 1 || formats.is_timed self) }
    {
        match self {
            Format::V1 | Format::V3 => false,
            Format::V2 => true,
        }
    }
}
