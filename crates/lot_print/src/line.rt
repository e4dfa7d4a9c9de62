//! A line that functions append to, and then write by one call.
ghost use Rattle.std.specs.Prelude.{◌≡◌, ◌<◌, ◌≤◌, ◌+◌, ◌/◌, ◌%◌, ◌^◌, ◌++◌, ◌∷◌, [], codes, false, length};
ghost use Rattle.std.specs.Fmt.{decimal};
ghost use Rattle.lot_simulation.specs.Columns.{thousandths_text};
ghost use Rattle.lot_simulation.specs.Texts.{behind_point, drawn_value, front, quotient_text, value_text};
ghost use Rattle.lot_io.specs.Writing.{Writes};

use crate::lengths::ROW;
use itoa::{Buffer, Integer};
use lot_io::{IoFault, Watched, write_bytes};
use lot_simulation::LineStyle;
use std::io::Write;
use std::marker::Model;

/// The two digits of each number below 100.
static PAIRS: [u8; 200] = *b"0001020304050607080910111213141516171819\
    2021222324252627282930313233343536373839\
    4041424344454647484950515253545556575859\
    6061626364656667686970717273747576777879\
    8081828384858687888990919293949596979899";

/// A line, or a part of one, of at most `N` bytes. It allocates nothing.
///
/// It isn't an `ArrayVec`, which overwrites each byte that it drops, and compares its length with its capacity at
/// each byte.
#[derive(Debug, Drop)]
pub(crate) struct Line<const N: usize> {
    bytes: [u8; N],
    /// The number of the line's bytes, the first `len` of `bytes`.
    len: usize,
}

impl<const N: usize> Model for Line<N> {
    ghost use Rattle.std.specs.Prelude.{◌≡◌, ◌≤◌, List, ℕ, length, take};

    ghost Value = { List ℕ };

    ghost view = { λ l. take l.len l.bytes };

    ghost invariant = { λ l. (l.len ≤ N) × (length l.bytes ≡ N) };
}

impl<const N: usize> Line<N> {
    /// An empty line.
    #[inline(always)]
    pub(crate) fn new() -> Self
        ensures { result ≡ [] }
    {
        Line {
            bytes: [0; N],
            len: 0,
        }
    }

    /// The number of its bytes.
    #[inline(always)]
    pub(crate) fn len(&self) -> usize
        ensures len { result ≡ length self.now }
        ensures within { result ≤ N }
    {
        self.len
    }

    /// Removes all bytes.
    #[inline(always)]
    pub(crate) fn clear(&mut self)
        ensures { self.new ≡ [] }
    {
        self.len = 0;
    }

    /// Appends the text.
    #[inline(always)]
    pub(crate) fn push_text(&mut self, text: &str)
        requires { length self.old + length text.now ≤ N }
        ensures text { self.new ≡ self.old ++ text.now }
        ensures len { length self.new ≡ length self.old + length text.now }
    {
        self.push_bytes(text.as_bytes());
    }

    /// Appends a word whose bytes the compiler knows: it compiles to a few stores.
    #[inline(always)]
    pub(crate) fn push_word(&mut self, word: &str)
        requires { length self.old + length word.now ≤ N }
        ensures text { self.new ≡ self.old ++ word.now }
        ensures len { length self.new ≡ length self.old + length word.now }
    {
        for byte in word.as_bytes() {
            self.push_byte(*byte);
        }
    }

    /// Appends the bytes.
    #[inline(always)]
    pub(crate) fn push_bytes(&mut self, bytes: &[u8])
        requires { length self.old + length bytes.now ≤ N }
        ensures text { self.new ≡ self.old ++ bytes.now }
        ensures len { length self.new ≡ length self.old + length bytes.now }
    {
        let start = self.len;
        let end = start + bytes.len();
        let room = &mut self.bytes[..];
        room[start..end].copy_from_slice(bytes);
        self.len = end;
    }

    /// Appends the number.
    #[inline(always)]
    pub(crate) fn push_number<I: Integer>(&mut self, number: I)
        requires { length self.old + I.MAX_STR_LEN ≤ N }
        ensures text { self.new ≡ self.old ++ I.text number }
        ensures len { length self.new ≤ length self.old + I.MAX_STR_LEN }
    {
        let mut buffer = Buffer::new();
        self.push_text(buffer.format(number));
    }

    /// Appends the text and then the number.
    #[inline(always)]
    pub(crate) fn push_field<I: Integer>(&mut self, text: &str, number: I)
        requires { length self.old + length text.now + I.MAX_STR_LEN ≤ N }
        ensures text { self.new ≡ self.old ++ (text.now ++ I.text number) }
        ensures len { length self.new ≤ length self.old + length text.now + I.MAX_STR_LEN }
    {
        self.push_text(text);
        self.push_number(number);
    }

    /// Appends the text and then the number. The digits go directly into the line, since a separate buffer would cost
    /// more.
    #[inline(always)]
    pub(crate) fn push_count(&mut self, text: &str, number: u32)
        requires { length self.old + length text.now + 10 ≤ N }
        ensures text { self.new ≡ self.old ++ (text.now ++ decimal number) }
        ensures len { length self.new ≤ length self.old + length text.now + 10 }
    {
        self.push_word(text);
        if number < 100 {
            self.push_up_to_two(number);
        } else if number < 10000 {
            self.push_three_or_four(number);
        } else {
            self.push_long(number);
        }
    }

    /// Appends the text and then the number, which may be wider than 32 bits.
    #[inline(always)]
    pub(crate) fn push_wide(&mut self, text: &str, number: u128)
        requires { length self.old + length text.now + 39 ≤ N }
        ensures text { self.new ≡ self.old ++ (text.now ++ decimal number) }
        ensures len { length self.new ≤ length self.old + length text.now + 39 }
    {
        if number <= u128::from(u32::MAX) {
            self.push_count(text, number as u32);
        } else {
            self.push_long_wide(text, number);
        }
    }

    /// Appends the text and then the number, of any width.
    #[inline(never)]
    fn push_long_wide(&mut self, text: &str, number: u128)
        requires { length self.old + length text.now + 39 ≤ N }
        ensures text { self.new ≡ self.old ++ (text.now ++ decimal number) }
        ensures len { length self.new ≤ length self.old + length text.now + 39 }
    {
        self.push_field(text, number);
    }

    /// Appends the text and then the quotient, with at most three digits after the point.
    #[inline(never)]
    pub(crate) fn push_quotient(&mut self, text: &str, number: u128, divisor: u128)
        requires room { length self.old + length text.now + 43 ≤ N }
        requires divisor { (0 < divisor) × (divisor < 2 ^ 118) }
        ensures text { self.new ≡ self.old ++ (text.now ++ quotient_text number divisor) }
        ensures len { length self.new ≤ length self.old + length text.now + 43 }
    {
        self.push_text(text);
        self.push_wide("", number / divisor);
        self.push_thousandths((number % divisor * 1000 / divisor) as u32);
    }

    /// Appends the text and then a figure in thousandths, with at most three digits after the point.
    #[inline(never)]
    pub(crate) fn push_figure(&mut self, text: &str, figure: u128)
        requires { length self.old + length text.now + 43 ≤ N }
        ensures text { self.new ≡ self.old ++ (text.now ++ thousandths_text figure) }
        ensures len { length self.new ≤ length self.old + length text.now + 43 }
    {
        self.push_text(text);
        self.push_wide("", figure / 1000);
        self.push_thousandths((figure % 1000) as u32);
    }

    /// Appends thousandths: a point and up to three digits, without trailing zeros; nothing for 0.
    fn push_thousandths(&mut self, thousandths: u32)
        requires { (length self.old + 4 ≤ N) × (thousandths < 1000) }
        ensures text { self.new ≡ self.old ++ behind_point thousandths }
        ensures len { length self.new ≤ length self.old + 4 }
    {
        if thousandths == 0 {
            return;
        }
        self.push_text(".");
        self.push_digit(thousandths / 100);
        if thousandths % 100 == 0 {
            return;
        }
        self.push_digit(thousandths / 10 % 10);
        if thousandths % 10 == 0 {
            return;
        }
        self.push_digit(thousandths % 10);
    }

    /// Appends the start of a line in this style: its time, in timed style.
    #[inline(always)]
    pub(crate) fn push_front(&mut self, style: LineStyle)
        requires { length self.old + 11 ≤ N }
        ensures text { self.new ≡ self.old ++ front style }
        ensures len { length self.new ≤ length self.old + 11 }
    {
        if let LineStyle::Timed(time) = style {
            self.push_time(time);
        }
    }

    /// Appends the time at the start of a line.
    #[inline(never)]
    fn push_time(&mut self, time: u32)
        requires { length self.old + 11 ≤ N }
        ensures text { self.new ≡ self.old ++ (decimal time ++ codes " ") }
        ensures len { length self.new ≤ length self.old + 11 }
    {
        self.push_count("", time);
        self.push_text(" ");
    }

    /// Appends the text and then a value in units, given in base units.
    pub(crate) fn push_value(&mut self, text: &str, style: LineStyle, unit: u32, value: u128)
        requires room { length self.old + length text.now + 43 ≤ N }
        requires unit { 0 < unit }
        ensures text { self.new ≡ self.old ++ (text.now ++ value_text style unit value) }
        ensures len { length self.new ≤ length self.old + length text.now + 43 }
    {
        self.push_text(text);
        match style {
            LineStyle::Whole => self.push_wide("", value / u128::from(unit)),
            LineStyle::Timed(_) => self.push_quotient("", value, u128::from(unit)),
        }
    }

    /// Appends the text and then a drawn number, or the total of its draw.
    #[inline(always)]
    pub(crate) fn push_drawn(&mut self, text: &str, style: LineStyle, unit: u32, number: u128)
        requires room { length self.old + length text.now + 43 ≤ N }
        requires unit { 0 < unit }
        ensures text { self.new ≡ self.old ++ (text.now ++ drawn_value style unit number) }
        ensures len { length self.new ≤ length self.old + length text.now + 43 }
    {
        self.push_word(text);
        match style {
            LineStyle::Whole => self.push_wide("", number),
            LineStyle::Timed(_) => self.push_quotient("", number, u128::from(unit)),
        }
    }

    /// Appends the digits of a number with at least five.
    #[inline(never)]
    fn push_long(&mut self, number: u32)
        requires { (length self.old + 10 ≤ N) × (10000 ≤ number) }
        ensures text { self.new ≡ self.old ++ decimal number }
        ensures len { length self.new ≤ length self.old + 10 }
    {
        self.push_up_to_six(number / 10000);
        self.push_pair(number % 10000 / 100);
        self.push_pair(number % 10000 % 100);
    }

    /// Appends the digits of a number below 1000000.
    #[inline(always)]
    fn push_up_to_six(&mut self, number: u32)
        requires { (length self.old + 6 ≤ N) × (number < 1000000) }
        ensures text { self.new ≡ self.old ++ decimal number }
        ensures len { length self.new ≤ length self.old + 6 }
    {
        if number < 100 {
            self.push_up_to_two(number);
        } else {
            self.push_up_to_four(number / 100);
            self.push_pair(number % 100);
        }
    }

    /// Appends the digits of a number below 10000.
    #[inline(always)]
    fn push_up_to_four(&mut self, number: u32)
        requires { (length self.old + 4 ≤ N) × (number < 10000) }
        ensures text { self.new ≡ self.old ++ decimal number }
        ensures len { length self.new ≤ length self.old + 4 }
    {
        if number < 100 {
            self.push_up_to_two(number);
        } else {
            self.push_three_or_four(number);
        }
    }

    /// Appends the digits of a number with three or four.
    #[inline(always)]
    fn push_three_or_four(&mut self, number: u32)
        requires { (length self.old + 4 ≤ N) × (100 ≤ number) × (number < 10000) }
        ensures text { self.new ≡ self.old ++ decimal number }
        ensures len { length self.new ≤ length self.old + 4 }
    {
        self.push_up_to_two(number / 100);
        self.push_pair(number % 100);
    }

    /// Appends the digits of a number below 100.
    #[inline(always)]
    fn push_up_to_two(&mut self, number: u32)
        requires { (length self.old + 2 ≤ N) × (number < 100) }
        ensures text { self.new ≡ self.old ++ decimal number }
        ensures len { length self.new ≤ length self.old + 2 }
    {
        if number < 10 {
            self.push_digit(number);
        } else {
            self.push_pair(number);
        }
    }

    /// Appends the two digits of a number below 100, with a leading 0 if it is below 10.
    #[inline(always)]
    fn push_pair(&mut self, number: u32)
        requires { (length self.old + 2 ≤ N) × (number < 100) }
        ensures text { self.new ≡ self.old ++ (48 + number / 10) ∷ (48 + number % 10) ∷ [] }
        ensures len { length self.new ≡ length self.old + 2 }
    {
        let from = number as usize * 2;
        let (tens, ones) = (PAIRS[from], PAIRS[from + 1]);
        self.push_byte(tens);
        self.push_byte(ones);
    }

    /// Appends a digit, 0 to 9.
    #[inline(always)]
    fn push_digit(&mut self, digit: u32)
        requires { (length self.old + 1 ≤ N) × (digit < 10) }
        ensures text { self.new ≡ self.old ++ (48 + digit) ∷ [] }
        ensures len { length self.new ≡ length self.old + 1 }
    {
        self.push_byte(b'0' + digit as u8);
    }

    /// Appends a byte.
    #[inline(always)]
    fn push_byte(&mut self, byte: u8)
        requires { length self.old + 1 ≤ N }
        ensures text { self.new ≡ self.old ++ byte ∷ [] }
        ensures len { length self.new ≡ length self.old + 1 }
    {
        let end = self.len;
        self.bytes[end] = byte;
        self.len = end + 1;
    }

    /// Writes the line.
    #[inline(always)]
    pub(crate) fn write_to<W: Write>(&self, writer: &mut Watched<W>) -> Result<(), IoFault>
        requires { writer.old.failed ≡ false }
        ensures { Writes W.contents writer.old writer.new result self.now }
    {
        write_bytes(writer, &self.bytes[..self.len])
    }
}

/// The line of a row of a listing, of the report, or of an input's refusal.
pub(crate) type RowLine = Line<ROW>;
