//! The tokens of a line.
ghost use Rattle.std.specs.Prelude.{◌≡◌, ◌≢◌, ◌==◌, ◌<◌, ◌≤◌, ◌%◌, ◌&&◌, ◌||◌, ◌↔◌, [], ◌∷◌};
ghost use Rattle.std.specs.Prelude.{IfSome, IsTrue, MatchOption, MatchResult, drop};
ghost use Rattle.std.specs.Prelude.{false, length, nat_le, not, take, true};
ghost use Rattle.std.specs.List.{prefix_len};
ghost use Rattle.lot_simulation.specs.Lines as lines;
ghost use Rattle.lot_text.specs.Tokens.{words_of};

use lot_simulation::{InputRefusal, Separators};
use memchr::memchr;
use std::marker::Model;

/// The remaining tokens of a printable line.
#[derive(Drop)]
pub(crate) struct Tokens<'a> {
    /// The rest of the line. Its only bytes up to 32 are separators, so one loop finds tokens in each format.
    rest: &'a [u8],
}

impl<'a> Model for Tokens<'a> {
    ghost use Rattle.std.specs.Prelude.{List, ℕ};
    ghost use Rattle.lot_text.specs.Tokens.{words_of};

    ghost Value = { List (List ℕ) };

    ghost view = { λ t. words_of t.rest.now };
}

impl<'a> Tokens<'a> {
    /// All tokens of the line, or `None` if it isn't printable.
    pub(crate) fn of_line(separators: Separators, line: &'a [u8]) -> Option<Self>
        ensures { MatchOption result (lines.is_printable separators line.now ≡ false)
            (λ tokens. (lines.is_printable separators line.now ≡ true)
            × (tokens ≡ lines.tokens_of separators line.now)) }
    {
        if is_printable(separators, line) {
            Some(Tokens { rest: line })
        } else {
            None
        }
    }

    /// The same tokens, to be read again.
    pub(crate) fn again(&self) -> Tokens<'a>
        ensures { result ≡ self.now }
    {
        Tokens { rest: self.rest }
    }

    /// No tokens.
    pub(crate) fn empty() -> Self
        ensures { result ≡ [] }
    {
        Tokens { rest: &[] }
    }

    /// The next token, or `None` at the end.
    pub(crate) fn next_token(&mut self) -> Option<&'a [u8]>
        ensures next { MatchOption result ((self.old ≡ []) × (self.new ≡ []))
            (λ token. self.old ≡ token.now ∷ self.new) }
        ensures alone { IfSome result (λ token. words_of token.now ≡ token.now ∷ []) }
    {
        let word = &self.rest[gap_len(self.rest)..];
        if word.is_empty() {
            return None;
        }
        let len = word_len(word);
        self.rest = &word[len..];
        Some(&word[..len])
    }

    /// The next token as the only one of a list; an empty list at the end.
    pub(crate) fn next_alone(&mut self) -> Tokens<'a>
        ensures alone { result ≡ take 1 self.old }
        ensures rest { self.new ≡ drop 1 self.old }
    {
        match self.next_token() {
            Some(token) => Tokens { rest: token },
            None => Tokens::empty(),
        }
    }

    /// The next token, which must exist.
    pub(crate) fn expected(&mut self) -> Result<&'a [u8], InputRefusal>
        ensures { MatchResult result (λ token. self.old ≡ token.now ∷ self.new)
            (λ e. (e ≡ InputRefusal.BadLine) × (self.old ≡ [])) }
    {
        self.next_token().ok_or(InputRefusal::BadLine)
    }

    /// The last token: there must be one and no other.
    pub(crate) fn only(mut self) -> Result<&'a [u8], InputRefusal>
        ensures { MatchResult result (λ token. self.entry ≡ token.now ∷ [])
            (λ e. (e ≡ InputRefusal.BadLine) × (length self.entry ≢ 1)) }
    {
        let token = self.expected()?;
        self.none()?;
        Ok(token)
    }

    /// The end: there must be no token left.
    pub(crate) fn none(mut self) -> Result<(), InputRefusal>
        ensures { MatchResult result (λ _. self.entry ≡ []) (λ e. (e ≡ InputRefusal.BadLine)
            × (length self.entry ≢ 0)) }
    {
        match self.next_token() {
            Some(_) => Err(InputRefusal::BadLine),
            None => Ok(()),
        }
    }

    /// The tokens after this many; there must be at least as many.
    pub(crate) fn after(mut self, count: usize) -> Result<Tokens<'a>, InputRefusal>
        ensures { MatchResult result (λ rest. (rest ≡ drop count self.entry) × (count ≤ length self.entry))
            (λ e. (e ≡ InputRefusal.BadLine) × (length self.entry < count)) }
    {
        for _ in 0..count {
            let Some(_) = self.next_token() else {
                return Err(InputRefusal::BadLine);
            };
        }
        Ok(self)
    }

    /// The next two tokens, or `None` if there are fewer.
    pub(crate) fn next_pair(&mut self) -> Option<(&'a [u8], &'a [u8])>
        ensures { MatchOption result (length self.old ≤ 1) (λ pair. self.old ≡ pair.0.now ∷ pair.1.now ∷ self.new) }
    {
        let first = self.next_token()?;
        let second = self.next_token()?;
        Some((first, second))
    }

    /// An upper bound on the number of tokens: each takes a byte, and all but the last a separator.
    pub(crate) fn most(&self) -> usize
        ensures { length self.now ≤ result }
    {
        self.rest.len().div_ceil(2)
    }

    /// Whether the number of tokens is even.
    pub(crate) fn are_pairs(&self) -> bool
        ensures { IsTrue result ↔ (length self.now % 2 ≡ 0) }
    {
        let mut left = self.again();
        while left.next_token().is_some() {
            if left.next_token().is_none() {
                return false;
            }
        }
        true
    }

    /// Whether there are this many tokens.
    pub(crate) fn has_len(&self, count: usize) -> bool
        ensures { IsTrue result ↔ (length self.now ≡ count) }
    {
        let mut left = self.again();
        let mut missing = count;
        while missing > 0 {
            if left.next_token().is_none() {
                return false;
            }
            missing -= 1;
        }
        left.next_token().is_none()
    }
}

/// The number of bytes up to 32 at the front of the bytes.
fn gap_len(bytes: &[u8]) -> usize
    ensures gap { result ≡ prefix_len (λ b. nat_le b 32) bytes.now }
    ensures within { result ≤ length bytes.now }
{
    bytes.iter().take_while(|b| **b <= b' ').count()
}

/// The number of bytes before the first up to 32, or of all bytes if there is none.
fn word_len(bytes: &[u8]) -> usize
    ensures word { result ≡ prefix_len (λ b. not (nat_le b 32)) bytes.now }
    ensures within { result ≤ length bytes.now }
{
    bytes.iter().take_while(|b| **b > b' ').count()
}

/// The number of bytes before the first end of a line, or of all bytes if there is none.
pub(crate) fn line_len(bytes: &[u8]) -> usize
    ensures others { result ≡ prefix_len (λ b. not (b == 10)) bytes.now }
    ensures within { result ≤ length bytes.now }
{
    memchr(b'\n', bytes).unwrap_or(bytes.len())
}

/// Whether the line is ignored.
pub(crate) fn is_ignored(separators: Separators, line: &[u8]) -> bool
    ensures { result ≡ lines.is_ignored (lines.tokens_of separators line.now) }
{
    let rest = &line[separators_in_front(separators, line)..];
    if rest.is_empty() {
        return true;
    }
    begins_comment(rest)
}

/// The number of separators at the front of the bytes.
fn separators_in_front(separators: Separators, bytes: &[u8]) -> usize
    ensures front { result ≡ prefix_len (lines.separates separators) bytes.now }
    ensures within { result ≤ length bytes.now }
{
    bytes
        .iter()
        .take_while(|b| separators.contains(**b))
        .count()
}

/// Whether the token begins a comment.
pub(crate) fn begins_comment(token: &[u8]) -> bool
    ensures { result ≡ lines.is_comment token.now }
{
    token.first() == Some(&b'#')
}

/// Whether each byte of the line is a separator or printable ASCII.
fn is_printable(separators: Separators, line: &[u8]) -> bool
    ensures { result ≡ lines.is_printable separators line.now }
{
    // Each style has a loop of its own, so that the loop for spaces alone stays fast.
    match separators {
        Separators::Spaces => are_printable(Separators::Spaces, line),
        Separators::Blanks => are_printable(Separators::Blanks, line),
    }
}

/// Like `is_printable`. It goes on after a faulty byte, so the compiler can test many bytes at once.
#[inline(always)]
fn are_printable(separators: Separators, line: &[u8]) -> bool
    ensures { result ≡ lines.is_printable separators line.now }
{
    let mut all = true;
    for byte in line {
        all &= is_printable_byte(separators, *byte);
    }
    all
}

/// Whether the byte is a separator or printable ASCII.
#[inline(always)]
fn is_printable_byte(separators: Separators, byte: u8) -> bool
    ensures { result ≡ (lines.separates separators byte || (nat_le 33 byte && nat_le byte 126)) }
{
    separators.contains(byte) || (33 <= byte && byte <= 126)
}
