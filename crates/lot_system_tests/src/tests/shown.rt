//! Explanations, tables and pictures of inputs. The tests of this file are for runs in which one allocation fails, each
//! in turn; those of the modules need all the memory that they request.
ghost use Rattle.std.specs.Prelude.{◌≡◌, false};

mod charts;
mod curves;
mod endings;
mod explained;
mod pictures;
mod warnings;

use crate::tests::same::{check_same, check_same_at};
use endings::has_written_or_lacked_memory;
use lot_chart::{chart_bytes, shares_bytes};
use lot_curves::Measure;
use lot_diagnostics::write_warnings;
use lot_explain::{Detail, explain_bytes};
use lot_io::{IoFault, Watched};
use lot_simulation::Warnings;
use lot_system::{Played, play_bytes};
use std::alloc::Global;
use std::io;
use std::io::Write;
use std::process::Abort;

/// Thread `a` has the only ticket: it wins both draws, and runs for two quanta of 2 ticks.
const SCHEDULED: &str =
    "lottery 1\nquantum 2\nscript spin\ncompute 9\nendscript\nfundx 1 base a spin\nmkthr b spin\n\
    schedule 0 0 1 1 1 1\n";

/// The input as a timed one.
const TIMED: &str =
    "lottery 3\nquantum 2\nfor 4\nscript spin\ncompute 9\nendscript\nfundx 1 base a spin\nmkthr b spin\n";

const INPUTS: &[&str] = &[SCHEDULED, TIMED];

/// A writer that counts the bytes that it accepts, and allocates nothing.
#[derive(Drop)]
struct Counting {
    taken: usize,
}

impl Write for Counting {
    fn write(&mut self, buf: &[u8]) -> io::Result<usize> {
        self.taken = self.taken.saturating_add(buf.len());
        Ok(buf.len())
    }

    fn flush(&mut self) -> io::Result<()> {
        Ok(())
    }
}

/// The view of an input.
#[derive(Clone, Copy)]
enum Shown {
    Explained,
    Table(Measure),
    Picture(&'static str),
}

/// Shows the input, and records its warnings.
fn show_with<W: Write>(
    alloc: Global,
    shown: Shown,
    input: &[u8],
    warnings: &mut Warnings,
    writer: &mut Watched<W>,
) -> Result<Played, IoFault>
    requires { writer.old.failed ≡ false }
{
    match shown {
        Shown::Explained => explain_bytes(alloc, Detail::Lots, input, warnings, writer),
        Shown::Table(measure) => shares_bytes(alloc, measure, input, warnings, writer),
        Shown::Picture(title) => chart_bytes(alloc, title, input, warnings, writer),
    }
}

/// Shows the input.
fn show<W: Write>(
    alloc: Global,
    shown: Shown,
    input: &str,
    writer: &mut Watched<W>,
) -> Result<Played, IoFault>
    requires { writer.old.failed ≡ false }
{
    match Warnings::none(alloc) {
        Ok(mut warnings) => show_with(alloc, shown, input.as_bytes(), &mut warnings, writer),
        Err(_) => Err(IoFault::Memory),
    }
}

/// Shows the input, and returns the outcome and the number of bytes written.
fn counted(alloc: Global, shown: Shown, input: &str) -> (Result<Played, IoFault>, usize) {
    let mut writer = Watched::new(Counting { taken: 0 });
    let ended = show(alloc, shown, input, &mut writer);
    let Counting { taken } = writer.into_inner();
    (ended, taken)
}

/// Shows the input, and returns the outcome, and whether the output is the expected one.
fn outcome(
    alloc: Global,
    shown: Shown,
    input: &str,
    expected: &str,
) -> Result<(Played, bool), IoFault> {
    let mut writer = Watched::new(Vec::new(alloc));
    let played = show(alloc, shown, input, &mut writer)?;
    let is_written = writer.into_inner().as_slice() == expected.as_bytes();
    Ok((played, is_written))
}

/// Checks that a failed allocation leaves nothing written.
fn check(rt: &impl Abort, alloc: Global, shown: Shown) {
    for input in INPUTS {
        let (ended, written) = counted(alloc, shown, input);
        assert!(rt;
            has_written_or_lacked_memory(ended, written),
            "{input}: {ended:?}, {written} bytes"
        );
    }
}

#[test]
fn explains_or_lacks_memory(rt: HostRuntime) {
    check(&rt, rt.alloc(), Shown::Explained);
}

#[test]
fn tables_or_lacks_memory(rt: HostRuntime) {
    check(&rt, rt.alloc(), Shown::Table(Measure::Ticks));
}

/// The warnings of the input, if it is played.
fn warned(alloc: Global, input: &str) -> Option<Warnings> {
    let mut writer = Watched::new(Counting { taken: 0 });
    let mut warnings = Warnings::none(alloc).ok()?;
    let played = play_bytes(alloc, input.as_bytes(), &mut warnings, &mut writer);
    played.is_ok().then_some(warnings)
}

fn words_of(alloc: Global, warnings: &Warnings, input: &str) -> Option<Vec<u8>> {
    let mut words = Vec::new(alloc);
    let written = write_warnings(&mut words, warnings, input.as_bytes(), None);
    written.is_ok().then_some(words)
}

/// The words of the input's warnings, if it is played.
fn words_after(alloc: Global, input: &str) -> Option<Vec<u8>> {
    let warnings = warned(alloc, input)?;
    words_of(alloc, &warnings, input)
}

/// Checks that the words tell the refusal, with or without a suggestion.
fn check_refusal(rt: &impl Abort, words: &[u8]) {
    let said = str::from_utf8(words).unwrap_or("");
    let refused = "line 3: the command was refused: no currency has the name 'alcie'";
    let others = said.strip_prefix(refused);
    let is_said = others == Some("; did you mean 'alice'?\n") || others == Some("\n");
    check_same_at(rt, &said, &is_said, &true);
}

// If an allocation fails, the suggestion or all words are left out.
#[test]
fn warns_or_lacks_memory(rt: HostRuntime) {
    let input = "lottery 1\nmkcur alice\nrmcur alcie\nschedule 0 0\n";
    if let Some(words) = words_after(rt.alloc(), input) {
        check_refusal(&rt, words.as_slice());
    }
}

/// Compares the words.
fn check_said(rt: &impl Abort, words: &[u8], expected: &str) {
    let said = str::from_utf8(words).unwrap_or("");
    check_same(rt, &said, &expected);
}

#[test]
fn pictures_or_lacks_memory(rt: HostRuntime) {
    check(&rt, rt.alloc(), Shown::Picture("Two"));
}
