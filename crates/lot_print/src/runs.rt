//! Histories in runs, each of one actor's turns in a row.
ghost use Rattle.std.specs.Prelude.{◌≡◌, ◌<◌, ◌≤◌, ◌==◌, [], ◌∷◌, drop, false, length, take, IfSome, MatchOption};
ghost use Rattle.std.specs.List.{flat_map, prefix_len};
ghost use Rattle.lot_simulation.specs.Report.{run_text, runs_in, runs_line, runs_lines};
ghost use Rattle.lot_io.specs.Writing.{Writes};

use crate::line::RowLine;
use lot_io::{IoFault, Watched, write_bytes};
use lot_simulation::RUNS_WORD;
use std::io::Write;

/// Writes the history in lines `runs A1 K1 A2 K2 ..` of 32 pairs each, the last with the remaining 1 to 32: K1 turns of
/// A1, then K2 of A2, and so on. Neighbouring pairs have different actors, even across lines.
pub(crate) fn write_runs<W: Write>(writer: &mut Watched<W>, history: &[u8]) -> Result<(), IoFault>
    requires { writer.old.failed ≡ false }
    ensures { Writes W.contents writer.old writer.new result (runs_lines history.now) }
{
    let mut rest = history;
    while !rest.is_empty() {
        let others = after_line(rest);
        write_runs_line(writer, rest)?;
        rest = others;
    }
    Ok(())
}

/// Writes a line of the first 32 runs of the history.
fn write_runs_line<W: Write>(writer: &mut Watched<W>, history: &[u8]) -> Result<(), IoFault>
    requires { writer.old.failed ≡ false }
    ensures { Writes W.contents writer.old writer.new result (runs_line (take 32 (runs_in history.now))) }
{
    write_bytes(writer, RUNS_WORD)?;
    write_run_texts(writer, history)?;
    write_bytes(writer, b"\n")
}

/// Writes the first 32 runs of the history, each after a space.
fn write_run_texts<W: Write>(writer: &mut Watched<W>, history: &[u8]) -> Result<(), IoFault>
    requires { writer.old.failed ≡ false }
    ensures { Writes W.contents writer.old writer.new result (flat_map run_text (take 32 (runs_in history.now))) }
{
    let mut rest = history;
    for _pair in 0..32u32 {
        let Some((actor, count)) = first_run(rest) else {
            return Ok(());
        };
        write_run(writer, actor, count)?;
        rest = after_turns(rest, count);
    }
    Ok(())
}

/// Writes a run after a space.
fn write_run<W: Write>(writer: &mut Watched<W>, actor: u8, count: usize) -> Result<(), IoFault>
    requires { writer.old.failed ≡ false }
    ensures { Writes W.contents writer.old writer.new result (run_text (record { actor = actor; count = count })) }
{
    let mut line = RowLine::new();
    line.push_field(" ", actor);
    line.push_field(" ", count);
    line.write_to(writer)
}

/// The history after its first 32 runs.
pub(crate) fn after_line(history: &[u8]) -> &[u8]
    ensures runs { runs_in result.now ≡ drop 32 (runs_in history.now) }
    ensures shorter { 0 < length history.now → length result.now < length history.now }
{
    let mut rest = history;
    for _pair in 0..32u32 {
        rest = after_run(rest);
    }
    rest
}

/// The history after its first `count` turns.
fn after_turns(history: &[u8], count: usize) -> &[u8]
    requires { count ≤ length history.now }
    ensures { result.now ≡ drop count history.now }
{
    &history[count..]
}

/// The history after its first run, if it has one.
fn after_run(history: &[u8]) -> &[u8]
    ensures runs { runs_in result.now ≡ drop 1 (runs_in history.now) }
    ensures most { length result.now ≤ length history.now }
    ensures shorter { 0 < length history.now → length result.now < length history.now }
{
    match first_run(history) {
        Some((_, count)) => after_turns(history, count),
        None => history,
    }
}

/// The actor of the first turn, and the length of its run; `None` if there is no turn.
pub(crate) fn first_run(history: &[u8]) -> Option<(u8, usize)>
    ensures run { MatchOption result (history.now ≡ []) (λ run. runs_in history.now
        ≡ record { actor = run.0; count = run.1 } ∷ runs_in (drop run.1 history.now)) }
    ensures within { IfSome result (λ run. (0 < run.1) × (run.1 ≤ length history.now)) }
{
    let (actor, others) = history.split_first()?;
    Some((*actor, len_of(*actor, others) + 1))
}

/// The length of the actor's run at the front.
fn len_of(actor: u8, history: &[u8]) -> usize
    ensures turns { result ≡ prefix_len (λ a. a == actor) history.now }
    ensures within { result ≤ length history.now }
{
    history.iter().take_while(|a| **a == actor).count()
}
