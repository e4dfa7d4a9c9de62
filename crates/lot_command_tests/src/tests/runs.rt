//! Free runs.

use super::same::{check_same, check_same_at};
use super::{Row, ended_on, joined};
use lot_command::InputRunFault;
use lot_io::IoFault;
use lot_processors::FreeRunFault;
use std::alloc::Global;
use std::process::Abort;
use std::sync::Wait;
use std::thread::Threads;

/// Inputs, and the output of their runs in any order of turns.
pub(crate) const RUNS: &[Row] = &[
    (
        &["lot_sim", "run"],
        "lottery 1\nturns 3\n",
        0,
        "report
processor 1 quanta 0 idle 3 ticks 0
total turns 3 quanta 0 ticks 0
schedule 1 1 1
",
    ),
    (
        &["lot_sim", "run"],
        "lottery 1\nturns 0\n",
        0,
        "report
processor 1 quanta 0 idle 0 ticks 0
total turns 0 quanta 0 ticks 0
",
    ),
    (
        &["lot_sim", "run"],
        "lottery 2\nturns 3\n",
        0,
        "report
processor 1 quanta 0 idle 3 ticks 0
total turns 3 quanta 0 ticks 0
runs 1 3
",
    ),
    (
        &["lot_sim", "run"],
        "lottery 1\nturns 10001\n",
        1,
        "refused line 2 52 BadNumber
",
    ),
    (
        &["lot_sim", "run"],
        "lottery 1\nschedule 0 2\n",
        1,
        "refused line 2 57 BadActor
",
    ),
];

/// The output of playing or running the input, which succeeds.
fn written<H: Abort + Threads + Wait + Sync>(
    rt: &H,
    alloc: Global,
    word: &str,
    input: &str,
) -> String {
    let ended = ended_on(rt, alloc, &["lot_sim", word], input);
    check_same_at(rt, &input, &ended.code, &0);
    let text = str::from_utf8(ended.output.as_slice()).expect(rt, "a text");
    String::from_str(alloc, text).expect(rt, "memory")
}

/// Programs whose workers have turns to make, with a word of the last lines of their runs.
const PROGRAMS: &[(&str, &str)] = &[
    (
        "lottery 1\nprocessors 2\nturns 2\nscript spin\ncompute 150\nendscript\nfundx 10 base a spin\n",
        "total turns 5 ",
    ),
    (
        "lottery 1\nprocessors 8\nquantum 10\nturns 40\nport p\nmutex m\n\
        script server\nloop 1000\nreceive p\nlock m\ncompute 3\nunlock m\nreply\nend\nendscript\n\
        script client\nloop 1000\ncall p\nlock m\ncompute 2\nunlock m\nend\nendscript\nfundx 5 base s server\n\
        fundx 7 base c client\nfundx 2 base d client\nfundx 3 base e client\n",
        "total turns 324 ",
    ),
    (
        "lottery 2\nprocessors 64\nturns 20\nscript spin\ncompute 1000\nendscript\nfundx 1 base a spin\n\
        fundx 2 base b spin\nfundx 3 base c spin\n",
        "total turns 1283 ",
    ),
];

/// Runs one program, and plays its schedule with the other one. Compares whether the run has this word, and the reports
/// of both.
fn check_played_back<H: Abort + Threads + Wait + Sync>(
    rt: &H,
    alloc: Global,
    program: &str,
    played: &str,
    total: &str,
) {
    let run = written(rt, alloc, "run", program);
    check_same_at(rt, &program, &run.as_str().contains(total), &true);
    check_replayed(rt, alloc, run.as_str(), played);
}

/// Plays the schedule in a run's output with this program, and compares the reports of both.
fn check_replayed<H: Abort + Threads + Wait + Sync>(
    rt: &H,
    alloc: Global,
    run: &str,
    program: &str,
) {
    let (report, schedule) = report_and_schedule(rt, run);
    let input = joined(rt, alloc, program, schedule);
    let played = written(rt, alloc, "play", input.as_str());
    let is_same = played.as_str().ends_with(report);
    check_same_at(rt, &program, &is_same, &true);
}

/// The report in a run's output, and the lines of its schedule.
fn report_and_schedule<'a>(rt: &impl Abort, run: &'a str) -> (&'a str, &'a str) {
    let lines = run.find("\nschedule ").or(run.find("\nruns "));
    run.split_at(lines.expect(rt, "a schedule") + 1)
}

// The schedule that a run prints gives `play` the run's report.
#[test]
fn a_run_is_played_back(rt: HostRuntime) {
    for (program, total) in PROGRAMS {
        check_played_back(&rt, rt.alloc(), program, program, total);
    }
}

/// Two processors and one thread, which sleeps in each round of its loop.
const SLEEPS: &str = "lottery 3\nprocessors 2\nquantum 10\nturns 40\nfor 1\n\
    script s\nloop 1000 compute 3 sleep 4294967295 end\nendscript\nfundx 1 base a s\n";

/// The same thread in a format without `sleep`. It yields in each round.
const YIELDS: &str =
    "lottery 2\nprocessors 2\nquantum 10\nturns 40\nscript s\nloop 1000\ncompute 3\nyield\nend\nendscript\n\
    fundx 1 base a s\n";

// A run has no time, so it takes each sleep as a yield. The one thread wins each draw for which it is ready, whatever
// the numbers drawn are.
#[test]
fn a_run_takes_sleeps_as_yields(rt: HostRuntime) {
    check_played_back(&rt, rt.alloc(), SLEEPS, YIELDS, "total turns 81 ");
}

/// Compares the text of the reason for which a run stopped.
fn check_stop(rt: &impl Abort, alloc: Global, stop: InputRunFault, text: &str) {
    let shown = format!(in alloc; "{stop}").expect(rt, "memory");
    check_same(rt, &shown.as_str(), &text);
}

#[test]
fn texts_of_stops(rt: HostRuntime) {
    let reader = InputRunFault::Play(IoFault::Read);
    check_stop(&rt, rt.alloc(), reader, "the reader has failed");
    let memory = InputRunFault::Workers(FreeRunFault::Memory);
    check_stop(&rt, rt.alloc(), memory, "out of memory");
}
