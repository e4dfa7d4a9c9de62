//! A short run, as tables and as a picture.
use super::{SCHEDULED, Shown, outcome, show};
use crate::tests::same::{check_same, check_same_at};
use crate::tests::timed::COMES_LATER;
use lot_curves::Measure;
use lot_io::{IoFault, Watched};
use lot_system::Played;
use std::alloc::Global;
use std::process::Abort;

/// Thread 1 ends at tick 2. At tick 3 it is removed, and thread 2 gets its name and runs for 2 ticks.
const REMOVED: &str =
    "lottery 3\nquantum 10\nfor 6\nscript short\ncompute 1\nendscript\nfundx 1 base a short\nat 3\nunfund 1\n\
    rmthr a\nfundx 1 base a short\n";

/// Writes the table of the input, and compares the outcome and the output.
fn check_shares(
    rt: &impl Abort,
    alloc: Global,
    measure: Measure,
    input: &str,
    played: Played,
    expected: &str,
) {
    let found = outcome(alloc, Shown::Table(measure), input, expected);
    check_same_at(rt, &input, &found, &Ok((played, true)));
}

/// What a table measures, its input, how it is played, and the table. A removed thread keeps its column, with its
/// number as the name.
const TABLES: &[(Measure, &str, Played, &str)] = &[
    (
        Measure::Ticks,
        SCHEDULED,
        Played::Done,
        "tick,a,b\n0,0,0\n1,1,0\n2,2,0\n3,3,0\n4,4,0\n",
    ),
    (
        Measure::Draws,
        SCHEDULED,
        Played::Done,
        "tick,a,b\n0,1,0\n1,1,0\n2,2,0\n3,2,0\n4,2,0\n",
    ),
    (Measure::Ticks, "lottery 1\n", Played::Done, "tick\n0\n"),
    (
        Measure::Ticks,
        "lottery 9\n",
        Played::Refused,
        "refused line 1 50 BadHeader\n",
    ),
    (
        Measure::Ticks,
        COMES_LATER,
        Played::Done,
        "tick,a\n0,0\n1,0\n2,0\n3,1\n4,2\n5,3\n6,4\n7,5\n8,6\n9,7\n",
    ),
    (
        Measure::Draws,
        COMES_LATER,
        Played::Done,
        "tick,a\n0,0\n1,0\n2,1\n3,1\n4,1\n5,1\n6,2\n7,2\n8,2\n9,2\n",
    ),
    (
        Measure::Ticks,
        REMOVED,
        Played::Done,
        "tick,1,a\n0,0,0\n1,1,0\n2,2,0\n3,2,0\n4,2,1\n5,2,2\n",
    ),
    (
        Measure::Draws,
        REMOVED,
        Played::Done,
        "tick,1,a\n0,1,0\n1,1,0\n2,1,0\n3,1,1\n4,1,1\n5,1,1\n",
    ),
];

#[test]
fn tables(rt: HostRuntime) {
    for (measure, input, played, table) in TABLES {
        check_shares(&rt, rt.alloc(), *measure, input, *played, table);
    }
}

/// The picture of the input, if it was drawn.
fn drawn(rt: &impl Abort, alloc: Global, input: &str) -> (Result<Played, IoFault>, String) {
    let mut writer = Watched::new(Vec::new(alloc));
    let came = show(alloc, Shown::Picture("Two & none"), input, &mut writer);
    let picture = String::from_utf8(writer.into_inner()).expect(rt, "a text");
    (came, picture)
}

/// Draws the picture of the input, and looks for these parts of it.
fn check_parts(rt: &impl Abort, alloc: Global, input: &str, parts: &[&str]) {
    let (came, picture) = drawn(rt, alloc, input);
    check_same(rt, &came, &Ok(Played::Done));
    for part in parts {
        check_same_at(rt, part, &picture.as_str().contains(*part), &true);
    }
}

const PARTS: &[&str] = &[
    "<title id='title'>Two &amp; none</title>\n",
    "<polyline points=' 100.0,460.0 267.5,360.0 435.0,260.0 602.5,160.0 770.0,60.0' stroke='#0072b2'/>\n",
    "<text x='788' y='60.0' dy='4'>a 100.0%</text>\n",
    "<text x='788' y='460.0' dy='4'>b 0.0%</text>\n",
];

const PARTS_WITH_REMOVED: &[&str] = &[
    "<text x='788' y='60.0' dy='4'>1 50.0%</text>\n",
    "<text x='788' y='76.0' dy='4'>a 50.0%</text>\n",
];

#[test]
fn pictures(rt: HostRuntime) {
    check_parts(&rt, rt.alloc(), SCHEDULED, PARTS);
    check_parts(&rt, rt.alloc(), REMOVED, PARTS_WITH_REMOVED)
}

/// The three commands at tick 3 of 5 share a mark, the only one: the command at tick 0 has none. The frame follows. The
/// commands of a schedule have no marks.
#[test]
fn pictures_with_commands(rt: HostRuntime) {
    let (_, picture) = drawn(&rt, rt.alloc(), REMOVED);
    let marks = "<text x='770.0' y='480' text-anchor='middle'>5</text>\n\
        <path d='M502.0 60V460' stroke='#bbbbbb' stroke-dasharray='3 3'><title>command at 3</title></path>\n\
        <path d='M100 60V460H770'";
    check_same(&rt, &picture.as_str().contains(marks), &true);
    let (_, picture) = drawn(&rt, rt.alloc(), SCHEDULED);
    check_same(&rt, &picture.as_str().contains("command at"), &false);
}
