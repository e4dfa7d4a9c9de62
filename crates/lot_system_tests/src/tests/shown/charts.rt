//! Curves of a few threads, as a table and as pictures.
use super::curves::{Came, Turn, curves_of};
use crate::tests::same::{check_same, check_same_at};
use lot_chart::{chart_of, table};
use lot_curves::{By, Curves, Measure};
use std::alloc::Global;
use std::process::Abort;
use std::test::*;

/// Thread a wins at tick 0 and runs to tick 2; thread b-2 wins then and runs to tick 3.
const THREE_TICKS: &[Turn] = &[
    (0, Came::Won(1)),
    (2, Came::Ran(1, 2)),
    (2, Came::Won(2)),
    (3, Came::Ran(2, 1)),
];

fn three_ticks(rt: &impl Abort, alloc: Global) -> Curves {
    curves_of(rt, alloc, &["a", "b-2"], THREE_TICKS)
}

const THIRTEEN_NAMES: &[&str] = &[
    "a", "b", "c", "d", "e", "f", "g", "h", "i", "j", "k", "l", "m",
];

/// Thread a runs for a tick, thread b for two, and so on, each from tick 0 on.
const THIRTEEN_THREADS: &[Turn] = &[
    (1, Came::Ran(1, 1)),
    (2, Came::Ran(2, 2)),
    (3, Came::Ran(3, 3)),
    (4, Came::Ran(4, 4)),
    (5, Came::Ran(5, 5)),
    (6, Came::Ran(6, 6)),
    (7, Came::Ran(7, 7)),
    (8, Came::Ran(8, 8)),
    (9, Came::Ran(9, 9)),
    (10, Came::Ran(10, 10)),
    (11, Came::Ran(11, 11)),
    (12, Came::Ran(12, 12)),
    (13, Came::Ran(13, 13)),
];

fn thirteen_threads(rt: &impl Abort, alloc: Global) -> Curves {
    curves_of(rt, alloc, THIRTEEN_NAMES, THIRTEEN_THREADS)
}

/// Compares the table of the curves.
fn check_table(rt: &impl Abort, alloc: Global, curves: &Curves, measure: Measure, expected: &str) {
    let written = table(alloc, curves, measure).expect(rt, "memory");
    let found = str::from_utf8(written.as_slice()).unwrap_or("");
    check_same(rt, &found, &expected);
}

#[test]
fn tables(rt: HostRuntime) {
    let curves = three_ticks(&rt, rt.alloc());
    let ticks = "tick,a,b-2\n0,0,0\n1,1,0\n2,2,0\n3,2,1\n";
    check_table(&rt, rt.alloc(), &curves, Measure::Ticks, ticks);
    let draws = "tick,a,b-2\n0,1,0\n1,1,0\n2,1,1\n3,1,1\n";
    check_table(&rt, rt.alloc(), &curves, Measure::Draws, draws)
}

/// No thread has run at tick 0, and of the last two ticks at tick 3 each thread has one.
#[test]
fn tables_with_a_window(rt: HostRuntime) {
    let curves = three_ticks(&rt, rt.alloc()).with_window(Some(2));
    let ticks = "tick,a,b-2\n0,0.0,0.0\n1,100.0,0.0\n2,100.0,0.0\n3,50.0,50.0\n";
    check_table(&rt, rt.alloc(), &curves, Measure::Ticks, ticks);
    let curves = curves.with_window(Some(1));
    let draws = "tick,a,b-2\n0,100.0,0.0\n1,100.0,0.0\n2,0.0,100.0\n3,0.0,100.0\n";
    check_table(&rt, rt.alloc(), &curves, Measure::Draws, draws)
}

#[test]
fn tables_of_nothing(rt: HostRuntime) {
    let alloc = rt.alloc();
    let none = Curves::new(
        By::Thread,
        Vec::new(alloc),
        Vec::new(alloc),
        Vec::new(alloc),
    );
    check_table(&rt, alloc, &none, Measure::Ticks, "tick\n0\n");
}

/// Draws the curves, and looks for these parts of the picture.
fn check_picture(rt: &impl Abort, alloc: Global, curves: &Curves, parts: &[&str]) {
    let picture = chart_of(alloc, curves, "a < b & c").expect(rt, "memory");
    let text = String::from_utf8(picture).expect(rt, "a text");
    for part in parts {
        check_same_at(rt, part, &text.as_str().contains(*part), &true);
    }
}

const PARTS: &[&str] = &[
    "<title id='title'>a &lt; b &amp; c</title>\n",
    "<text x='92' y='260.0' dy='4' text-anchor='end'>1</text>\n",
    "<text x='546.6' y='480' text-anchor='middle'>2</text>\n",
    "<polyline points=' 100.0,460.0 323.3,260.0 546.6,60.0 770.0,60.0' stroke='#0072b2'/>\n",
    "<polyline points=' 100.0,460.0 323.3,460.0 546.6,460.0 770.0,260.0' stroke='#d55e00'/>\n",
    "<text x='788' y='60.0' dy='4'>a 66.7%</text>\n",
    "<text x='788' y='260.0' dy='4'>b-2 33.3%</text>\n",
];

#[test]
fn pictures(rt: HostRuntime) {
    let curves = three_ticks(&rt, rt.alloc());
    check_picture(&rt, rt.alloc(), &curves, PARTS)
}

const PARTS_OF_MANY: &[&str] = &[
    "<text x='788' y='60.0' dy='4'>m 14.3%</text>\n",
    "<text x='788' y='367.7' dy='4'>c 3.3%</text>\n",
    "<path d='M770 367.7L784 383.7' stroke='#cc79a7'/>\n",
    "<text x='788' y='383.7' dy='4'>others 3.3%</text>\n",
];

#[test]
fn picture_of_more_than_twelve(rt: HostRuntime) {
    let curves = thirteen_threads(&rt, rt.alloc());
    check_picture(&rt, rt.alloc(), &curves, PARTS_OF_MANY)
}

const PARTS_OF_A_WINDOW: &[&str] = &[
    "<text x='788' y='260.0' dy='4'>m 50.0%</text>\n",
    "<path d='M770 326.7L784 300.0' stroke='#d55e00'/>\n<text x='788' y='300.0' dy='4'>l 33.3%</text>\n",
    "<text x='788' y='316.0' dy='4'>k 16.7%</text>\n",
    "<text x='788' y='460.0' dy='4'>others 0.0%</text>\n",
];

/// In the last three ticks thread m ran for three, thread l for two, and thread k for one.
#[test]
fn picture_with_a_window(rt: HostRuntime) {
    let curves = thirteen_threads(&rt, rt.alloc()).with_window(Some(3));
    check_picture(&rt, rt.alloc(), &curves, PARTS_OF_A_WINDOW)
}
