//! Curves as a picture.
ghost use Rattle.std.specs.Prelude.{◌≡◌, ◌+◌, ◌<◌, ◌≤◌, ◌^◌, ◌++◌, IfOk, OnOk, Option, None, Some, length};
ghost use Rattle.std.specs.Prelude.{codes};
ghost use Rattle.std.specs.Fmt.{decimal};
ghost use Rattle.std.specs.List.{flat_map};
ghost use Rattle.lot_chart.specs.Charts as definitions;
ghost use Rattle.lot_chart.specs.Charts.{axes, column_mark, command_mark, command_marks, curve, drawn_of, frame, head};
ghost use Rattle.lot_chart.specs.Charts.{height_mark, heights_label, label, leader, measure_label, name_text};
ghost use Rattle.lot_chart.specs.Charts.{picture, point};
ghost use Rattle.lot_chart.specs.Charts.{point_at, points, stroke, time_mark};
ghost use Rattle.lot_chart.specs.Axes.{marks, time_marks};
ghost use Rattle.lot_chart.specs.Dues.{Dues as DuesRecord, dues_by};
ghost use Rattle.lot_chart.specs.Gauges.{AreLinesOf, HaveDues};
ghost use Rattle.lot_chart.specs.Shares.{tenths};
ghost use Rattle.lot_chart.specs.Standings as standings;
ghost use Rattle.lot_curves.specs.Curves.{sample_count};
ghost use Rattle.lot_curves.specs.Stretches.{last_end};

use crate::PlotLine;
use crate::axes::{axis_step, lead, mark_count, time_mark_count};
use crate::due_lines::{most_due, push_due_curves};
use crate::escapes::push_escaped;
use crate::lines::{height_of, lines_of, most_in, scaled};
use crate::marks::marked;
use crate::metering::LineDues;
use crate::shares::{share_of, whole_at};
use crate::standings::{Selection, select, stretches_of_thread};
use crate::text::Text;
use lot_curves::{By, Curves, Measure, Stretch, had_in};
use lot_machine::{Name, index_of};
use lot_program::Program;
use std::alloc::{AllocError, Global};

/// The largest width of a picture, in whole units.
const WIDEST: usize = 1040;

/// The left edge of the plot.
const LEFT: u32 = 1000;

/// The width of the plot.
const WIDTH: u32 = 6700;

/// The picture from its size to the title.
const FONT: &str =
    " 540' role='img' aria-labelledby='title' font-family='sans-serif' font-size='12' \
    fill='#222222'>\n<title id='title'>";

/// The picture from the axes' marks to the label of the vertical axis.
const FRAME: &str = "<path d='M100 60V460H770' fill='none' stroke='#222222'/>\n\
    <text x='435' y='512' text-anchor='middle'>time, in ticks</text>\n\
    <text transform='translate(14 260) rotate(-90)' text-anchor='middle'>";

/// The picture of the curves, an SVG with this title: a line for each thread, or for the eleven that have run longest
/// and one for the others together. At each line's end are the thread's name and its share of all ticks. With a window,
/// lines show shares of the last ticks, and the eleven are those that have run longest in the last window. By currency
/// there is a line for each of the twelve currencies whose threads have run longest, and none for the others. Fails
/// only if out of memory.
pub fn chart_of(alloc: Global, curves: &Curves, title: &str) -> Result<Vec<u8>, AllocError>
    ensures { IfOk result (λ text. text.items ≡ definitions.chart title.now None curves.now) }
{
    let selection = select(alloc, curves)?;
    draw(alloc, curves, title, &selection, &None)
}

/// The picture of these curves of the program, like `chart_of`. In a timed program a thin line behind each line shows
/// its due. Fails only if out of memory.
pub fn program_chart(
    alloc: Global,
    program: &Program,
    curves: &Curves,
    title: &str,
) -> Result<Vec<u8>, AllocError>
    ensures { IfOk result (λ text.
        text.items ≡ definitions.chart title.now (dues_by curves.now.by program.now) curves.now) }
{
    let selection = select(alloc, curves)?;
    let dues = LineDues::of(alloc, program, curves, selection.shown.as_slice())?;
    draw(alloc, curves, title, &selection, &dues)
}

/// The picture with these lines and their dues.
fn draw(
    alloc: Global,
    curves: &Curves,
    title: &str,
    selection: &Selection,
    dues: &Option<LineDues>,
) -> Result<Vec<u8>, AllocError>
    requires few { length selection.now.others.items < 2 ^ 32 }
    requires lines { length selection.now.shown.items ≤ 12 }
    requires selection { record { shown = selection.now.shown.items; others = selection.now.others.items }
        ≡ standings.selection curves.now }
    requires due { (due : Option DuesRecord) × HaveDues curves.now due selection.now.shown.items dues.now }
    ensures { IfOk result (λ text. (due : Option DuesRecord)
        → HaveDues curves.now due selection.now.shown.items dues.now
        → text.items ≡ definitions.chart title.now due curves.now) }
{
    let shown = selection.shown.as_slice();
    let most = most_in(shown).max(most_due(curves, dues, shown));
    let top = top_at(curves, most, curves.last());
    let lines = lines_of(alloc, top, shown)?;
    let mut text = Text::new(alloc);
    push_picture(
        alloc,
        &mut text,
        title.as_bytes(),
        curves,
        selection,
        dues,
        most,
        lines.as_slice(),
    )?;
    Ok(text.into_bytes())
}

/// Adds the picture with these lines and their dues, given the most ticks.
fn push_picture(
    alloc: Global,
    text: &mut Text,
    title: &[u8],
    curves: &Curves,
    selection: &Selection,
    dues: &Option<LineDues>,
    most: u64,
    lines: &[PlotLine],
) -> Result<(), AllocError>
    requires few { length selection.now.others.items < 2 ^ 32 }
    requires lines { AreLinesOf selection.now.shown.items lines.now }
    requires due { (due : Option DuesRecord) × HaveDues curves.now due selection.now.shown.items dues.now }
    ensures { OnOk result ((due : Option DuesRecord) → HaveDues curves.now due selection.now.shown.items dues.now
        → text.new ≡ text.old ++ picture title.now curves.now due
        (record { shown = selection.now.shown.items; others = selection.now.others.items }) most lines.now) }
{
    let others = selection.others.as_slice();
    let names = curves.names();
    let width = width_for(longest_name(names, lines), title.len());
    push_head(text, width, title)?;
    push_axes(alloc, text, curves, most)?;
    let heads = tops_of(alloc, curves, most)?;
    let tops = heads.as_slice();
    push_due_curves(alloc, text, curves, dues, tops, lines)?;
    text.push("<g fill='none' stroke-width='2' stroke-linejoin='round'>\n")?;
    push_curves(alloc, text, curves, others, tops, lines)?;
    text.push("</g>\n")?;
    push_labels(text, names, total_of(curves), lines)?;
    text.push("</svg>\n")
}

/// The bytes of the longest name beside a line.
fn longest_name(names: &[Name], lines: &[PlotLine]) -> usize
    ensures exact { result ≡ definitions.longest_name names.now lines.now }
    ensures short { result ≤ 16 }
{
    let mut longest = 0;
    for line in lines {
        longest = name_of(names, line.thread).len().max(longest);
    }
    longest
}

/// The width of the picture: it has room for a name of this many bytes with its share, and for a title, up to 1040.
fn width_for(name: usize, title: usize) -> u64
    requires { name ≤ 16 }
    ensures { result ≡ definitions.width_for name title }
{
    let named = 848 + 12 * name;
    let titled = 110 + 11 * title.min(WIDEST);
    named.max(titled).min(WIDEST) as u64
}

/// Adds the part before the axes.
fn push_head(text: &mut Text, width: u64, title: &[u8]) -> Result<(), AllocError>
    ensures { OnOk result (text.new ≡ text.old ++ head width title.now) }
{
    text.push_number_within(
        "<svg xmlns='http://www.w3.org/2000/svg' width='",
        width,
        "' height='540' viewBox='0 0 ",
    )?;
    text.push_number(width)?;
    text.push(FONT)?;
    push_escaped(text, title)?;
    text.push_number_within(
        "</title>\n<rect width='",
        width,
        "' height='540' fill='#ffffff'/>\n<text x='100' y='34' font-size='18'>",
    )?;
    push_escaped(text, title)?;
    text.push("</text>\n")
}

/// Adds the axes, and the marks of commands.
fn push_axes(alloc: Global, text: &mut Text, curves: &Curves, most: u64) -> Result<(), AllocError>
    ensures { OnOk result (text.new ≡ text.old ++ axes curves.now most) }
{
    push_height_marks(text, highest(curves, most))?;
    push_time_marks(text, curves)?;
    push_command_marks(alloc, text, curves)?;
    push_frame(text, curves.by(), curves.window())
}

/// The number at the top of the vertical axis: the most ticks of a line, or 100 percent with a window.
fn highest(curves: &Curves, most: u64) -> u64
    ensures { result ≡ definitions.highest curves.now.window most }
{
    match curves.window() {
        None => most,
        Some(_) => 100,
    }
}

/// Adds both axes without marks, and their labels.
fn push_frame(text: &mut Text, by: By, window: Option<u32>) -> Result<(), AllocError>
    ensures { OnOk result (text.new ≡ text.old ++ frame by window) }
{
    text.push(FRAME)?;
    push_heights_label(text, by, window)?;
    text.push("</text>\n")
}

/// Adds the label of the vertical axis.
fn push_heights_label(text: &mut Text, by: By, window: Option<u32>) -> Result<(), AllocError>
    ensures { OnOk result (text.new ≡ text.old ++ heights_label by window) }
{
    text.push(lines_label(by))?;
    push_measure_label(text, window)
}

/// The subject of the lines.
fn lines_label(by: By) -> &'static str
    ensures { result.now ≡ definitions.lines_label by }
{
    match by {
        By::Thread => "what each thread has run",
        By::Currency => "what the threads of each currency have run",
    }
}

/// Adds the measure of the vertical axis.
fn push_measure_label(text: &mut Text, window: Option<u32>) -> Result<(), AllocError>
    ensures { OnOk result (text.new ≡ text.old ++ measure_label window) }
{
    match window {
        None => text.push(", in ticks"),
        Some(window) => push_window_label(text, window),
    }
}

/// Adds the measure of the vertical axis with a window.
fn push_window_label(text: &mut Text, window: u32) -> Result<(), AllocError>
    ensures { OnOk result (text.new ≡ text.old ++ measure_label (Some window)) }
{
    text.push_number_within(" in the last ", u64::from(window), " ticks, in percent")
}

/// Adds the marks of the vertical axis.
fn push_height_marks(text: &mut Text, most: u64) -> Result<(), AllocError>
    ensures { OnOk result (text.new ≡ text.old ++ flat_map (height_mark most) (marks most)) }
{
    let step = axis_step(most);
    for mark in 0..mark_count(most) + 1 {
        push_height_mark(text, most, mark * step)?;
    }
    Ok(())
}

/// Adds the mark of a number of ticks, or of a percentage, on the vertical axis.
fn push_height_mark(text: &mut Text, most: u64, ticks: u64) -> Result<(), AllocError>
    ensures { OnOk result (text.new ≡ text.old ++ height_mark most ticks) }
{
    push_axis_mark(
        text,
        "<path d='M100 ",
        height_of(most, ticks),
        "H770' stroke='#dddddd'/>\n<text x='92' y='",
        "' dy='4' text-anchor='end'>",
        ticks,
    )
}

/// Adds the mark of a number on an axis: a line, at this position between the first two texts, and a label, at the same
/// position between the last two.
fn push_axis_mark(
    text: &mut Text,
    before: &str,
    position: u32,
    between: &str,
    after: &str,
    number: u64,
) -> Result<(), AllocError>
    ensures { OnOk result (text.new ≡ text.old ++ (before.now ++ (tenths position ++ (between.now
        ++ (tenths position ++ (after.now ++ (decimal number ++ codes "</text>\n"))))))) }
{
    text.push_tenths_within(before, position, between)?;
    text.push_tenths(position)?;
    text.push_number_within(after, number, "</text>\n")
}

/// Adds the marks of the time axis.
fn push_time_marks(text: &mut Text, curves: &Curves) -> Result<(), AllocError>
    ensures { OnOk result (text.new ≡ text.old
        ++ flat_map (time_mark curves.now) (time_marks curves.now.origin (last_end curves.now.stretches))) }
{
    let origin = curves.origin();
    let last = curves.last();
    let step = axis_step(last);
    let first = lead(step, origin);
    for mark in 0..time_mark_count(origin, last) + 1 {
        push_time_mark(text, curves, first + mark * step)?;
    }
    Ok(())
}

/// Adds the mark of a tick, which counts from the origin, on the time axis.
fn push_time_mark(text: &mut Text, curves: &Curves, tick: u64) -> Result<(), AllocError>
    requires { tick < 2 ^ 56 }
    ensures { OnOk result (text.new ≡ text.old ++ time_mark curves.now tick) }
{
    push_axis_mark(
        text,
        "<path d='M",
        across(curves.last(), tick),
        " 460v5' stroke='#222222'/>\n<text x='",
        "' y='480' text-anchor='middle'>",
        curves.origin() + tick,
    )
}

/// Adds the marks at the times of commands.
fn push_command_marks(alloc: Global, text: &mut Text, curves: &Curves) -> Result<(), AllocError>
    ensures { OnOk result (text.new ≡ text.old ++ command_marks curves.now) }
{
    let marks = marked(alloc, curves)?;
    for mark in marks.as_slice() {
        push_column_mark(text, curves, *mark)?;
    }
    Ok(())
}

/// Adds the mark of a column, if a command has its time there.
fn push_column_mark(
    text: &mut Text,
    curves: &Curves,
    command: Option<u32>,
) -> Result<(), AllocError>
    ensures { OnOk result (text.new ≡ text.old ++ column_mark curves.now command) }
{
    match command {
        None => Ok(()),
        Some(time) => push_command_mark(text, curves, u64::from(time)),
    }
}

/// Adds the mark at the time of a command.
fn push_command_mark(text: &mut Text, curves: &Curves, time: u64) -> Result<(), AllocError>
    ensures { OnOk result (text.new ≡ text.old ++ command_mark curves.now time) }
{
    let tick = time.saturating_sub(curves.origin());
    text.push_tenths_within(
        "<path d='M",
        across(curves.last(), tick),
        " 60V460' stroke='#bbbbbb' stroke-dasharray='3 3'><title>command at ",
    )?;
    text.push_number(time)?;
    text.push("</title></path>\n")
}

/// The horizontal position of a tick.
fn across(last: u64, tick: u64) -> u32
    ensures { result ≡ definitions.across last tick }
{
    LEFT + scaled(tick, last, WIDTH)
}

/// Adds the lines.
fn push_curves(
    alloc: Global,
    text: &mut Text,
    curves: &Curves,
    others: &[Stretch],
    tops: &[u64],
    lines: &[PlotLine],
) -> Result<(), AllocError>
    requires few { length others.now < 2 ^ 32 }
    requires tops { length tops.now ≡ sample_count (last_end curves.now.stretches) + 1 }
    ensures { OnOk result (text.new ≡ text.old ++ flat_map (curve curves.now others.now tops.now) lines.now) }
{
    for line in lines {
        push_curve(alloc, text, curves, others, tops, line)?;
    }
    Ok(())
}

/// Adds one line.
fn push_curve(
    alloc: Global,
    text: &mut Text,
    curves: &Curves,
    others: &[Stretch],
    tops: &[u64],
    line: &PlotLine,
) -> Result<(), AllocError>
    requires few { length others.now < 2 ^ 32 }
    requires tops { length tops.now ≡ sample_count (last_end curves.now.stretches) + 1 }
    ensures { OnOk result (text.new ≡ text.old ++ curve curves.now others.now tops.now line.now) }
{
    text.push("<polyline points='")?;
    push_points_of(alloc, text, curves, others, tops, line.thread)?;
    push_stroke(text, line.style)
}

/// Adds the end of a line after its points: its colour and dash pattern.
pub(crate) fn push_stroke(text: &mut Text, style: u32) -> Result<(), AllocError>
    ensures { OnOk result (text.new ≡ text.old ++ stroke style) }
{
    text.push("' stroke='")?;
    text.push(colour(style))?;
    text.push_within("'", strokes(style), "/>\n")
}

/// Adds the points of a thread, or of the others.
fn push_points_of(
    alloc: Global,
    text: &mut Text,
    curves: &Curves,
    others: &[Stretch],
    tops: &[u64],
    thread: u32,
) -> Result<(), AllocError>
    requires few { length others.now < 2 ^ 32 }
    requires tops { length tops.now ≡ sample_count (last_end curves.now.stretches) + 1 }
    ensures { OnOk result (text.new ≡ text.old ++ points curves.now tops.now (drawn_of curves.now others.now thread)) }
{
    if thread == 0 {
        return push_points(text, curves, tops, others);
    }
    let own = stretches_of_thread(alloc, curves.stretches(), thread)?;
    push_points(text, curves, tops, own.as_slice())
}

/// Adds a point for each sample: the ticks of these stretches at the sample's tick.
fn push_points(
    text: &mut Text,
    curves: &Curves,
    tops: &[u64],
    stretches: &[Stretch],
) -> Result<(), AllocError>
    requires few { length stretches.now < 2 ^ 32 }
    requires tops { length tops.now ≡ sample_count (last_end curves.now.stretches) + 1 }
    ensures { OnOk result (text.new ≡ text.old ++ points curves.now tops.now stretches.now) }
{
    for sample in 0..curves.sample_count() + 1 {
        let top = tops[sample as usize];
        push_point(text, curves, top, stretches, curves.sample_tick(sample))?;
    }
    Ok(())
}

/// Adds one point, given the ticks at the top of the plot.
fn push_point(
    text: &mut Text,
    curves: &Curves,
    top: u64,
    stretches: &[Stretch],
    tick: u64,
) -> Result<(), AllocError>
    requires { length stretches.now < 2 ^ 32 }
    ensures { OnOk result (text.new ≡ text.old ++ point curves.now top stretches.now tick) }
{
    let ticks = had_in(Measure::Ticks, curves.window(), tick, stretches);
    push_point_at(text, curves, tick, height_of(top, ticks))
}

/// Adds a point at this tick and height.
pub(crate) fn push_point_at(
    text: &mut Text,
    curves: &Curves,
    tick: u64,
    height: u32,
) -> Result<(), AllocError>
    ensures { OnOk result (text.new ≡ text.old ++ point_at curves.now tick height) }
{
    text.push_tenths_within(" ", across(curves.last(), tick), ",")?;
    text.push_tenths(height)
}

/// The ticks at the top of the plot, at each sample.
fn tops_of(alloc: Global, curves: &Curves, most: u64) -> Result<Vec<u64>, AllocError>
    ensures { IfOk result (λ tops. tops.items ≡ definitions.tops curves.now most) }
{
    let mut tops = Vec::new(alloc);
    for sample in 0..curves.sample_count() + 1 {
        tops.push(top_at(curves, most, curves.sample_tick(sample)))?;
    }
    Ok(tops)
}

/// The ticks at the top of the plot, at this tick: with a window all ticks of the window that ends there, otherwise the
/// most of a line.
fn top_at(curves: &Curves, most: u64, tick: u64) -> u64
    ensures { result ≡ definitions.top_at curves.now most tick }
{
    whole_at(curves, Measure::Ticks, tick).unwrap_or(most)
}

/// The colour of a line in this style.
fn colour(style: u32) -> &'static str
    ensures { result.now ≡ definitions.colour style }
{
    match style % 8 {
        0 => "#0072b2",
        1 => "#d55e00",
        2 => "#009e73",
        3 => "#cc79a7",
        4 => "#e69f00",
        5 => "#56b4e9",
        6 => "#000000",
        _ => "#f0e442",
    }
}

/// The dash pattern of a line in this style, which tells later lines from the first with the same colour.
fn strokes(style: u32) -> &'static str
    ensures { result.now ≡ definitions.strokes style }
{
    if style < 8 {
        return "";
    }
    " stroke-dasharray='7 4'"
}

/// The ticks of all turns, or of the last window.
fn total_of(curves: &Curves) -> u64
    ensures { result ≡ definitions.total curves.now }
{
    curves.total_at(Measure::Ticks, curves.last())
}

/// Adds the lines' names.
fn push_labels(
    text: &mut Text,
    names: &[Name],
    total: u64,
    lines: &[PlotLine],
) -> Result<(), AllocError>
    ensures { OnOk result (text.new ≡ text.old ++ flat_map (label names.now total) lines.now) }
{
    for line in lines {
        push_label(text, names, total, line)?;
    }
    Ok(())
}

/// Adds one name, and its leader.
fn push_label(
    text: &mut Text,
    names: &[Name],
    total: u64,
    line: &PlotLine,
) -> Result<(), AllocError>
    ensures { OnOk result (text.new ≡ text.old ++ label names.now total line.now) }
{
    push_leader(text, line)?;
    push_name(text, names, total, line)
}

/// Adds the leader from the line's end to its name.
fn push_leader(text: &mut Text, line: &PlotLine) -> Result<(), AllocError>
    ensures { OnOk result (text.new ≡ text.old ++ leader line.now) }
{
    text.push_tenths_within("<path d='M770 ", line.height, "L784 ")?;
    text.push_tenths(line.place)?;
    text.push_within("' stroke='", colour(line.style), "'/>\n")
}

/// Adds the line's name, and its share of all ticks.
fn push_name(text: &mut Text, names: &[Name], total: u64, line: &PlotLine) -> Result<(), AllocError>
    ensures { OnOk result (text.new ≡ text.old ++ name_text names.now total line.now) }
{
    text.push_tenths_within("<text x='788' y='", line.place, "' dy='4'>")?;
    push_escaped(text, name_of(names, line.thread))?;
    text.push_tenths_within(" ", share_of(total, line.ticks), "%</text>\n")
}

/// The name of the thread or currency; thread 0 stands for the others.
fn name_of(names: &[Name], thread: u32) -> &[u8]
    ensures name { result.now ≡ definitions.name_of names.now thread }
    ensures short { length result.now ≤ 16 }
{
    if thread == 0 || thread as usize > names.len() {
        return b"others";
    }
    names[index_of(thread)].as_bytes()
}
