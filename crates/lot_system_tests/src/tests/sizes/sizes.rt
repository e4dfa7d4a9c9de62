//! Calls that allocate, at the least and the largest sizes.
ghost use Rattle.std.specs.Prelude.{◌≡◌, ◌+◌, false};

use crate::tests::same::{check_same, check_same_at};
use lot_engine::System;
use lot_graph::Graph;
use lot_kernel::Kernel;
use lot_lists::Lists;
use lot_machine::{Limits, Node, Sizes};
use lot_program::Program;
use lot_queues::Queues;
use lot_station::{BatonStation, Station, TurnLedger};
use lot_text::parse;
use lot_tree::SumTree;
use std::alloc::{AllocError, Global};
use std::marker::Brand;
use std::process::Abort;
use std::sync::Wait;
use std::sync::ledger::{Blank, Ledger};
use std::test::*;

/// The least and the largest tables.
fn bounds(rt: &impl Abort) -> [Limits; 2] {
    let least = Limits::new(Sizes::SMALLEST).expect(rt, "the least");
    let largest = Limits::new(Sizes::LARGEST).expect(rt, "the largest");
    [least, largest]
}

fn check_kernel(rt: &impl Abort, alloc: Global, limits: Limits) {
    let kernel = Kernel::new(alloc, limits).expect(rt, "memory");
    let counts = (kernel.ticket_count(), kernel.currency_count());
    check_same(rt, &counts, &(0, 1));
}

fn check_graph(rt: &impl Abort, alloc: Global, limits: Limits) {
    let graph = Graph::new(alloc, &limits).expect(rt, "memory");
    let found = (graph.threads(), graph.mutexes(), graph.is_currency(0));
    check_same(rt, &found, &(0, limits.mutexes, true));
}

#[test]
fn kernels_and_graphs(rt: HostRuntime) {
    for limits in bounds(&rt) {
        check_kernel(&rt, rt.alloc(), limits);
        check_graph(&rt, rt.alloc(), limits);
    }
}

/// Whether the first of these lists, if there is one, is empty.
fn check_lists(rt: &impl Abort, alloc: Global, lists: usize, nodes: usize) {
    let made = Lists::new(alloc, lists, nodes).expect(rt, "memory");
    if 0 < lists {
        assert!(rt; made.is_empty(0));
    }
}

fn check_queues(rt: &impl Abort, alloc: Global, (ports, mutexes, threads): (u32, u32, u32)) {
    let queues = Queues::new(alloc, ports, mutexes, threads).expect(rt, "memory");
    let found = (
        queues.ports(),
        queues.mutexes(),
        queues.room(),
        queues.threads(),
    );
    check_same(rt, &found, &(ports, mutexes, threads, 0));
}

fn check_tree(rt: &impl Abort, alloc: Global, places: usize) {
    let tree = SumTree::new(alloc, places).expect(rt, "memory");
    check_same(rt, &(tree.len(), tree.total()), &(places, 0));
}

#[test]
fn lists_queues_and_trees(rt: HostRuntime) {
    for (lists, nodes) in [(0, 0), (1, 1), (4865, 73983)] {
        check_lists(&rt, rt.alloc(), lists, nodes);
    }
    for sizes in [(0, 0, 1), (256, 256, 4096)] {
        check_queues(&rt, rt.alloc(), sizes);
    }
    for places in [0, 1, 4096] {
        check_tree(&rt, rt.alloc(), places);
    }
}

/// The shortest input.
const LEAST: &str = "lottery 1";

/// An input with the most processors and the longest script that an input may have.
fn large_input(rt: &impl Abort, alloc: Global) -> String {
    let header = "lottery 2\nprocessors 64\nquantum 1000\nturns 10000\nscript long\n";
    let mut text = String::from_str(alloc, header).expect(rt, "memory");
    for _line in 0..1024 {
        text.push_str("compute 1\n").expect(rt, "memory");
    }
    text.push_str("endscript\n").expect(rt, "memory");
    text
}

/// The program of an input.
fn program_of(rt: &impl Abort, alloc: Global, text: &str) -> Program {
    parse(alloc, text.as_bytes()).expect(rt, "it is read")
}

/// The least and a large program, with room for the fewest and the most turns.
fn programs(rt: &impl Abort, alloc: Global) -> [(Program, u32); 2] {
    let text = large_input(rt, alloc);
    let least = program_of(rt, alloc, LEAST);
    let large = program_of(rt, alloc, text.as_str());
    [(least, 0), (large, 1000000)]
}

/// Compares each script with its copy.
fn check_scripts(rt: &impl Abort, alloc: Global, program: &Program) {
    for script in program.scripts() {
        let copied = script.copied(alloc).expect(rt, "memory");
        assert!(rt; copied.is_same(script));
    }
}

/// A system of the program, which has its processors.
fn checked_system(rt: &impl Abort, alloc: Global, program: &Program, room: u32) -> System
    ensures { result.setting.timer ≡ false }
{
    let system = System::open(alloc, program, room).expect(rt, "memory");
    check_same(rt, &system.processors(), &program.limits().processors);
    system
}

/// The number of seats of a baton station of the system, and whether it is closed.
fn baton_seats<R: Wait>(rt: &R, alloc: Global, system: System) -> Result<(usize, bool), AllocError>
    requires { system.setting.timer ≡ false }
{
    let (station, seats) = BatonStation::open(alloc, system)?;
    let count = seats.len();
    Ok((count, station.close(rt, seats).is_ok()))
}

/// A copy of the program, which has as many scripts.
fn checked_copy(rt: &impl Abort, alloc: Global, program: &Program) -> Program {
    let copy = program.copied(alloc).expect(rt, "memory");
    check_same(rt, &copy.scripts().len(), &program.scripts().len());
    copy
}

fn check_copies<R: Abort + Wait>(rt: &R, alloc: Global, program: &Program, room: u32) {
    let copy = checked_copy(rt, alloc, program);
    check_scripts(rt, alloc, program);
    let system = checked_system(rt, alloc, &copy, room);
    let seats = baton_seats(rt, alloc, system).expect(rt, "memory");
    let wanted = program.limits().processors as usize + 1;
    check_same(rt, &seats, &(wanted, true));
}

#[test]
fn copies_and_systems(rt: HostRuntime) {
    for (program, room) in programs(&rt, rt.alloc()) {
        check_copies(&rt, rt.alloc(), &program, room);
    }
}

/// Opens a station of the system, and closes it again. Returns the number of its seats.
fn seats_of<T: TurnLedger, Q: Ledger, K: Ledger>(
    alloc: Global,
    system: System,
    turns: Blank,
    quanta: Blank,
    ticks: Blank,
) -> Result<Option<usize>, AllocError>
    requires setting { system.setting ≡ T.setting }
    requires timer { system.setting.timer ≡ false }
    requires turns { (turns.name ≡ T.name) × (turns.parts ≡ T.parts)
        × (T.parts ≡ system.setting.program.limits.processors + 1) }
    requires quanta { (quanta.name ≡ Q.name) × (quanta.parts ≡ Q.parts)
        × (Q.parts ≡ system.setting.program.limits.processors + 1) }
    requires ticks { (ticks.name ≡ K.name) × (ticks.parts ≡ K.parts)
        × (K.parts ≡ system.setting.program.limits.processors + 1) }
{
    let (station, seats) = Station::<T, Q, K>::open(alloc, system, turns, quanta, ticks)?;
    let count = seats.len();
    Ok(station.close(seats).ok().map(|_system| count))
}

/// Opens and closes a station with ledgers of its own. Returns the number of its seats.
fn seats_in(alloc: Global, program: &Program, room: u32) -> Result<Option<usize>, AllocError> {
    let system = System::open(alloc, program, room)?;
    let parts = u64::from(system.processors()) + 1;
    seats_of::<Brand, Brand, Brand>(
        alloc,
        system,
        Blank::new(parts),
        Blank::new(parts),
        Blank::new(parts),
    )
}

#[test]
fn stations(rt: HostRuntime) {
    for (program, room) in programs(&rt, rt.alloc()) {
        let wanted = program.limits().processors as usize + 1;
        let seats = seats_in(rt.alloc(), &program, room).expect(&rt, "memory");
        check_same_at(&rt, &room, &seats, &Some(wanted));
    }
}
