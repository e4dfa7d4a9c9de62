mod packing;
mod printing;
mod same;
mod skipped;
mod slices;
mod words;

use crate::fault_of;
use lot_kernel_tests::command_with;
use lot_machine::{Command, Kind, Limits, Name, ScriptTrap, Sizes, Verb};
use lot_program::{Commands, Program, Seed};
use lot_script::Script;
use lot_simulation::{InputFault, InputRefusal, Options, ScriptLine};
use lot_text::{ParseFault, parse, parse_seeded};
use same::{check_same, check_same_at};
use std::alloc::Global;
use std::fmt::Debug;
use std::process::Abort;

/// A command: its verb, and its arguments.
#[derive(Clone, Copy)]
struct Asked<'a>(Verb, &'a str);

/// The expected program of an input.
#[derive(Clone, Copy)]
struct Said<'a> {
    sizes: Sizes,
    seeds: &'a [u32],
    turns: u32,
    scripts: &'a [&'a [ScriptLine]],
    commands: &'a [Asked<'a>],
    schedule: &'a [u8],
    duration: Option<u32>,
    times: &'a [u32],
    ticket_names: u32,
    names: &'a [Option<u16>],
    options: Options,
}

fn name(rt: &impl Abort, text: &str) -> Name {
    Name::new(text).expect(rt, "it is too long for a name")
}

fn command(rt: &impl Abort, Asked(verb, arguments): Asked<'_>) -> Command {
    command_with(verb, arguments).expect(rt, "a command")
}

fn sizes_of(limits: Limits) -> Sizes {
    Sizes {
        tickets: limits.tickets,
        currencies: limits.currencies,
        threads: limits.threads,
        ports: limits.ports,
        mutexes: limits.mutexes,
        processors: limits.processors,
        scripts: limits.scripts,
        quantum: limits.quantum,
        unit: limits.unit,
        reuse: limits.reuse,
        plain_names: limits.plain_names,
        without_compensation: limits.without_compensation,
        without_lending: limits.without_lending,
        queued_lend: limits.queued_lend,
    }
}

fn check_limits(rt: &impl Abort, limits: Limits, wanted: Sizes) {
    check_same(rt, &sizes_of(limits), &wanted);
}

fn check_items<T: PartialEq + Debug>(rt: &impl Abort, found: &[T], wanted: &[T]) {
    check_same(rt, &found, &wanted);
}

/// Compares the limits, the seeds, the turns and the schedule.
fn check_numbers(rt: &impl Abort, program: &Program, said: &Said<'_>) {
    check_limits(rt, program.limits(), said.sizes);
    check_items(rt, program.seeds(), said.seeds);
    check_items(rt, program.schedule(), said.schedule);
    check_same(rt, &program.turns(), &said.turns);
}

/// Compares the duration, and the times of the commands.
fn check_times(rt: &impl Abort, program: &Program, said: &Said<'_>) {
    check_items(rt, program.times(), said.times);
    check_same(rt, &program.duration(), &said.duration);
}

/// Compares the names of tickets, and what the header chooses.
fn check_names(rt: &impl Abort, program: &Program, said: &Said<'_>) {
    check_same(rt, &program.ticket_names(), &said.ticket_names);
    check_items(rt, program.names(), said.names);
    check_same(rt, &program.options(), &said.options);
}

fn check_scripts(rt: &impl Abort, scripts: &[Script], wanted: &[&[ScriptLine]]) {
    check_same(rt, &scripts.len(), &wanted.len());
    for (script, lines) in scripts.iter().zip(wanted) {
        check_items(rt, script.lines(), lines);
    }
}

fn check_command(rt: &impl Abort, found: &Command, asked: Asked<'_>) {
    check_same(rt, found, &command(rt, asked));
}

fn check_commands(rt: &impl Abort, commands: &Commands, wanted: &[Asked<'_>]) {
    check_same(rt, &commands.len(), &wanted.len());
    for index in 0..commands.len() {
        let asked = wanted.get(index).expect(rt, "there are as many");
        check_command(rt, &commands.at(index), *asked);
    }
}

fn check_program(rt: &impl Abort, program: &Program, said: &Said<'_>) {
    check_numbers(rt, program, said);
    check_times(rt, program, said);
    check_names(rt, program, said);
    check_scripts(rt, program.scripts(), said.scripts);
    check_commands(rt, program.commands(), said.commands);
}

/// Reads the text, and compares the program with the expected one.
fn check_said(rt: &impl Abort, alloc: Global, text: &str, said: &Said<'_>) {
    let program = parse(alloc, text.as_bytes()).expect(rt, "it is read");
    check_program(rt, &program, said);
}

/// The sizes of an input without lines of the header.
const USUAL: Sizes = Sizes {
    tickets: 65535,
    currencies: 4096,
    threads: 4096,
    quantum: 100,
    ..Sizes::SMALLEST
};

/// The program of an input without lines after the first.
const NOTHING: Said<'static> = Said {
    sizes: USUAL,
    seeds: &[1],
    turns: 0,
    scripts: &[],
    commands: &[],
    schedule: &[],
    duration: None,
    times: &[],
    ticket_names: 0,
    names: &[],
    options: Options::NONE,
};

const FIRST_RUN: &str =
    "lottery 1\n# no header\nscript spin\n  compute   1000 \n\nendscript\nmktkt 10 base\nmkthr a spin\nfund 1 a\n\
    mktkt 18446744073709551615 base\nmkthr b none\nfund 2 b\nschedule 0 0 0\nschedule 1 1 0";

const FIRST_RUN_SAYS: &Said<'static> = &Said {
    sizes: Sizes {
        scripts: 1,
        ..USUAL
    },
    seeds: &[1],
    scripts: &[&[ScriptLine::Compute(1000)]],
    commands: &[
        Asked(Verb::MakeTicket, "10 base"),
        Asked(Verb::MakeThread, "a 1"),
        Asked(Verb::Fund, "1 a"),
        Asked(Verb::MakeTicket, "18446744073709551615 base"),
        Asked(Verb::MakeThread, "b 0"),
        Asked(Verb::Fund, "2 b"),
    ],
    schedule: &[0, 0, 0, 1, 1, 0],
    ..NOTHING
};

/// Compares the seeds of an input with three of its own, read with this seed in their place.
fn check_seeds(rt: &impl Abort, alloc: Global, given: Option<Seed>, wanted: &[u32]) {
    let text = "lottery 3\nprocessors 3\nfor 1\nseed 7 8 9\n";
    let program = parse_seeded(alloc, given, text.as_bytes()).expect(rt, "it is read");
    check_items(rt, program.seeds(), wanted);
}

const SEEDS: &[u32] = &[7, 8, 9];

const SEEDS_AFTER_5: &[u32] = &[5, 241355, 913028970];

/// Of three processors each further one has 48271 times the seed before it, modulo 2147483647: 5 * 48271 = 241355, and
/// 241355 * 48271 - 5 * 2147483647 = 913028970.
#[test]
fn given_seeds(rt: HostRuntime) {
    check_seeds(&rt, rt.alloc(), None, SEEDS);
    check_seeds(&rt, rt.alloc(), Seed::new(5), SEEDS_AFTER_5);
    check_same(&rt, &Seed::new(0), &None);
    check_same(&rt, &Seed::new(2147483647), &None);
}

const HEADERS: &str =
    "\n#\x07\n  lottery  2  \nquantum 7\nseed 2147483646\nlimits 3 2 1\nscript s\nendscript\n";

const HEADERS_SAY: &Said<'static> = &Said {
    sizes: Sizes {
        tickets: 3,
        currencies: 2,
        threads: 1,
        scripts: 1,
        quantum: 7,
        unit: 256,
        ..USUAL
    },
    seeds: &[2147483646],
    scripts: &[&[]],
    ..NOTHING
};

/// Every kind of line of inputs whose turns follow a schedule. Two names have 16 bytes, the longest.
const WHOLE_GRAMMAR: &str =
    "lottery 2\nprocessors 2\nquantum 7\nturns 10000\nseed 5 6\nlimits 9 8 7\n# ports\nport p\n\
    port abcdefghijklmnop\n\nmutex m\nmutex n\nscript s\nset 1\nloop 2\nadd 3\n# inner\ncompute 4\ncall p\nend\n\
    receive abcdefghijklmnop\nreply\nlock m\nunlock n\nyield\nendscript\nscript t\nendscript\nmktkt 10 base\n\
    rmtkt 1\nmkcur a\nrmcur a\nfund 3 a\nunfund 2\nmkthr abcdefghijklmnop t\nfundx 9 a v s\nlstkt\nlscur\nlsthr\n\
    runs 0 2 2 1\nschedule 1 0";

const WHOLE_GRAMMAR_SAYS: &Said<'static> = &Said {
    sizes: Sizes {
        tickets: 9,
        currencies: 8,
        threads: 7,
        ports: 2,
        mutexes: 2,
        processors: 2,
        scripts: 2,
        quantum: 7,
        unit: 256,
        ..USUAL
    },
    seeds: &[5, 6],
    turns: 10000,
    scripts: &[
        &[
            ScriptLine::Set(1),
            ScriptLine::Loop(2),
            ScriptLine::Add(3),
            ScriptLine::Compute(4),
            ScriptLine::Trap(ScriptTrap::Call(1, ())),
            ScriptLine::End,
            ScriptLine::Trap(ScriptTrap::Receive(2)),
            ScriptLine::Trap(ScriptTrap::Reply(())),
            ScriptLine::Trap(ScriptTrap::Lock(1)),
            ScriptLine::Trap(ScriptTrap::Unlock(2, ())),
            ScriptLine::Trap(ScriptTrap::Yield),
        ],
        &[],
    ],
    commands: &[
        Asked(Verb::MakeTicket, "10 base"),
        Asked(Verb::RemoveTicket, "1"),
        Asked(Verb::MakeCurrency, "a"),
        Asked(Verb::RemoveCurrency, "a"),
        Asked(Verb::Fund, "3 a"),
        Asked(Verb::Unfund, "2"),
        Asked(Verb::MakeThread, "abcdefghijklmnop 2"),
        Asked(Verb::MakeFunded, "9 a v 1"),
        Asked(Verb::List(Kind::Tickets), ""),
        Asked(Verb::List(Kind::Currencies), ""),
        Asked(Verb::List(Kind::Threads), ""),
    ],
    schedule: &[0, 0, 2, 1, 0],
    ..NOTHING
};

/// The parts that only timed inputs have. One name has 16 bytes, the longest, and isn't good.
const TIMED: &str =
    "lottery 3\nprocessors 2\nturns 5\nfor 4294967295\nreuse\nport p\nscript s\nloop 2 serve p yield\n\
    end sleep 4294967295 sleep 1 endscript\nmkthr a s\nat 10\nat 20\nlstkt\nlscur\nat 20\nlsthr\nsettkt 3 0\n\
    settkt 0 18446744073709551615\nrmthr a\nrmthr 0123456789abcdef\nkill a\nkill fedcba9876543210\n\
    at 4294967295";

/// The seeds are those after 1 of the generator that multiplies by 48271 modulo 2147483647.
const TIMED_SAYS: &Said<'static> = &Said {
    sizes: Sizes {
        ports: 1,
        processors: 2,
        scripts: 1,
        unit: 256,
        reuse: true,
        ..USUAL
    },
    seeds: &[48271, 182605794],
    turns: 5,
    scripts: &[&[
        ScriptLine::Loop(2),
        ScriptLine::Trap(ScriptTrap::Serve(1, ())),
        ScriptLine::Trap(ScriptTrap::Yield),
        ScriptLine::End,
        ScriptLine::Trap(ScriptTrap::Sleep(4294967295)),
        ScriptLine::Trap(ScriptTrap::Sleep(1)),
    ]],
    commands: &[
        Asked(Verb::MakeThread, "a 1"),
        Asked(Verb::List(Kind::Tickets), ""),
        Asked(Verb::List(Kind::Currencies), ""),
        Asked(Verb::List(Kind::Threads), ""),
        Asked(Verb::SetTicket, "3 0"),
        Asked(Verb::SetTicket, "0 18446744073709551615"),
        Asked(Verb::RemoveThread, "a"),
        Asked(Verb::RemoveThread, "0123456789abcdef"),
        Asked(Verb::Kill, "a"),
        Asked(Verb::Kill, "fedcba9876543210"),
    ],
    duration: Some(4294967295),
    times: &[0, 20, 20, 20, 20, 20, 20, 20, 20, 20],
    names: &[None; 10],
    options: Options {
        reuse: true,
        ..Options::NONE
    },
    ..NOTHING
};

/// One header of a timed input in three orders.
const HEADER_ORDERS: &[&str] = &[
    "processors 2\nquantum 50\nturns 5\nfor 9\nseed 7 8\nlimits 4 3 2\nreuse\nwithout lending\nwithout compensation\n\
     strict",
    "strict\nwithout compensation\nreuse\nlimits 4 3 2\nwithout lending\nprocessors 2\nseed 7 8\nfor 9\nturns 5\n\
     quantum 50",
    "for 9\nstrict\nwithout lending\nprocessors 2\nreuse\nturns 5\nwithout compensation\nlimits 4 3 2\nquantum 50\n\
     seed 7 8",
];

const HEADER_ORDERS_SAY: &Said<'static> = &Said {
    sizes: Sizes {
        tickets: 4,
        currencies: 3,
        threads: 2,
        ports: 1,
        processors: 2,
        quantum: 50,
        unit: 256,
        reuse: true,
        without_compensation: true,
        without_lending: true,
        ..USUAL
    },
    seeds: &[7, 8],
    turns: 5,
    duration: Some(9),
    options: Options {
        reuse: true,
        without_compensation: true,
        without_lending: true,
        strict: true,
        ..Options::NONE
    },
    ..NOTHING
};

fn check_header_order(rt: &impl Abort, alloc: Global, header: &str) {
    let text = format!(in alloc; "lottery 3\n{header}\nport p\n").expect(rt, "memory");
    check_said(rt, alloc, text.as_str(), HEADER_ORDERS_SAY);
}

#[test]
fn reads_timed_headers_in_any_order(rt: HostRuntime) {
    for header in HEADER_ORDERS {
        check_header_order(&rt, rt.alloc(), header);
    }
}

/// Two tickets have names, and one has none.
const NAMED: &str =
    "lottery 3\nfor 9\nscript s\nendscript\nmktkt 5 base as gift\nfundx 2 base a s as wage\nmktkt 7 base\n\
    fund gift a\nfund 3 a\nat 4\nsettkt wage 4\nunfund gift\nrmtkt gift\nlstkt\n";

const NAMED_SAYS: &Said<'static> = &Said {
    sizes: Sizes {
        scripts: 1,
        unit: 256,
        ..USUAL
    },
    seeds: &[48271],
    scripts: &[&[]],
    commands: &[
        Asked(Verb::MakeTicket, "5 base"),
        Asked(Verb::MakeFunded, "2 base a 1"),
        Asked(Verb::MakeTicket, "7 base"),
        Asked(Verb::Fund, "0 a"),
        Asked(Verb::Fund, "3 a"),
        Asked(Verb::SetTicket, "0 4"),
        Asked(Verb::Unfund, "0"),
        Asked(Verb::RemoveTicket, "0"),
        Asked(Verb::List(Kind::Tickets), ""),
    ],
    duration: Some(9),
    times: &[0, 0, 0, 0, 0, 4, 4, 4, 4],
    ticket_names: 2,
    names: &[
        Some(1),
        Some(2),
        None,
        Some(1),
        None,
        Some(2),
        Some(1),
        Some(1),
        None,
    ],
    ..NOTHING
};

/// Inputs, and their programs: a first run, headers, the whole grammar of inputs with a schedule, turns in the order of
/// time, and names of tickets.
const READ: &[(&str, &Said<'static>)] = &[
    (FIRST_RUN, FIRST_RUN_SAYS),
    (HEADERS, HEADERS_SAY),
    (WHOLE_GRAMMAR, WHOLE_GRAMMAR_SAYS),
    (TIMED, TIMED_SAYS),
    (NAMED, NAMED_SAYS),
];

#[test]
fn reads_inputs(rt: HostRuntime) {
    for (text, said) in READ {
        check_said(&rt, rt.alloc(), text, said);
    }
}

/// Reads the text, unless out of memory.
fn check_read(rt: &impl Abort, alloc: Global, text: &str) {
    let result = parse(alloc, text.as_bytes());
    assert!(rt; matches!(&result, Ok(_) | Err(ParseFault::Memory)));
}

// For runs in which one allocation fails: the tests above fail in those that refuse one of these.
#[test]
fn reads_or_lacks_memory(rt: HostRuntime) {
    check_read(&rt, rt.alloc(), WHOLE_GRAMMAR);
    check_read(&rt, rt.alloc(), TIMED);
    check_read(&rt, rt.alloc(), NAMED);
}

/// The refusal with this name.
fn refusal_of(name: &str) -> Option<InputRefusal> {
    match name.as_bytes() {
        b"BadHeader" => Some(InputRefusal::BadHeader),
        b"BadLine" => Some(InputRefusal::BadLine),
        b"BadNumber" => Some(InputRefusal::BadNumber),
        b"UnknownName" => Some(InputRefusal::UnknownName),
        b"OpenScript" => Some(InputRefusal::OpenScript),
        b"TooDeep" => Some(InputRefusal::TooDeep),
        b"TooLong" => Some(InputRefusal::TooLong),
        b"BadActor" => Some(InputRefusal::BadActor),
        _ => None,
    }
}

/// The line and the refusal of a row, and the ends of inputs that are refused so, as `2 BadLine: settkt|settkt 1`.
fn row_of(row: &str) -> Option<(u32, InputRefusal, &str)> {
    let (head, ends) = row.split_once(": ")?;
    let (line, name) = head.split_once(' ')?;
    Some((line.parse::<u32>().ok()?, refusal_of(name)?, ends))
}

/// The line and the refusal of an input, if it is refused.
fn refused(rt: &impl Abort, alloc: Global, text: &str) -> Option<(u32, InputRefusal)> {
    let fault = fault_of(alloc, text.as_bytes()).expect(rt, "memory")?;
    Some((fault.line, fault.refusal))
}

fn check_refused(rt: &impl Abort, alloc: Global, text: &str, line: u32, refusal: InputRefusal) {
    check_same_at(rt, &text, &refused(rt, alloc, text), &Some((line, refusal)));
}

/// Checks that inputs with this beginning are refused for each of the row's ends.
fn check_ends(rt: &impl Abort, alloc: Global, beginning: &str, row: &str) {
    let (line, refusal, ends) = row_of(row).expect(rt, "a row");
    for end in ends.split('|') {
        let text = format!(in alloc; "{beginning}{end}").expect(rt, "memory");
        check_refused(rt, alloc, text.as_str(), line, refusal);
    }
}

fn check_table(rt: &impl Abort, alloc: Global, beginning: &str, table: &[&str]) {
    for row in table {
        check_ends(rt, alloc, beginning, row);
    }
}

const FIRST_LINES: &[&str] = &[
    "1 BadHeader: |lottery|lottery 01|lottery 1 1|lottery 3|lottery 4|quantum 5",
    "2 BadHeader: \n\n",
    "1 BadLine: \t|lottery 1\r",
];

const REFUSED_HEADERS: &[&str] = &[
    "2 BadHeader: lottery 1",
    "3 BadHeader: quantum 5\nquantum x y|seed 1\nquantum 5|schedule 0\nseed 1|quantum 10\nprocessors 2",
    "4 BadHeader: script s\nendscript\nlimits 1 1 1",
    "2 BadLine: quantum|seed 1 2|seed|limits 1 1",
    "3 BadLine: processors 2\nseed 1",
    "2 BadNumber: processors 65|turns 10001|quantum 1001|quantum 0|seed 0|seed 2147483647|limits 65536 1 1\
    |limits 1 4097 1|limits 1 1 0",
];

const REFUSED_BODIES: &[&str] = &[
    "2 BadLine: lstkt 1|mutex M|compute 5|mktkt 1|mktkt 1 base #|schedule|script S|runs 0 1|for 5|at 5|settkt 1 5\
    |settkt 1|settkt x 5|rmthr a|rmthr|kill a|kill",
    "3 BadLine: port a\nport a|script spin\ncompu|script spin\ncompute|script s\nyield 1|script s\nsleep 5\
    |script s\nscript t|script s\nquantum 5|script s\nendscript 1",
    "4 BadLine: script s\nendscript\nscript s",
    "2 TooLong: port Bcdefghijklmnopqr|fundx 1 base a abcdefghijklmnopq|mktkt 1 abcdefghijklmnopq\
    |fund 1 abcdefghijklmnopq|mkthr abcdefghijklmnopq none|mkthr a abcdefghijklmnopq|script abcdefghijklmnopq",
    "2 BadNumber: mktkt 007 base|mktkt 18446744073709551616 base|schedule 007 99",
    "3 BadNumber: script s\ncompute 0|script s\ncompute 4294967296",
    "2 BadActor: schedule 0 2|schedule 99 007",
    "2 OpenScript: script s\ncompute 5\n",
];

/// The call and its reply, up to a line of the server's script.
const CALL: &str = "lottery 1\nquantum 10\nport p\nscript srv\n";

const REFUSED_SCRIPTS: &[&str] = &[
    "4 OpenScript: receive p",
    "5 BadLine: recei|receive|end|port q|serve p|yield yield",
    "5 UnknownName: call q|lock p",
    "5 TooLong: call abcdefghijklmnopq",
    "5 BadNumber: set 4294967296|loop 0|loop 65536",
    "6 BadLine: loop 2\nendscript",
    "13 TooDeep: loop 1\nloop 1\nloop 1\nloop 1\nloop 1\nloop 1\nloop 1\nloop 1\nloop 1",
];

const REFUSED_RUNS: &[&str] = &[
    "2 BadLine: runs 0|runs|settkt 1 5|settkt|settkt 007 5|rmthr a|rmthr abcdefghijklmnopq|kill a\
    |kill abcdefghijklmnopq",
    "2 BadNumber: runs 0 0",
    "2 BadActor: runs 2 1",
    "2 TooLong: runs 0 1000000 0 1",
];

/// Header lines of a timed input.
const REFUSED_DURATIONS: &[&str] = &[
    "2 BadHeader: quantum 5|port p|seed 1\n|at 0|settkt 1 5|rmthr a|kill a",
    "3 BadHeader: for 5\nfor 5|for 5\nlottery 3|quantum 5\nport p|seed 1\nprocessors x",
    "4 BadHeader: turns 5\nfor 5\nturns x y|for 5\nport p\nturns 5|seed 1\nfor 5\nprocessors 1",
    "2 BadNumber: for 0|for 4294967296",
];

/// Lines after the header.
const REFUSED_TIMES: &[&str] = &[
    "3 BadLine: schedule 0|schedule 2|runs 0 1|at|at 1 2|settkt|settkt 1|settkt 1 2 3|settkt 1 2 #|rmthr|rmthr a b\
    |rmthr a #|kill|kill a b|kill a #",
    "3 TooLong: rmthr abcdefghijklmnopq|kill abcdefghijklmnopq",
    "3 BadNumber: at 4294967296|at x|settkt 18446744073709551616 5|settkt 1 18446744073709551616|settkt 007 5\
    |settkt 1 -5|settkt X 5",
    "4 BadNumber: at 7\nat 6",
    "4 UnknownName: script s\nserve p",
];

/// Lines of a script, which may have several words.
const REFUSED_PHRASES: &[&str] = &[
    "5 BadLine: yield compute|compute 5 7|yield end|loop 2 endscript|endscript yield|yield sleep|sleep 5 7",
    "5 BadNumber: yield compute 0 nonsense|sleep 0|sleep 4294967296",
    "5 UnknownName: yield lock yield",
    "5 TooDeep: loop 1 loop 1 loop 1 loop 1 loop 1 loop 1 loop 1 loop 1 loop 1",
];

/// Lines after one that names a ticket `gift`.
const REFUSED_NAMES: &[&str] = &[
    "4 UnknownName: rmtkt gitf|unfund abcdefghijklmnopq|settkt wage 5\nmktkt 5 base as wage|fund a gift",
    "4 BadNumber: unfund Gift|rmtkt 01|settkt gift five|mktkt 05 base as Gift",
    "4 BadLine: mktkt 5 base as gift|fundx 5 base a s as gift|mktkt 5 base as Wage|mktkt 05 base is wage\
    |mktkt 5 base as|fundx 5 base a s as|fundx 5 base a s as wage now",
    "4 TooLong: mktkt 5 base as abcdefghijklmnopq",
];

/// The lines in the other formats.
const NAMES_OF_OTHERS: &[&str] = &[
    "2 BadLine: mktkt 5 base as gift|fundx 5 base a s as gift",
    "3 BadNumber: mkcur gift\nrmtkt gift",
];

const REFUSED_STRICT: &[&str] = &[
    "2 BadLine: lottery 2\nstrict",
    "3 BadLine: lottery 3\nfor 5\nstrict 1",
    "4 BadHeader: lottery 3\nstrict\nfor 5\nstrict|lottery 3\nfor 5\nlstkt\nstrict",
];

/// The beginnings of inputs, and how the program refuses what follows.
const REFUSED: &[(&str, &[&str])] = &[
    ("", FIRST_LINES),
    ("lottery 1\n", REFUSED_HEADERS),
    ("lottery 1\n", REFUSED_BODIES),
    (CALL, REFUSED_SCRIPTS),
    ("lottery 2\n", REFUSED_RUNS),
    ("lottery 3\n", REFUSED_DURATIONS),
    ("lottery 3\nfor 5\n", REFUSED_TIMES),
    ("lottery 3\nfor 5\nmutex m\nscript s\n", REFUSED_PHRASES),
    ("lottery 3\nfor 5\nmktkt 5 base as gift\n", REFUSED_NAMES),
    ("lottery 1\n", NAMES_OF_OTHERS),
    ("lottery 2\n", NAMES_OF_OTHERS),
    ("", REFUSED_STRICT),
];

#[test]
fn refuses_inputs(rt: HostRuntime) {
    for (beginning, table) in REFUSED {
        check_table(&rt, rt.alloc(), beginning, table);
    }
}

/// A first line, and then a line of this many bytes.
fn long_line(rt: &impl Abort, alloc: Global, first: &str, count: usize) -> String {
    let mut text = format!(in alloc; "lottery 1\n{first}").expect(rt, "memory");
    for _ in first.len()..count {
        text.push('x').expect(rt, "memory");
    }
    text
}

/// A script of this many lines.
fn long_script(rt: &impl Abort, alloc: Global, count: u32) -> String {
    let mut text = String::from_str(alloc, "lottery 1\nscript s\n").expect(rt, "memory");
    for _ in 0..count {
        text.push_str("compute 1\n").expect(rt, "memory");
    }
    text.push_str("endscript\n").expect(rt, "memory");
    text
}

/// A script of this many words, with 500 on a line.
fn long_phrases(rt: &impl Abort, alloc: Global, count: u32) -> String {
    let mut text = String::from_str(alloc, "lottery 3\nfor 5\nscript s\n").expect(rt, "memory");
    for number in 1..count.saturating_add(1) {
        let word = if number % 500 == 0 {
            "yield\n"
        } else {
            "yield "
        };
        text.push_str(word).expect(rt, "memory");
    }
    text.push_str("endscript\n").expect(rt, "memory");
    text
}

/// Compares the line and the refusal of a long input, if it is refused, and shows its number of bytes.
fn check_long(rt: &impl Abort, alloc: Global, text: &str, wanted: Option<(u32, InputRefusal)>) {
    check_same_at(rt, &text.len(), &refused(rt, alloc, text), &wanted);
}

fn check_line(
    rt: &impl Abort,
    alloc: Global,
    first: &str,
    count: usize,
    wanted: Option<(u32, InputRefusal)>,
) {
    let text = long_line(rt, alloc, first, count);
    check_long(rt, alloc, text.as_str(), wanted);
}

#[test]
fn meets_limits_of_lines(rt: HostRuntime) {
    let alloc = rt.alloc();
    check_line(&rt, alloc, "#", 4096, None);
    check_line(&rt, alloc, "#", 4097, Some((2, InputRefusal::TooLong)));
    check_line(&rt, alloc, "x", 4096, Some((2, InputRefusal::BadLine)));
    check_line(&rt, alloc, "x", 4097, Some((2, InputRefusal::TooLong)));
}

fn check_script(rt: &impl Abort, alloc: Global, count: u32, wanted: Option<(u32, InputRefusal)>) {
    let text = long_script(rt, alloc, count);
    check_long(rt, alloc, text.as_str(), wanted);
}

#[test]
fn meets_limits_of_scripts(rt: HostRuntime) {
    check_script(&rt, rt.alloc(), 1024, None);
    check_script(&rt, rt.alloc(), 1025, Some((1027, InputRefusal::TooLong)));
}

fn check_phrases(rt: &impl Abort, alloc: Global, count: u32, wanted: Option<(u32, InputRefusal)>) {
    let text = long_phrases(rt, alloc, count);
    check_long(rt, alloc, text.as_str(), wanted);
}

#[test]
fn meets_limits_of_phrases(rt: HostRuntime) {
    check_phrases(&rt, rt.alloc(), 1024, None);
    check_phrases(&rt, rt.alloc(), 1025, Some((6, InputRefusal::TooLong)));
}

fn check_text(rt: &impl Abort, alloc: Global, fault: ParseFault, text: &str) {
    let shown = format!(in alloc; "{fault}").expect(rt, "memory");
    check_same(rt, &shown.as_str(), &text);
}

#[test]
fn texts_of_faults(rt: HostRuntime) {
    let refused = ParseFault::Input(InputFault {
        line: 3,
        refusal: InputRefusal::BadLine,
    });
    check_text(&rt, rt.alloc(), ParseFault::Memory, "out of memory");
    check_text(&rt, rt.alloc(), refused, "line 3 is refused: BadLine");
}
