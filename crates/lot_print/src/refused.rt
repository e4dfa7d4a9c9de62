//! The text of refusals.
ghost use Rattle.std.specs.Prelude.{◌≡◌, ◌≤◌, ◌+◌, ◌++◌, codes, false, length};
ghost use Rattle.std.specs.Fmt.{decimal};
ghost use Rattle.lot_simulation.specs.Texts.{newline, refused, refusal_code as code_of, refusal_name as name_of};
ghost use Rattle.lot_simulation.specs.Texts.{trap_refusal_code as trap_code_of, trap_refusal_name as trap_name_of};
ghost use Rattle.lot_simulation.specs.Texts.{input_refusal_code as input_code_of, input_refusal_name as input_name_of};
ghost use Rattle.lot_simulation.specs.Texts.{fault_line};
ghost use Rattle.lot_io.specs.Writing.{Writes};

use crate::line::{Line, RowLine};
use lot_io::{IoFault, Watched};
use lot_machine::{Refusal, TrapRefusal};
use lot_simulation::{InputFault, InputRefusal};
use std::io::Write;

/// Writes the one line of a refused input. Fails with `Write` if the writer fails.
pub fn write_fault<W: Write>(writer: &mut Watched<W>, fault: InputFault) -> Result<(), IoFault>
    requires { writer.old.failed ≡ false }
    ensures { Writes W.contents writer.old writer.new result (fault_line fault) }
{
    let mut line = RowLine::new();
    line.push_field("refused line ", fault.line);
    push_reason(&mut line, fault.refusal);
    line.write_to(writer)
}

/// Appends the reason why an input is refused, and the line's end.
fn push_reason(line: &mut RowLine, refusal: InputRefusal)
    requires { length line.old ≤ 46 }
    ensures { line.new ≡ line.old ++ (codes " "
        ++ (decimal (input_code_of refusal) ++ (codes " " ++ (input_name_of refusal ++ newline)))) }
{
    push_code(
        line,
        " ",
        input_refusal_code(refusal),
        input_refusal_name(refusal),
    );
    line.push_text("\n");
}

/// Appends a refusal: its code and its name.
pub(crate) fn push_refused<const N: usize>(line: &mut Line<N>, code: u32, name: &str)
    requires { (length line.old + 33 ≤ N) × (length name.now ≤ 14) }
    ensures text { line.new ≡ line.old ++ refused code name.now }
    ensures len { length line.new ≤ length line.old + 33 }
{
    push_code(line, "refused ", code, name);
}

/// Appends a text, and then the code and the name of a refusal.
fn push_code<const N: usize>(line: &mut Line<N>, text: &str, code: u32, name: &str)
    requires { (length line.old + 33 ≤ N) × (length text.now ≤ 8) × (length name.now ≤ 14) }
    ensures text { line.new ≡ line.old ++ (text.now ++ (decimal code ++ (codes " " ++ name.now))) }
    ensures len { length line.new ≤ length line.old + 33 }
{
    line.push_field(text, code);
    line.push_text(" ");
    line.push_text(name);
}

/// The printed code of a refused command or event.
pub(crate) fn refusal_code(refusal: Refusal) -> u32
    ensures { result ≡ code_of refusal }
{
    match refusal {
        Refusal::BadName => 1,
        Refusal::NameTaken => 2,
        Refusal::NoCurrency => 3,
        Refusal::NoTicket => 4,
        Refusal::NoTarget => 5,
        Refusal::BadAmount => 6,
        Refusal::InUse => 7,
        Refusal::Funding => 8,
        Refusal::NotFunding => 9,
        Refusal::Cycle => 10,
        Refusal::BaseFixed => 11,
        Refusal::DeadThread => 12,
        Refusal::Full => 13,
        Refusal::NoScript => 14,
        Refusal::NoThread => 15,
        Refusal::Alive => 16,
        Refusal::BadProcessor => 20,
        Refusal::Busy => 21,
        Refusal::NotRunning => 22,
        Refusal::BadTicks => 23,
        Refusal::NotAsleep => 24,
    }
}

/// The printed name of a refused command or event.
pub(crate) fn refusal_name(refusal: Refusal) -> &'static str
    ensures name { result.now ≡ name_of refusal }
    ensures short { length result.now ≤ 14 }
{
    match refusal {
        Refusal::BadName => "BadName",
        Refusal::NameTaken => "NameTaken",
        Refusal::NoCurrency => "NoCurrency",
        Refusal::NoTicket => "NoTicket",
        Refusal::NoTarget => "NoTarget",
        Refusal::BadAmount => "BadAmount",
        Refusal::InUse => "InUse",
        Refusal::Funding => "Funding",
        Refusal::NotFunding => "NotFunding",
        Refusal::Cycle => "Cycle",
        Refusal::BaseFixed => "BaseFixed",
        Refusal::DeadThread => "DeadThread",
        Refusal::Full => "Full",
        Refusal::NoScript => "NoScript",
        Refusal::NoThread => "NoThread",
        Refusal::Alive => "Alive",
        Refusal::BadProcessor => "BadProcessor",
        Refusal::Busy => "Busy",
        Refusal::NotRunning => "NotRunning",
        Refusal::BadTicks => "BadTicks",
        Refusal::NotAsleep => "NotAsleep",
    }
}

/// The printed code of a refused trap.
pub(crate) fn trap_refusal_code(refusal: TrapRefusal) -> u32
    ensures { result ≡ trap_code_of refusal }
{
    match refusal {
        TrapRefusal::NoPort => 30,
        TrapRefusal::NothingToReply => 32,
        TrapRefusal::NoMutex => 33,
        TrapRefusal::NotOwner => 34,
        TrapRefusal::AlreadyOwner => 35,
        TrapRefusal::LockCycle => 36,
    }
}

/// The printed name of a refused trap.
pub(crate) fn trap_refusal_name(refusal: TrapRefusal) -> &'static str
    ensures name { result.now ≡ trap_name_of refusal }
    ensures short { length result.now ≤ 14 }
{
    match refusal {
        TrapRefusal::NoPort => "NoPort",
        TrapRefusal::NothingToReply => "NothingToReply",
        TrapRefusal::NoMutex => "NoMutex",
        TrapRefusal::NotOwner => "NotOwner",
        TrapRefusal::AlreadyOwner => "AlreadyOwner",
        TrapRefusal::LockCycle => "LockCycle",
    }
}

/// The printed code of a refused input.
pub(crate) fn input_refusal_code(refusal: InputRefusal) -> u32
    ensures { result ≡ input_code_of refusal }
{
    match refusal {
        InputRefusal::BadHeader => 50,
        InputRefusal::BadLine => 51,
        InputRefusal::BadNumber => 52,
        InputRefusal::UnknownName => 53,
        InputRefusal::OpenScript => 54,
        InputRefusal::TooDeep => 55,
        InputRefusal::TooLong => 56,
        InputRefusal::BadActor => 57,
    }
}

/// The printed name of a refused input.
pub(crate) fn input_refusal_name(refusal: InputRefusal) -> &'static str
    ensures name { result.now ≡ input_name_of refusal }
    ensures short { length result.now ≤ 14 }
{
    match refusal {
        InputRefusal::BadHeader => "BadHeader",
        InputRefusal::BadLine => "BadLine",
        InputRefusal::BadNumber => "BadNumber",
        InputRefusal::UnknownName => "UnknownName",
        InputRefusal::OpenScript => "OpenScript",
        InputRefusal::TooDeep => "TooDeep",
        InputRefusal::TooLong => "TooLong",
        InputRefusal::BadActor => "BadActor",
    }
}
