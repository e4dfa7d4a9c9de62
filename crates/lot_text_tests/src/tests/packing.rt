//! Packed commands, which unpack to the same commands.
use super::name;
use super::same::{check_same, check_same_at};
use lot_kernel_tests::OneOfEach;
use lot_machine::{Command, CurrencyRef, TargetRef, ThreadRef, Verb, command_of};
use lot_program::{CommandList, Commands};
use lot_simulation::BodyWord;
use std::alloc::{AllocError, Global};
use std::process::Abort;

/// Two different names of 16 bytes, the longest.
const LONGEST: [&str; 2] = ["abcdefghijklmnop", "qrstuvwxyz-01234"];

/// The number of cases of arguments.
const CASES: u32 = 4;

/// The arguments of this case. A name has no byte, 1 or 16, and each number is the smallest, the
/// largest or between.
fn arguments(rt: &impl Abort, case: u32) -> OneOfEach {
    match case {
        0 => OneOfEach {
            amount: 0,
            ticket: 1,
            currency: CurrencyRef::Named(name(rt, "b")),
            target: TargetRef::Named(name(rt, LONGEST[0])),
            thread: ThreadRef::Named(name(rt, "u")),
            name: name(rt, ""),
            script: 0,
        },
        1 => OneOfEach {
            amount: 18446744073709551615,
            ticket: 72623859790382856,
            currency: CurrencyRef::Named(name(rt, LONGEST[1])),
            target: TargetRef::Thread(16909060),
            thread: ThreadRef::Named(name(rt, LONGEST[0])),
            name: name(rt, LONGEST[1]),
            script: 4294967295,
        },
        2 => OneOfEach {
            amount: 4294967295,
            ticket: 65536,
            currency: CurrencyRef::Numbered(4294967295),
            target: TargetRef::Currency(0),
            thread: ThreadRef::Numbered(1),
            name: name(rt, "t"),
            script: 256,
        },
        _ => OneOfEach {
            amount: 18446744073709551614,
            ticket: 4294967296,
            currency: CurrencyRef::Numbered(0),
            target: TargetRef::Thread(4294967295),
            thread: ThreadRef::Numbered(4096),
            name: name(rt, LONGEST[0]),
            script: 1,
        },
    }
}

/// The command of this verb, with the arguments of this case.
fn command_in(rt: &impl Abort, verb: Verb, case: u32) -> Command {
    command_of(verb, &mut arguments(rt, case)).expect(rt, "each is given")
}

/// Every command of an input, with the arguments of this case.
fn commands(rt: &impl Abort, alloc: Global, case: u32) -> Vec<Command> {
    let mut commands = Vec::new(alloc);
    for (_, word, _) in BodyWord::table() {
        if let BodyWord::Command(verb) = word {
            commands
                .push(command_in(rt, *verb, case))
                .expect(rt, "memory");
        }
    }
    commands
}

/// Commands on threads, the first of which has no name.
fn on_threads(rt: &impl Abort) -> [Command; 4] {
    [
        command_in(rt, Verb::MakeThread, 0),
        command_in(rt, Verb::RemoveThread, 1),
        command_in(rt, Verb::Kill, 2),
        command_in(rt, Verb::MakeFunded, 3),
    ]
}

/// A list of these commands.
fn listed(alloc: Global, commands: &[Command]) -> Result<CommandList, AllocError> {
    let mut list = CommandList::new(alloc);
    for command in commands {
        list.push(command.copied())?;
    }
    Ok(list)
}

/// Compares the packed commands with these.
fn check_kept(rt: &impl Abort, kept: &Commands, wanted: &[Command]) {
    check_same(rt, &kept.len(), &wanted.len());
    for index in 0..kept.len() {
        let command = wanted.get(index).expect(rt, "there are as many");
        check_same_at(rt, &index, &kept.at(index), command);
    }
}

fn check_packed(rt: &impl Abort, alloc: Global, commands: &[Command]) {
    let list = listed(alloc, commands).expect(rt, "memory");
    let kept = list.into_commands().expect(rt, "memory");
    check_kept(rt, &kept, commands);
}

#[test]
fn keeps_each_command(rt: HostRuntime) {
    for case in 0..CASES {
        let commands = commands(&rt, rt.alloc(), case);
        check_packed(&rt, rt.alloc(), commands.as_slice());
    }
}

/// Adds each command, once more if the first attempt lacks memory.
fn listed_in_the_end(rt: &impl Abort, alloc: Global, commands: &[Command]) -> CommandList {
    let mut list = CommandList::new(alloc);
    for (index, command) in commands.iter().enumerate() {
        if list.push(command.copied()).is_err() {
            check_same(rt, &list.len(), &index);
            list.push(command.copied()).expect(rt, "memory");
        }
    }
    list
}

// For runs in which one allocation fails: a push that lacks memory adds no command, and the next push does.
#[test]
fn keeps_or_lacks_memory(rt: HostRuntime) {
    let commands = on_threads(&rt);
    let list = listed_in_the_end(&rt, rt.alloc(), commands.as_slice());
    if let Ok(kept) = list.into_commands() {
        check_kept(&rt, &kept, commands.as_slice());
    }
}
