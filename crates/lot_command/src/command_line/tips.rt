//! Clearer texts for two faults of a command line.

use crate::command_line::parsing::subcommand_of;
use crate::command_line::subcommands::{SubcommandRow, subcommands};
use clap::error::ErrorKind;
use clap::{Command, Error};
use std::alloc::{AllocError, Global};
use std::convert::AsStr;

/// A clearer error for these words, if there is one: for a file's name in place of a subcommand, and for an option that
/// the subcommand doesn't have. It fails only if out of memory.
pub(crate) fn clearer<'a, S: AsStr>(
    alloc: Global,
    command: &mut Command<'a>,
    words: &'a [S],
    error: Error,
) -> Result<Error, AllocError> {
    match (error.kind(), words) {
        (ErrorKind::InvalidSubcommand, [_, word, ..]) if is_file(word.as_str()) => {
            no_subcommand(alloc, command, word.as_str())
        }
        (ErrorKind::UnknownArgument, [_, name, rest @ ..]) => {
            no_option(alloc, name.as_str(), rest, error)
        }
        _ => Ok(error),
    }
}

/// Whether the word looks like the name of a file.
fn is_file(word: &str) -> bool {
    word.contains('.') || word.contains('/')
}

/// The error for a file's name in place of a subcommand.
fn no_subcommand(
    alloc: Global,
    command: &mut Command<'_>,
    word: &str,
) -> Result<Error, AllocError> {
    let text = format!(in alloc;
        "unrecognized subcommand '{word}'\n\n  tip: 'lot_sim play {word}' plays a file of this name"
    )?;
    command.error(ErrorKind::InvalidSubcommand, text.as_str())
}

/// The error for an option that the subcommand with this name doesn't have, if these words after it have one. It
/// replaces this error, unless this error suggests a similar option.
fn no_option<S: AsStr>(
    alloc: Global,
    name: &str,
    words: &[S],
    error: Error,
) -> Result<Error, AllocError> {
    let Some(row) = subcommand_row(name) else {
        return Ok(error);
    };
    let Some(option) = unknown_option(row, words) else {
        return Ok(error);
    };
    if format!(in alloc; "{error}")?.contains("a similar argument") {
        return Ok(error);
    }
    let text = match owner_of(option) {
        Some(owner) => format!(in alloc;
            "unexpected argument '{option}' found\n\n  tip: '{}' has it: 'lot_sim {} {option}'",
            owner.name, owner.name
        )?,
        None => format!(in alloc; "unexpected argument '{option}' found")?,
    };
    let called = format!(in alloc; "lot_sim {name}")?;
    let mut command = subcommand_of(alloc, row)?.bin_name(called.as_str())?;
    command.error(ErrorKind::UnknownArgument, text.as_str())
}

/// The row of the subcommand with this name, if there is one.
fn subcommand_row(name: &str) -> Option<&'static SubcommandRow> {
    subcommands().iter().find(|row| row.name == name)
}

/// The first option among these words that the subcommand doesn't have, if there is one.
fn unknown_option<'a, S: AsStr>(row: &SubcommandRow, words: &'a [S]) -> Option<&'a str> {
    for word in words {
        let word = word.as_str();
        if word == "--" {
            return None;
        }
        let option = word.split('=').next().unwrap_or("");
        if option.starts_with('-') && option != "-" && !has_option(row, option) {
            return Some(option);
        }
    }
    None
}

/// Whether the subcommand has this option; each has those for help.
fn has_option(row: &SubcommandRow, option: &str) -> bool {
    option == "-h"
        || option == "--help"
        || row
            .options
            .iter()
            .any(|one| option.strip_prefix("--") == Some(one.name))
}

/// A subcommand that has this option, if one has it. It may need another option too.
fn owner_of(option: &str) -> Option<&'static SubcommandRow> {
    subcommands().iter().find(|row| {
        row.options.iter().any(|one| option.strip_prefix("--") == Some(one.name)
            && one.needs.is_none())
    })
}
