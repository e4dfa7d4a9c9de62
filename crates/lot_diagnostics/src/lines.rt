//! The lines of an input, read again for diagnostics: their words and names, the scripts and commands that they belong
//! to, and the texts nearest to a misspelt word.
//!
//! The parser keeps none of this, since few inputs need a diagnostic. Contracts say which form a line has in a timed
//! input and in another, how a word changes an open script, which index and time a command has, and that only the same
//! text has distance 0. Otherwise the proofs show only safety and termination; the tests of `lot_system_tests` check
//! the diagnostics.
mod commands;
mod forms;
mod header;
mod keywords;
mod line;
mod list;
mod names;
mod nearest;
mod place;
mod script;

pub use commands::{InputCommand, line_of_command};
pub use forms::{Shape, argument_at, form_in, form_outside, has_room_for, words_at_end};
pub use header::{has_header_line, header_number, is_timed};
pub use keywords::{body_word, header_word, is_read, script_word, spelling_of, text_of};
pub use line::{count_words, ends_line, first_word, word_at, words_of};
pub use list::write_list;
pub use names::{Named, argument_given, is_given, name_given, name_numbered};
pub use nearest::{Nearest, nearest_name};
pub use place::Location;
pub use script::{OpenScript, after_line};
