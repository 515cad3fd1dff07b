//! What the programs have in common: words that are read by a table, lines that say why there is no output, and what a process ends with.
//!
//! `table` has the types of a program's words. `command` makes a `clap` command of them, which takes the words apart; `words` tests what they say, with
//! `numbers` and `parts`, and `asked` is what comes of it. `usage` writes the line that says which words there are. `telling` writes the lines under a program's
//! name, `lines` those of an input that is no capture, and `refusal` has the status of each. `process` alone speaks with the system: the words that it
//! gives, and the exit code. What the words mean to a program is no matter of this crate.
#![tactic(auto)]

mod asked;
mod command;
mod lines;
mod numbers;
mod parts;
mod process;
mod refusal;
mod table;
mod telling;
mod usage;
mod words;

pub use asked::{Asked, Given, NoCall, ReadsCall, Value};
pub use numbers::{number_between, numeral};
pub use parts::split_at;
pub use process::{ProgramEnd, exit, words_of};
pub use refusal::{refuse_capture, refuse_pcapng, refuse_words, told, told_line};
pub use table::{OptionRow, Table, Takes};
pub use telling::{NO_MEMORY, READ_FAULT, TOO_LARGE, WRITE_FAULT, tell};
pub use usage::tell_usage;
pub use words::{WordFault, words_asked};
