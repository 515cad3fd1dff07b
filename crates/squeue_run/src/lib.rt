//! What `sqrun` does: it replays a capture, and writes per connection every segment that the serving side sends.
//!
//! `words` has the table of the words of the command line, which `shell` reads; `calls` and `reading` go on with what they ask for. `input` tells the
//! forms of a capture apart, `generator` makes an input from a number, `run` is the top call, `lines` and `refusal` have what is written where
//! there is no report. `process` alone touches the process' own ends.
#![tactic(auto)]

mod calls;
mod generator;
mod input;
mod lines;
mod process;
mod reading;
mod refusal;
mod run;
mod words;

pub use calls::CallWord;
pub use generator::generate;
pub use process::run_process;
pub use reading::{Words, read_words};
pub use run::{Ran, run_with, squeue_run};
pub use shell::WordFault;
