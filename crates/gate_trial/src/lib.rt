//! A diary behind a gate, written by several threads: what the tests of `turn_gate` run on, and the smallest example of its use.
#![tactic(auto)]

mod diary;
mod jobs;
mod lending;
mod unshared;
mod writers;

pub use diary::{Diary, Line};
pub use jobs::Job;
pub use lending::{lend, take_back};
pub use unshared::{Unshared, count_all};
pub use writers::write_all;
