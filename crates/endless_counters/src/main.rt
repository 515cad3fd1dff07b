//! `endless_counters RINGS ROOM SECONDS [ROUNDS [PAUSE]]`: so many rings bring amounts without end through a squeue with so much room,
//! each for so many seconds and so many rounds of a thousand at least, one where none are given. The first ring rests for PAUSE
//! microseconds after each amount. What is counted so far is told each second, and all of it at the end.
//!
//! What is queued is bounded by the squeue's room, and what a ring has pushed by its place. All of that is taken before the run begins, so it
//! takes as much memory after a year as after a second.
//!
//! `totals` is what is made of amounts, `source` which amounts a ring gives, `watching` what each second tells, `serving` a run from its
//! making to its end, `process` the words of the program.
#![tactic(auto)]

mod process;
mod serving;
mod source;
#[cfg(test)]
mod tests;
mod totals;
mod watching;

use process::run_process;
use std::process::ExitCode;

fn main(rt: HostRuntime) -> ExitCode {
    run_process(&rt)
}
