//! Serves echo (RFC 862) and discard (RFC 863) live, over the TCP crates: the process over `live_run`, and by several rings over
//! `live_rings`, which tell the words.
#![tactic(auto)]

use live_rings::{asks_for_rings, run_program};
use live_run::run_process;
use std::process::ExitCode;

fn main(rt: HostRuntime) -> ExitCode {
    if asks_for_rings(&rt) {
        run_program(&rt)
    } else {
        run_process(&rt)
    }
}
