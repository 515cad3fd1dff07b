//! The program `sqlive` again, with a stored run by several rings on squeues: what its streams get, tools/tests compare.
#![tactic(auto)]

use live_rings::{asks_for_rings, run_program};
use live_run::run_process;
use std::process::ExitCode;

fn main(rt: HostRuntime) -> ExitCode {
    if asks_for_rings(&rt) {
        run_program(&rt)
    } else {
        run_process(&rt)
    }
}
