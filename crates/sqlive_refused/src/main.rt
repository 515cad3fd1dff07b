//! The program `sqlive` again, with a stored run that is refused: its last frame is cut, so what was answered stands, and the status
//! is 6.
#![tactic(auto)]

use live_rings::{asks_for_rings, run_program};
use live_run::run_process;
use std::process::ExitCode;

fn main(rt: HostRuntime) -> ExitCode {
    if asks_for_rings(&rt) {
        run_program(&rt)
    } else {
        run_process(&rt)
    }
}
