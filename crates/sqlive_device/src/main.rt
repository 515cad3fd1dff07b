//! The program `sqlive` again, with a stored run on a device: a file gives what it has by one read, which is one datagram. It asks for a
//! port that nobody serves, and what answers that has neither a time nor a secret in it.
#![tactic(auto)]

use live_rings::{asks_for_rings, run_program};
use live_run::run_process;
use std::process::ExitCode;

fn main(rt: HostRuntime) -> ExitCode {
    if asks_for_rings(&rt) {
        run_program(&rt)
    } else {
        run_process(&rt)
    }
}
