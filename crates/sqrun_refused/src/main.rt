//! `sqrun` once more, where the gate runs it with words and a call that it must refuse: it prints nothing, and ends with status 8.
#![tactic(auto)]

use squeue_run::run_process;
use std::process::ExitCode;

fn main(rt: HostRuntime) -> ExitCode {
    run_process(&rt, rt.stderr())
}
