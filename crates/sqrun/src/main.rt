//! `sqrun`: replays a capture from standard input, and writes per connection every segment that the serving side sends.
#![tactic(auto)]

use squeue_run::run_process;
use std::process::ExitCode;

fn main(rt: HostRuntime) -> ExitCode {
    run_process(&rt, rt.stderr())
}
