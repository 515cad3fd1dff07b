//! `sqreplay`: says whether a report with marks, which stands before its capture in standard input, is that of histories that fit its setup.
#![tactic(auto)]

use std::process::ExitCode;
use trace_replay::run_process;

fn main(rt: HostRuntime) -> ExitCode {
    run_process(&rt, rt.stderr())
}
