//! `sqmore`: replays a capture from standard input to echo and discard over UDP and to a character generator over TCP, and writes per
//! stream every datagram that the serving side sends.
#![tactic(auto)]

use datagram_services::run_process;
use std::process::ExitCode;

fn main(rt: HostRuntime) -> ExitCode {
    run_process(&rt, rt.stderr())
}
