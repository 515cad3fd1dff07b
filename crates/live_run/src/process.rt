//! A run as a process: its words, its standard ends, and what it ends with.

use crate::fault::Fault;
use crate::frames::serve_frames_of;
use crate::pages::{pages_named, site_in};
use crate::words::{Medium, ServerWords, asked_in};
use crate::{device, drawing};
use live_server::Server;
use shell::{ProgramEnd, WordFault, exit, words_of};
use sq_base::{StdSink, StdSource};
use std::io;
use std::process::ExitCode;

impl ProgramEnd for Fault {
    ghost use Rattle.live_run.specs.Faults.{code_of};

    ghost code = { λ f. code_of f };

    fn exit_code(self) -> u8 {
        self.code()
    }
}

/// Runs for the process' words, from its standard input to its standard output, and tells a fault to the standard error.
pub fn run_process(rt: &HostRuntime) -> ExitCode {
    match run(rt) {
        Ok(()) => ExitCode::SUCCESS,
        Err(fault) => {
            let _ = rt.eprintln(fault.line());
            exit(fault)
        }
    }
}

fn run(rt: &HostRuntime) -> Result<(), Fault> {
    let words = match words_of(rt) {
        Ok(words) => words,
        Err(WordFault::Usage) => return Err(Fault::Words),
        Err(WordFault::NoMemory) => return Err(Fault::NoMemory),
    };
    let (pages, words) = pages_named(words.as_slice());
    let Some(ServerWords { mode, mut setting }) = asked_in(words) else {
        return Err(Fault::Words);
    };
    setting.site = site_in(rt, pages)?;
    match mode {
        Medium::Frames(secret) => {
            let mut source = StdSource::over(rt.reader());
            let mut sink = StdSink::over(io::writer(rt));
            let server = Server::new(rt.alloc(), setting, secret);
            serve_frames_of(rt.alloc(), server, &mut source, &mut sink)
        }
        Medium::Device => {
            let secret = drawing::secret(rt)?;
            let lost = device::serve(rt, Server::new(rt.alloc(), setting, secret))?;
            tell_lost(rt, lost);
            Ok(())
        }
    }
}

/// Tells how many datagrams were lost, where some were.
fn tell_lost(rt: &HostRuntime, lost: u64) {
    if lost > 0 {
        let _ = eprintln!(rt; "{lost} datagrams were not written whole");
    }
}
