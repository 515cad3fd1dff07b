//! A run of `sqlive` by several rings as a process: its words, its files, and what it ends with. A run by one thread is that of `live_run`.

ghost use Rattle.std.specs.Prelude.{◌≡◌, ◌/◌, IfOk, Some, length, map};
ghost use Rattle.std.specs.String.{string_bytes};
ghost use Rattle.live_rings.specs.Making.{IsInRange};
ghost use Rattle.live_rings.specs.Program.{are_for_rings, first_fault, setup_by};
ghost use Rattle.live_rings.specs.Words.{AreFew};

use crate::ending::{EndedRing, Ends};
use crate::rings::serve_rings;
use crate::words::{Layout, RingWords, rings_asked};
use live_run::{Fault, pages_named, secret, site_in};
use live_server::Secret;
use shell::{WordFault, exit, words_of};
use sq_base::{StdSink, StdSource};
use std::env::Env;
use std::fs;
use std::fs::OpenOptions;
use std::process::ExitCode;
use std::rt::Files;
use std::sync::Wait;
use std::thread::Threads;

/// Whether the process' words ask for several rings. Where memory is missing for them, they don't.
pub fn asks_for_rings<W: Env + AllocGlobal>(rt: &W) -> bool {
    match words_of(rt) {
        Ok(words) => {
            let (_, words) = pages_named(words.as_slice());
            are_for_rings(words)
        }
        Err(_) => false,
    }
}

/// Runs for the process' words by several rings, from the files that they name to those that they name, and tells a fault to the standard
/// error.
pub fn run_program<W: Env + AllocGlobal + Eprint + Files + Threads + Wait + Sync>(
    rt: &W,
) -> ExitCode
where
    W::File: Send,
{
    match run(rt) {
        Ok(()) => ExitCode::SUCCESS,
        Err(fault) => {
            let line = fault.line();
            let _ = eprintln!(rt; "{line}");
            exit(fault)
        }
    }
}

fn run<W: Env + AllocGlobal + Files + Threads + Wait + Sync>(rt: &W) -> Result<(), Fault>
where
    W::File: Send,
{
    let words = match words_of(rt) {
        Ok(words) => words,
        Err(WordFault::Usage) => return Err(Fault::Words),
        Err(WordFault::NoMemory) => return Err(Fault::NoMemory),
    };
    let (pages, words) = pages_named(words.as_slice());
    let Some((asked, front)) = rings_asked(words) else {
        return Err(Fault::Words);
    };
    let mut setup = setup_of(rt, asked)?;
    setup.setting.site = site_in(rt, pages)?;
    let ends = open_all(rt, &words[front..])?;
    match serve_rings(rt, rt.alloc(), &setup, ends) {
        Ok(ended) => match first_fault(ended.streams.as_slice()) {
            None => Ok(()),
            Some(fault) => Err(fault),
        },
        Err(_) => Err(Fault::NoMemory),
    }
}

/// Whether several rings are asked for.
fn are_for_rings(words: &[String]) -> bool
    ensures { result ≡ are_for_rings (map (λ s. string_bytes s) words.now) }
{
    match words {
        [first, ..] => first.as_str() == "--rings",
        [] => false,
    }
}

/// What went wrong at the first stream, by number, where something did.
fn first_fault<S, K>(ended: &[EndedRing<S, K>]) -> Option<Fault>
    ensures { result ≡ first_fault (map (λ d. d.fault) ended.now) }
{
    for stream in ended {
        if stream.fault.is_some() {
            return stream.fault;
        }
    }
    None
}

/// How the run is set up. Where no secret is given, it is drawn from the system's random source.
fn setup_of<W: Files>(rt: &W, asked: RingWords) -> Result<Layout, Fault>
    requires { AreFew asked }
    ensures range { IfOk result (λ s. IsInRange s) }
    ensures given { (secret : Secret) → asked.secret ≡ Some secret → IfOk result (λ s. s ≡ setup_by asked secret) }
{
    let secret = match asked.secret {
        Some(given) => given,
        None => match secret(rt) {
            Ok(drawn) => drawn,
            Err(_) => return Err(Fault::Reading),
        },
    };
    Ok(setup_by(asked, secret))
}

/// A run that is set up as asked for, with this secret. It goes on where memory is missing, unless its secret was given.
pub fn setup_by(asked: RingWords, secret: Secret) -> Layout
    ensures { result ≡ setup_by asked secret }
{
    let goes_on = asked.secret.is_none();
    Layout {
        squeues: asked.squeues,
        mode: asked.mode,
        budget: asked.budget,
        setting: asked.setting,
        secret,
        goes_on,
    }
}

/// Opens the files: of each two words the first to read, and then the second to write.
fn open_all<W: AllocGlobal + Files>(
    rt: &W,
    names: &[String],
) -> Result<Vec<Ends<StdSource<W::File>, StdSink<W::File>>>, Fault>
    ensures { IfOk result (λ v. length v.items ≡ length names.now / 2) }
{
    let mut all = Vec::new(rt.alloc());
    let mut rest = names;
    'files: while let [input, output, others @ ..] = rest {
        let Ok(reader) = fs::open(rt, input.as_str()) else {
            return Err(Fault::Reading);
        };
        let Ok(writer) = OpenOptions::new()
            .write(true)
            .create(true)
            .truncate(true)
            .open(rt, output.as_str())
        else {
            return Err(Fault::Writing);
        };
        let ends = Ends {
            reader: StdSource::over(reader),
            sink: StdSink::over(writer),
        };
        if all.push(ends).is_err() {
            return Err(Fault::NoMemory);
        }
        rest = others;
    }
    Ok(all)
}
