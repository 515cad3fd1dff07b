//! The process: its words, and what it ends with.
use crate::serving::{Size, sum_for};
use crate::source::Stint;
use squeue_arrivals::SPAN;
use std::env::Env;
use std::process::ExitCode;
use std::sync::Wait;
use std::sync::atomic::AtomicU32;
use std::thread::Threads;
use std::time::Clock;
use std::{env, io};

const USAGE: &str =
    "usage: endless_counters RINGS ROOM SECONDS [ROUNDS [PAUSE]] (RINGS 1 to 62, ROOM 1 to 1073741824)";

/// Runs the process by its words. Its status is 0 where all was brought, added and told; 2 where the words are no such
/// numbers; 1 for want of memory, and where reading or printing failed.
pub fn run_process<W: Env + AllocGlobal + Print + Eprint + Threads + Wait + Clock + Sync>(
    rt: &W,
) -> ExitCode {
    match run_words(rt) {
        Ok(true) => ExitCode::from(0),
        Ok(false) => {
            let _ = eprintln!(rt; "{USAGE}");
            ExitCode::from(2)
        }
        Err(_) => ExitCode::from(1),
    }
}

// Whether there were such words; then all is run.
fn run_words<W: Env + AllocGlobal + Print + Threads + Wait + Clock + Sync>(
    rt: &W,
) -> io::Result<bool> {
    let mut words = env::args(rt)?.skip(1);
    let rings = number(words.next());
    let room = number(words.next());
    let seconds = number(words.next());
    let rounds = number_or(words.next(), 1);
    let pause = number_or(words.next(), 0);
    let (Some(rings), Some(room), Some(seconds), Some(rounds), Some(pause), None) = (
        rings,
        room,
        seconds,
        rounds,
        pause,
        words.next(),
    ) else {
        return Ok(false);
    };
    if rings < 1 || rings > 62 || room < 1 || room > 1 << 30 {
        return Ok(false);
    }
    let size = Size {
        rings,
        room,
        stint: Stint {
            seconds,
            rounds,
            pause,
        },
        span: SPAN,
    };
    let looked = AtomicU32::new(0);
    let left = sum_for(rt, rt.alloc(), &looked, size)?;
    println!(rt; "rings {rings} room {room} {}", left.end)?;
    Ok(true)
}

fn number(word: Option<String>) -> Option<u32> {
    word?.parse().ok()
}

// The number that the word is, or the default where there is none.
fn number_or(word: Option<String>, default: u32) -> Option<u32> {
    match word {
        Some(word) => number(Some(word)),
        None => Some(default),
    }
}
