//! How many entries squeues take, and how many turns a gate. Without words it makes short fixed runs of both and prints what was
//! counted. With the words THREADS SQUEUES CHAIN ENTRIES MODE [ROOM] it measures entries: so many rings bring so many entries in all
//! to so many squeues, in chains of at most CHAIN, and MODE is a mode's word; each squeue has a worker in a thread of its own, and
//! room for ROOM entries, or for all where ROOM is 0 or left out. With the words `gate` THREADS TURNS ROUNDS it measures turns: that
//! many threads take that many turns each, in which they count one and mix a number for that many rounds. It prints the nanoseconds
//! from before the threads start to after they have ended, or nothing where a number is out of its range or the mode is another word.
#![tactic(auto)]

mod entries;
mod items;
mod runs;
mod tally;
mod threads;
mod turns;

use entries::{Asked, measured_run, short_runs};
use squeue_enter::Mode;
use std::{env, io};
use threads::Way;
use turns::{measured_turns, short_turns};

fn number(word: Option<String>) -> u32 {
    match word {
        Some(word) => word.parse().unwrap_or(0),
        None => 0,
    }
}

// The mode that the word names, or the default where there is none.
fn mode(word: Option<String>) -> Option<Mode> {
    match word.as_deref() {
        Some(text) => Mode::of(text),
        None => Some(Mode::Process),
    }
}

fn main(rt: HostRuntime) -> io::Result<()> {
    let mut words = env::args(&rt)?.skip(1);
    let Some(first) = words.next() else {
        short_turns(&rt)?;
        return short_runs(&rt);
    };
    if first.as_str() == "gate" {
        let threads = number(words.next());
        let turns = number(words.next());
        return measured_turns(&rt, threads, turns, number(words.next()));
    }
    let rings = number(Some(first));
    let squeues = number(words.next());
    let chain = number(words.next()) as usize;
    let entries = number(words.next());
    let Some(mode) = mode(words.next()) else {
        return Ok(());
    };
    let bound = number(words.next());
    let asked = Asked {
        rings,
        squeues,
        entries,
        way: Way { mode, chain, bound },
    };
    measured_run(&rt, asked)
}
