//! Adds up amounts by key on the threads of a pool, and prints the total of each key.
//! Copy `key_counters` and put parts of your own in their place.
#![tactic(auto)]

use key_counters::count;
use squeue::{Mode, Pool};
use std::io;

fn main(rt: HostRuntime) -> io::Result<()> {
    let alloc = rt.alloc();
    let rows = [
        [1, 2, 3].to_vec(alloc)?,
        [10, 20].to_vec(alloc)?,
        Vec::new(alloc),
        [7].to_vec(alloc)?,
    ];
    let pool = Pool::of(2, 2, Mode::Process, 64);
    let totals = count(&rt, alloc, &rows, &pool)?;
    for (key, total) in totals.iter().enumerate() {
        println!(rt; "{key} {total}")?;
    }
    Ok(())
}
