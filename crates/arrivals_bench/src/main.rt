//! What squeues take for items that arrive. The words are PRODUCERS KEYS ITEMS SQUEUES [ROOM]: each of so many sources makes so many items of
//! so many keys, and so many squeues serve them, each with room for so many entries, or for 1,024. It prints how many items were made, how
//! many keys have a part, source by source, and the sum of all amounts.
//!
//! Words that are none of these, or out of range, end it with 2 and a usage line; want of memory ends it with 3.
#![tactic(auto)]

mod made;
mod serving;
mod words;

use made::MadeItems;
use serving::served;
use squeue_arrivals::ServedSource;
use std::process::ExitCode;
use words::asked_of;

const USAGE: &str = concat!(
    "usage: arrivals_bench PRODUCERS KEYS ITEMS SQUEUES [ROOM], all from 1, ",
    "at most 63 producers and a room of 2^30",
);

fn main(rt: HostRuntime) -> ExitCode {
    let Some(asked) = asked_of(&rt) else {
        let _ = rt.eprintln(USAGE);
        return ExitCode::from(2);
    };
    let Ok(sources) = served(&rt, rt.alloc(), &asked) else {
        let _ = rt.eprintln("out of memory");
        return ExitCode::from(3);
    };
    let (items, keys, total) = sums_of(sources.as_slice());
    match println!(rt; "items {items} keys {keys} total {total}") {
        Ok(()) => ExitCode::SUCCESS,
        Err(_) => ExitCode::FAILURE,
    }
}

// How many items were made, how many keys have a part, and the sum of all totals.
fn sums_of(sources: &[ServedSource<MadeItems, u32, u64>]) -> (u64, u64, u64) {
    let (mut items, mut keys, mut total) = (0u64, 0u64, 0u64);
    for served in sources {
        items = items.wrapping_add(u64::from(served.source.count));
        keys = keys.wrapping_add(served.parts.len() as u64);
        for part in served.parts.iter() {
            total = total.wrapping_add(part.state);
        }
    }
    (items, keys, total)
}
