//! Counts words as they arrive, each source by a ring of its own, and prints source, word and count of each. A key is a number: that of a word is
//! its place among all words.
//! Copy `arriving_counters` and put steps of your own in their place; `Piped` and `Channelled` are sources that wait, `Listed` is a list.
#![tactic(auto)]

ghost use Rattle.std.specs.Prelude.{◌≡◌, IfOk, OnOk, Some, true, slice_get};
ghost use Rattle.indexmap.specs.IndexSet.{IsUnique};
ghost use mathlib.Core.List.{IsPrefix};

use arriving_counters::count;
use indexmap::IndexSet;
use squeue_arrivals::{ArrivalPool, Listed, SPAN};
use squeue_enter::Mode;
use std::alloc::{AllocError, Global};
use std::hash::Hash;
use std::io;

fn main(rt: HostRuntime) -> io::Result<()> {
    let alloc = rt.alloc();
    let pool = ArrivalPool {
        squeues: 2,
        places: 100,
        room: 64,
        mode: Mode::Process,
        budget: 64,
        span: SPAN,
    };
    let mut words = IndexSet::new(alloc);
    let first = ones(alloc, &mut words, ["ape", "cat", "ape"])?;
    let second = ones(alloc, &mut words, ["dog", "cat", "dog"])?;
    let sources = vec![in alloc; Listed::of(first), Listed::of(second)]?;
    let arrived = count(&rt, alloc, &pool, sources)?;
    for (number, served) in arrived.sources.iter().enumerate() {
        for part in served.parts.iter() {
            if let Some(word) = words.get_index(part.key as usize) {
                println!(rt; "{number} {word} {}", part.state)?;
            }
        }
    }
    Ok(())
}

// The number 1 for each word, with the word's key.
fn ones(
    alloc: Global,
    words: &mut IndexSet<&'static str>,
    texts: [&'static str; 3],
) -> Result<Vec<(u64, u32)>, AllocError> {
    let mut items = Vec::new(alloc);
    for text in texts {
        items.push((key_of(words, text)?, 1))?;
    }
    Ok(items)
}

/// The key of a word, or of anything else that is hashed: its place among the words, the last where it is new. So no other word has it, and all
/// that have a key keep it.
fn key_of<T: Eq + Hash + Drop>(words: &mut IndexSet<T>, word: T) -> Result<u64, AllocError>
    ensures own { IfOk result (λ key. (w : T) × (slice_get words.new.keys key ≡ Some w) × (T.eq word w ≡ true)) }
    ensures kept { OnOk result (IsPrefix words.old.keys words.new.keys) }
    ensures unique { OnOk result (IsUnique T.eq words.new) }
{
    let (place, _) = words.insert_full(word)?;
    Ok(place as u64)
}
