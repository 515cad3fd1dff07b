//! What the words ask for.
ghost use Rattle.std.specs.Prelude.{◌≡◌, IfSome, true};
ghost use Rattle.arrivals_bench.specs.Asking.{IsInRange};

use std::alloc::AllocGlobal;
use std::env;
use std::env::Env;

const ROOM: u32 = 1_024;

/// So many sources, each of so many items of so many keys, so many squeues, and how many entries may be queued at one.
#[derive(Clone, Copy)]
pub struct BenchWords {
    pub producers: u32,
    pub keys: u32,
    pub items: u32,
    pub squeues: u32,
    pub room: u32,
}

/// What the process' words ask for, where they are words of the usage line.
pub fn asked_of(rt: &(impl Env + AllocGlobal)) -> Option<BenchWords>
    ensures { IfSome result IsInRange }
{
    let mut words = env::args(rt).ok()?.skip(1);
    let asked = BenchWords {
        producers: words.next()?.parse().ok()?,
        keys: words.next()?.parse().ok()?,
        items: words.next()?.parse().ok()?,
        squeues: words.next()?.parse().ok()?,
        room: match words.next() {
            Some(word) => word.parse().ok()?,
            None => ROOM,
        },
    };
    if words.next().is_some() || !is_in_range(&asked) {
        return None;
    }
    Some(asked)
}

fn is_in_range(asked: &BenchWords) -> bool
    ensures { result ≡ true → IsInRange asked.now }
{
    let least = asked
        .producers
        .min(asked.keys)
        .min(asked.squeues)
        .min(asked.room);
    least >= 1 && asked.producers <= 63 && asked.room <= 1 << 30
}
