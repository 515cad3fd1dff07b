//! What an owner took out of the queue.
ghost use Rattle.std.specs.Prelude.{◌≡◌, ◌<◌, drop, length};
ghost use Rattle.squeue_state.specs.Clauses.{first_entry};

use perimeter_core::{Entry, Feed};
use std::marker::Model;

/// Where the entries of a hand lie.
#[derive(Drop)]
pub(crate) enum Taken {
    /// The one feed of an owner by Fast, until it is processed. It needs no buffer.
    One(Option<Feed>),
    /// A buffer, and how many of its entries are processed.
    Many(Vec<Entry>, usize),
}

/// What an owner has still to process. Contracts see the entries that are left, and the room of the buffer, which an owner by
/// Fast hasn't.
#[derive(Drop)]
pub struct Hand {
    pub(crate) taken: Taken,
}

impl Model for Hand {
    ghost use Rattle.squeue_state.specs.Naming.{Handed};
    ghost use Rattle.squeue_state.specs.Hands.{handed, IsCounted};

    ghost Value = { Handed };

    ghost view = { λ h. handed h.taken };

    ghost invariant = { λ h. IsCounted h.taken };
}

impl Hand {
    /// The first entry that isn't processed yet, which stays where it is; `None` where all are.
    pub fn first(&self) -> Option<Entry>
        ensures { result ≡ first_entry self.now.left }
    {
        match &self.taken {
            Taken::One(None) => None,
            Taken::One(Some(f)) => Some(Entry::Feed { c: f.c, n: f.n }),
            Taken::Many(entries, at) => {
                if *at < entries.len() {
                    Some(entries[*at])
                } else {
                    None
                }
            }
        }
    }

    /// How many entries aren't processed yet, feeds and Asks.
    pub fn len(&self) -> u32
        ensures { result ≡ length self.now.left }
    {
        match &self.taken {
            Taken::One(None) => 0,
            Taken::One(Some(_)) => 1,
            Taken::Many(entries, at) => (entries.len() - *at) as u32,
        }
    }

    /// Passes the first entry, which the caller has processed.
    pub fn pass_first(&mut self)
        requires { 0 < length self.old.left }
        ensures left { self.new.left ≡ drop 1 self.old.left }
        ensures room { self.new.room ≡ self.old.room }
    {
        match &mut self.taken {
            Taken::One(feed) => *feed = None,
            Taken::Many(_, at) => *at += 1,
        }
    }
}
