//! A turn at a squeue's gate, and what it tells.
ghost use Rattle.std.specs.Prelude.{◌≡◌, ℕ, ◌+◌, ◌<◌, true, false, length, slice_index_or, ◌↔◌};
ghost use Rattle.perimeter_core.specs.Perimeter.{is_here, is_closed};
ghost use Rattle.perimeter_core.specs.History.{run};
ghost use Rattle.squeue_state.specs.Naming.{setting_of};
ghost use Rattle.squeue_state.specs.Behind.{FeedsFit};
ghost use Rattle.perimeter_core.specs.Backlog.{queue};

use crate::guarded::Guarded;
use crate::squeue::Squeue;
use perimeter_core::{Known, Own, Resident};
use std::marker::Model;
use turn_gate::Held;

/// A squeue's gate is held, and its state can be read. A turn must be spent by a call of its squeue that ends it.
/// Contracts see its squeue, its pass's number, the history that it found, the pass's own elements in it, and all the
/// pass's steps on the lock word.
pub struct Turn<R: Resident> {
    pub(crate) held: Held<Guarded<R>>,
    pub(crate) of: Known<Squeue<R>>,
}

impl<R: Resident> Model for Turn<R> {
    ghost use Rattle.squeue_state.specs.Naming.{Turned};
    ghost use Rattle.squeue_state.specs.Clauses.{IsTurnOf, turned_of};

    ghost Value = { Turned R };

    ghost view = { λ t. turned_of t.of.value t.held };

    ghost invariant = { λ t. IsTurnOf R.Resident t.of.value t.held };
}

impl<R: Resident> Turn<R> {
    /// The number of the turn's pass, counted from 0. The worker's is the last.
    pub fn number(&self) -> u32
        ensures { result ≡ self.now.number }
    {
        self.held.number()
    }

    /// Who has the perimeter. This and all else that a turn tells stays so until the turn is spent.
    pub fn own(&self) -> Own
        ensures { result ≡ (run (setting_of R.limits self.now.squeue.given) self.now.found).own }
    {
        self.held.get().inner.own
    }

    /// How many entries are queued, feeds and Asks, without those in an owner's hand.
    pub fn chain_len(&self) -> u32
        ensures { result ≡ length (run (setting_of R.limits self.now.squeue.given) self.now.found).chain }
    {
        self.held.get().inner.chain.len() as u32
    }

    /// Whether so many feeds fit behind what is queued and in the owner's hand, with an Ask of each pass.
    pub fn fits(&self, feeds: usize) -> bool
        ensures fits { result ≡ true → FeedsFit (setting_of R.limits self.now.squeue.given) self.now.squeue.given.room self.now.found feeds }
        ensures full { result ≡ false
            → self.now.squeue.given.room < length (queue (run (setting_of R.limits self.now.squeue.given) self.now.found))
            + feeds + length self.now.squeue.given.quotas }
    {
        let inner = &self.held.get().inner;
        let taken = inner.in_hand + inner.chain.len() + (inner.closed.len() - 1);
        let room = inner.chain.capacity();
        taken <= room && feeds <= room - taken
    }

    /// Whether a wake is recorded: something is queued that the worker is to come for.
    pub fn wake(&self) -> bool
        ensures { result ≡ (run (setting_of R.limits self.now.squeue.given) self.now.found).wake }
    {
        self.held.get().inner.wake
    }

    /// Whether rings are to bring chains: from a backlog of 16 queued entries on, until nothing is queued.
    pub fn polling(&self) -> bool
        ensures { result ≡ (run (setting_of R.limits self.now.squeue.given) self.now.found).polling }
    {
        self.held.get().inner.polling
    }

    /// Whether the block of connection `c` is at this squeue. Else it is at another, or on its way.
    pub fn is_here(&self, c: u32) -> bool
        requires { c < length self.now.squeue.given.starts }
        ensures { result ≡ is_here (run (setting_of R.limits self.now.squeue.given) self.now.found) c }
    {
        self.held.get().inner.here[c as usize]
    }

    /// Whether every pass but the worker's is closed.
    pub fn others_closed(&self) -> bool
        ensures { (result ≡ true) ↔ ((p : ℕ) → p < length self.now.squeue.given.quotas
            → is_closed (run (setting_of R.limits self.now.squeue.given) self.now.found) p ≡ true) }
    {
        all_but_last(&self.held.get().inner.closed)
    }
}

// Whether all flags are set but the last.
fn all_but_last(flags: &[bool]) -> bool
    requires { 0 < length flags.now }
    ensures { (result ≡ true) ↔ ((p : ℕ) → p + 1 < length flags.now → slice_index_or flags.now p false ≡ true) }
{
    flags[..flags.len() - 1].iter().all(|closed| *closed)
}
