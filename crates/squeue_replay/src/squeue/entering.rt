//! The marks that enter something, and those that only take the perimeter or close a pass.

ghost use Rattle.std.specs.Prelude.{◌≡◌, ◌≢◌, ◌<◌, false, ◌↔◌, IfOk, IsTrue, List, [], ◌∷◌, MatchBool, length};
ghost use Rattle.perimeter_core.specs.declared.entries.Feed.{Feed as FeedOf};
ghost use Rattle.perimeter_core.specs.declared.entries.Entry.TheVariants as Entered;
ghost use Rattle.perimeter_core.specs.declared.marks.Mark.TheVariants as On;
ghost use Rattle.perimeter_core.specs.declared.marks.Own.TheVariants as Owned;
ghost use Rattle.perimeter_core.specs.Deeds.{entries};
ghost use Rattle.perimeter_core.specs.History.{Element};
ghost use Rattle.squeue_replay.specs.Entering.{AreSmall, Follows, IsIdle, IsNext, Queues, QueuesAsk, QueuesOne};
ghost use Rattle.squeue_replay.specs.Replaying.{setting_of, squeue_of};
ghost use Rattle.squeue_replay.specs.Standing.{SqueueOf, Stands};

use super::ReplayedSqueue;
use perimeter_core::{Entry, Feed, Own};
use std::alloc::AllocError;
use std::mem;

impl<'p, 'c> ReplayedSqueue<'p, 'c> {
    /// Whether the pass is none of the worker's, isn't closed, isn't owner, isn't granted, and no Ask of it is queued.
    fn is_idle(&self, p: u32) -> bool
        ensures { IsTrue result ↔ IsIdle p (squeue_of self.now) }
    {
        let Some(pass) = self.passes.get(p as usize) else {
            return false;
        };
        if pass.closed || pass.waiting {
            return false;
        }
        self.own != Own::Out(p) && self.own != Own::Granted(p)
    }

    /// Queues feeds of a ring, each the next one of its connection, which is here and the ring's. False where one isn't that, or
    /// the ring has none left.
    fn queue(&mut self, p: u32, feeds: &[Feed]) -> Result<bool, AllocError>
        ensures same { (self.new.run ≡ self.old.run) × (self.new.number ≡ self.old.number) }
        ensures queued { IfOk result (λ b. MatchBool b
            (Queues (setting_of self.old) p feeds.now (squeue_of self.old) (squeue_of self.new))
            ((t : SqueueOf) → Queues (setting_of self.old) p feeds.now (squeue_of self.old) t → ⊥)) }
    {
        for feed in feeds {
            if !self.is_next(p, *feed) {
                return Ok(false);
            }
            self.queue_one(p, *feed)?;
        }
        Ok(true)
    }

    /// Whether the feed is the next one of its connection, which is here and the ring's, and the ring has one left.
    fn is_next(&self, p: u32, feed: Feed) -> bool
        ensures { IsTrue result ↔ IsNext (setting_of self.now) p feed (squeue_of self.now) }
    {
        if feed.c >= self.run.plan.conns() || p != feed.c % self.run.setup.rings {
            return false;
        }
        if self.passes[p as usize].feeds == 0 || feed.n >= self.run.plan.items(feed.c) {
            return false;
        }
        let guest = &self.guests[feed.c as usize];
        guest.here && guest.due == u64::from(feed.n)
    }

    /// Counts and queues such a feed.
    fn queue_one(&mut self, p: u32, feed: Feed) -> Result<(), AllocError>
        requires { IsNext (setting_of self.old) p feed (squeue_of self.old) }
        ensures same { (self.new.run ≡ self.old.run) × (self.new.number ≡ self.old.number) }
        ensures queued { IfOk result (λ u. QueuesOne (setting_of self.old) p feed (squeue_of self.old) (squeue_of self.new)) }
    {
        self.passes[p as usize].feeds -= 1;
        let guest = &mut self.guests[feed.c as usize];
        guest.due += 1;
        guest.queued = guest.queued.saturating_add(1);
        self.chain.push_back(Entry::Feed {
            c: feed.c,
            n: feed.n,
        })?;
        Ok(())
    }

    /// Queues an Ask of the pass. False where it has none left.
    fn queue_ask(&mut self, p: u32) -> Result<bool, AllocError>
        requires { p < length self.old.passes.items }
        ensures same { (self.new.run ≡ self.old.run) × (self.new.number ≡ self.old.number) }
        ensures queued { IfOk result (λ b. MatchBool b
            (QueuesAsk p (squeue_of self.old) (squeue_of self.new))
            ((t : SqueueOf) → QueuesAsk p (squeue_of self.old) t → ⊥)) }
    {
        let pass = &mut self.passes[p as usize];
        if pass.asks == 0 {
            return Ok(false);
        }
        pass.asks -= 1;
        pass.waiting = true;
        self.chain.push_back(Entry::Ask { p })?;
        Ok(true)
    }

    /// The pass has the perimeter, and all that is queued in hand. The hand was empty.
    fn take_all(&mut self, p: u32)
        ensures same { (self.new.run ≡ self.old.run) × (self.new.number ≡ self.old.number) }
        ensures taken { squeue_of self.new
            ≡ record (squeue_of self.old) { own = Owned.Out p; wake = false; chain = (squeue_of self.old).hand; hand = (squeue_of self.old).chain } }
    {
        self.own = Own::Out(p);
        self.wake = false;
        mem::swap(&mut self.hand, &mut self.chain);
    }

    pub(super) fn fill(&mut self, p: u32, feeds: &[Feed]) -> Result<bool, AllocError>
        ensures same { (self.new.run ≡ self.old.run) × (self.new.number ≡ self.old.number) }
        ensures marked { IfOk result (λ b. (H : List Element) → Stands (setting_of self.old) H (squeue_of self.old) → feeds.now ≢ [] → AreSmall feeds.now
            → Follows (setting_of self.old) H (squeue_of self.new) (On.Fill p (entries feeds.now)) b) }
    {
        if !self.is_idle(p) {
            return Ok(false);
        }
        if !self.queue(p, feeds)? {
            return Ok(false);
        }
        if !self.is_taken() {
            self.wake = true;
        }
        Ok(true)
    }

    pub(super) fn fast(&mut self, p: u32, feeds: &[Feed]) -> Result<bool, AllocError>
        ensures same { (self.new.run ≡ self.old.run) × (self.new.number ≡ self.old.number) }
        ensures marked { IfOk result (λ b. (H : List Element) → Stands (setting_of self.old) H (squeue_of self.old) → (f : FeedOf) → feeds.now ≡ f ∷ []
            → AreSmall feeds.now → Follows (setting_of self.old) H (squeue_of self.new) (On.Fast p (Entered.Feed f.c f.n)) b) }
    {
        if self.is_taken() || self.has_queued() || !self.is_idle(p) {
            return Ok(false);
        }
        if !self.queue(p, feeds)? {
            return Ok(false);
        }
        self.take_all(p);
        Ok(true)
    }

    pub(super) fn claim(&mut self, p: u32, feeds: &[Feed]) -> Result<bool, AllocError>
        ensures same { (self.new.run ≡ self.old.run) × (self.new.number ≡ self.old.number) }
        ensures marked { IfOk result (λ b. (H : List Element) → Stands (setting_of self.old) H (squeue_of self.old) → feeds.now ≢ [] → AreSmall feeds.now
            → Follows (setting_of self.old) H (squeue_of self.new) (On.Claim p (entries feeds.now)) b) }
    {
        if self.is_taken() || !self.is_idle(p) {
            return Ok(false);
        }
        if !self.queue(p, feeds)? {
            return Ok(false);
        }
        self.take_all(p);
        Ok(true)
    }

    pub(super) fn claim_ask(&mut self, p: u32) -> Result<bool, AllocError>
        ensures same { (self.new.run ≡ self.old.run) × (self.new.number ≡ self.old.number) }
        ensures marked { IfOk result (λ b. (H : List Element) → Stands (setting_of self.old) H (squeue_of self.old)
            → Follows (setting_of self.old) H (squeue_of self.new) (On.Claim p (Entered.Ask p ∷ [])) b) }
    {
        if self.is_taken() || !self.is_idle(p) {
            return Ok(false);
        }
        if !self.queue_ask(p)? {
            return Ok(false);
        }
        self.take_all(p);
        Ok(true)
    }

    pub(super) fn ask(&mut self, p: u32) -> Result<bool, AllocError>
        ensures same { (self.new.run ≡ self.old.run) × (self.new.number ≡ self.old.number) }
        ensures marked { IfOk result (λ b. (H : List Element) → Stands (setting_of self.old) H (squeue_of self.old)
            → Follows (setting_of self.old) H (squeue_of self.new) (On.Ask p) b) }
    {
        if !self.is_taken() || !self.is_idle(p) {
            return Ok(false);
        }
        self.queue_ask(p)
    }

    pub(super) fn accept(&mut self, p: u32) -> bool
        ensures same { (self.new.run ≡ self.old.run) × (self.new.number ≡ self.old.number) }
        ensures marked { (H : List Element) → Stands (setting_of self.old) H (squeue_of self.old)
            → Follows (setting_of self.old) H (squeue_of self.new) (On.Accept p) result }
    {
        if self.own != Own::Granted(p) {
            return false;
        }
        self.own = Own::Out(p);
        true
    }

    pub(super) fn work(&mut self, p: u32) -> bool
        ensures same { (self.new.run ≡ self.old.run) × (self.new.number ≡ self.old.number) }
        ensures marked { (H : List Element) → Stands (setting_of self.old) H (squeue_of self.old)
            → Follows (setting_of self.old) H (squeue_of self.new) (On.Work p) result }
    {
        if self.is_taken() || !self.wake || p != self.worker() {
            return false;
        }
        self.take_all(p);
        true
    }

    pub(super) fn close(&mut self, p: u32) -> bool
        ensures same { (self.new.run ≡ self.old.run) × (self.new.number ≡ self.old.number) }
        ensures marked { (H : List Element) → Stands (setting_of self.old) H (squeue_of self.old)
            → Follows (setting_of self.old) H (squeue_of self.new) (On.Close p) result }
    {
        if !self.is_idle(p) {
            return false;
        }
        self.passes[p as usize].closed = true;
        true
    }
}
