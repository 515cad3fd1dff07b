//! The marks by which an owner says what it has processed.

ghost use Rattle.std.specs.Prelude.{◌≡◌, ◌^◌, ◌<◌, ◌≤◌};
ghost use Rattle.ring_quotas.specs.Limits.{most_squeues};
ghost use Rattle.squeue_replay.specs.Histories.{stay_of};

use super::ReplayedSqueue;
use conn_blocks::CALLERS;
use perimeter_core::{Act, Entry, Own, SynchAct};
use ring_quotas::{Setup, leaving};
use std::alloc::AllocError;
use std::mem;

/// What a mark says was processed: how many feeds, and whether an Ask behind them.
#[derive(Clone, Copy)]
struct Done {
    feeds: u64,
    ask: bool,
}

impl<'p, 'c> ReplayedSqueue<'p, 'c> {
    ghost use Rattle.std.specs.Prelude.{◌-◌, ◌*◌, ◌≢◌, ◌↔◌, true, false, List, [], ◌∷◌, ◌++◌, IfOk, IsTrue, MatchOption, OnOk, length, slice_index, take};
    ghost use Rattle.perimeter_core.specs.declared.entries.Act.{Act as ActOf};
    ghost use Rattle.perimeter_core.specs.declared.entries.Entry.TheVariants as Queued;
    ghost use Rattle.perimeter_core.specs.declared.marks.Mark.TheVariants as On;
    ghost use Rattle.perimeter_core.specs.declared.marks.SynchAct.TheVariants as Did;
    ghost use Rattle.perimeter_core.specs.History.{Element};
    ghost use Rattle.perimeter_core.specs.Legal.{NoteFits, only_last_ask};
    ghost use Rattle.squeue_replay.specs.Replaying.{setting_of, squeue_of};
    ghost use Rattle.squeue_replay.specs.Standing.{Stands};
    ghost use Rattle.squeue_replay.specs.Steps.{ActMay, Answered, AreFew, Became, HasGuest, NotesFeeds, Processed, Tells, guest_acted, guest_fed};

    /// The first so many entries of the hand are processed: feeds, and last of all maybe an Ask of this pass. `None` where another
    /// Ask is among them.
    fn process(&mut self, count: usize, asking: u32) -> Result<Option<Done>, AllocError>
        requires { count ≤ length (squeue_of self.old).hand }
        ensures same { (self.new.run ≡ self.old.run) × (self.new.number ≡ self.old.number) }
        ensures processed { IfOk result (λ o. MatchOption o
            (only_last_ask asking (take count (squeue_of self.old).hand) ≡ false)
            (λ done. Processed (take count (squeue_of self.old).hand) asking done.feeds done.ask (squeue_of self.old) (squeue_of self.new))) }
    {
        let mut feeds = 0;
        for i in 0..count {
            match self.hand.pop_front() {
                Some(Entry::Feed { c, n }) => {
                    self.feed(c, n)?;
                    feeds += 1;
                }
                Some(Entry::Ask { p }) if p == asking && i + 1 == count => {
                    self.answer(p);
                    return Ok(Some(Done { feeds, ask: true }));
                }
                _ => return Ok(None),
            }
        }
        Ok(Some(Done { feeds, ask: false }))
    }

    /// The feed is done to its connection.
    fn feed(&mut self, c: u32, n: u32) -> Result<(), AllocError>
        ensures same { (self.new.run ≡ self.old.run) × (self.new.number ≡ self.old.number) }
        ensures others { squeue_of self.new ≡ record (squeue_of self.old) { guests = (squeue_of self.new).guests } }
        ensures fed { OnOk result (Became (λ d. guest_fed d (Queued.Feed c n ∷ [])) (squeue_of self.old).guests (squeue_of self.new).guests) }
    {
        if let Some(guest) = self.guests.get_mut(c as usize) {
            guest.queued = guest.queued.saturating_sub(1);
            guest.does(Act::Feed { n })?;
        }
        Ok(())
    }

    /// The Ask of the pass is queued no more.
    fn answer(&mut self, p: u32)
        ensures same { (self.new.run ≡ self.old.run) × (self.new.number ≡ self.old.number) }
        ensures others { squeue_of self.new ≡ record (squeue_of self.old) { passes = (squeue_of self.new).passes } }
        ensures answered { Answered true p (squeue_of self.old).passes (squeue_of self.new).passes }
    {
        if let Some(pass) = self.passes.get_mut(p as usize) {
            pass.waiting = false;
        }
    }

    /// What is left of the hand stands before the chain, and the hand is empty.
    fn put_back(&mut self) -> Result<(), AllocError>
        ensures same { (self.new.run ≡ self.old.run) × (self.new.number ≡ self.old.number) }
        ensures back { OnOk result (squeue_of self.new
            ≡ record (squeue_of self.old) { chain = (squeue_of self.old).hand ++ (squeue_of self.old).chain; hand = [] }) }
    {
        while let Some(entry) = self.chain.pop_front() {
            self.hand.push_back(entry)?;
        }
        mem::swap(&mut self.hand, &mut self.chain);
        Ok(())
    }

    /// How many entries of the hand a mark that leaves so many says are processed.
    fn processed(&self, rest: u64) -> Option<usize>
        ensures { MatchOption result (length (squeue_of self.now).hand < rest)
            (λ n. (rest ≤ length (squeue_of self.now).hand) × (n ≡ length (squeue_of self.now).hand - rest)) }
    {
        let len = self.hand.len();
        let rest = usize::try_from(rest).ok()?;
        if rest <= len { Some(len - rest) } else { None }
    }

    pub(super) fn take(&mut self, p: u32) -> Result<Option<u64>, AllocError>
        ensures same { (self.new.run ≡ self.old.run) × (self.new.number ≡ self.old.number) }
        ensures tells { IfOk result (λ o. (H : List Element) → Stands (setting_of self.old) H (squeue_of self.old)
            → Tells (setting_of self.old) H (squeue_of self.new) (record { mark = On.Take p; note = [] }) o) }
    {
        if self.own != Own::Out(p) || !self.has_queued() || self.hand.is_empty() {
            return Ok(None);
        }
        let count = self.hand.len();
        let Some(done) = self.process(count, p)? else {
            return Ok(None);
        };
        if done.ask {
            return Ok(None);
        }
        mem::swap(&mut self.hand, &mut self.chain);
        Ok(Some(done.feeds))
    }

    pub(super) fn grant(&mut self, p: u32, j: u32, rest: u64) -> Result<Option<u64>, AllocError>
        ensures same { (self.new.run ≡ self.old.run) × (self.new.number ≡ self.old.number) }
        ensures tells { IfOk result (λ o. (H : List Element) → Stands (setting_of self.old) H (squeue_of self.old)
            → Tells (setting_of self.old) H (squeue_of self.new) (record { mark = On.Grant p j rest; note = [] }) o) }
    {
        if self.own != Own::Out(p) || j == p || j >= self.worker() {
            return Ok(None);
        }
        let Some(count) = self.processed(rest) else {
            return Ok(None);
        };
        let Some(done) = self.process(count, j)? else {
            return Ok(None);
        };
        if !done.ask {
            return Ok(None);
        }
        self.own = Own::Granted(j);
        self.put_back()?;
        Ok(Some(done.feeds))
    }

    pub(super) fn leave(
        &mut self,
        p: u32,
        rest: u64,
        act: SynchAct,
    ) -> Result<Option<u64>, AllocError>
        ensures same { (self.new.run ≡ self.old.run) × (self.new.number ≡ self.old.number) }
        ensures tells { IfOk result (λ o. (H : List Element) (note : List ActOf)
            → Stands (setting_of self.old) H (squeue_of self.old) → NoteFits (On.Leave p rest act) note
            → NotesFeeds self.old.run.setup.squeues self.old.run.setup.spread self.old.number H act note
            → Tells (setting_of self.old) H (squeue_of self.new) (record { mark = On.Leave p rest act; note = note }) o) }
    {
        self.run.plan.is_sound();
        if self.own != Own::Out(p) {
            return Ok(None);
        }
        let Some(count) = self.processed(rest) else {
            return Ok(None);
        };
        let empty = self.hand.is_empty();
        if count == 0 && !empty {
            return Ok(None);
        }
        let Some(done) = self.process(count, p)? else {
            return Ok(None);
        };
        let at_ask = empty || done.ask;
        if !self.fits(p, act, at_ask) {
            return Ok(None);
        }
        self.act(act)?;
        self.own = Own::Free;
        self.put_back()?;
        self.wake = self.has_queued();
        Ok(Some(done.feeds))
    }

    /// Whether the owner may do the act, when what it says is processed was processed; with an act it stands at its Ask.
    fn fits(&self, p: u32, act: SynchAct, at_ask: bool) -> bool
        ensures { IsTrue result ↔ ((act ≢ Did.None → IsTrue at_ask) × ActMay (setting_of self.now) (squeue_of self.now).guests p act) }
    {
        if act != SynchAct::None && !at_ask {
            return false;
        }
        self.may(p, act)
    }

    /// Whether the act is one that this pass may do.
    fn may(&self, p: u32, act: SynchAct) -> bool
        ensures { IsTrue result ↔ ActMay (setting_of self.now) (squeue_of self.now).guests p act }
    {
        match act {
            SynchAct::None => true,
            SynchAct::Call { c, j, k } => self.may_call(p, c, j, k),
            SynchAct::Away => self.run.setup.rings <= p && p < self.worker(),
            SynchAct::Out { c } => self.may_take_out(p, c),
            SynchAct::In { c } => self.may_put_in(p, c),
        }
    }

    /// Whether the pass is application thread `j`, and its call `k` is on this connection, which is here.
    fn may_call(&self, p: u32, c: u32, j: u32, k: u32) -> bool
        ensures { IsTrue result ↔ ActMay (setting_of self.now) (squeue_of self.now).guests p (Did.Call c j k) }
    {
        if j >= CALLERS || p != self.run.setup.rings + j {
            return false;
        }
        if k >= self.run.calls.len(j) || self.run.calls.get(j, k).0 != c {
            return false;
        }
        self.is_here(c)
    }

    /// Whether the pass is the connection's ring, and the connection is here and may leave.
    fn may_take_out(&self, p: u32, c: u32) -> bool
        ensures { IsTrue result ↔ ActMay (setting_of self.now) (squeue_of self.now).guests p (Did.Out c) }
    {
        if p != c % self.run.setup.rings || !self.is_here(c) {
            return false;
        }
        self.may_go(c)
    }

    /// Whether the pass is the connection's ring, and the connection isn't here.
    fn may_put_in(&self, p: u32, c: u32) -> bool
        ensures { IsTrue result ↔ ActMay (setting_of self.now) (squeue_of self.now).guests p (Did.In c) }
    {
        if p != c % self.run.setup.rings || c >= self.run.plan.conns() {
            return false;
        }
        !self.is_here(c)
    }

    /// Whether the connection is one whose block is here.
    fn is_here(&self, c: u32) -> bool
        ensures { IsTrue result ↔ HasGuest (squeue_of self.now).guests c (λ g. g.here ≡ true) }
    {
        match self.guests.get(c as usize) {
            Some(guest) => guest.here,
            None => false,
        }
    }

    /// Whether a connection that is here may leave: it leaves once more by its homes, and no feed of it is queued.
    fn may_go(&self, c: u32) -> bool
        requires { c < length (squeue_of self.now).guests }
        ensures { IsTrue result ↔ HasGuest (squeue_of self.now).guests c (λ g. (g.left < slice_index (setting_of self.now).limits.leaves c) × (g.queued ≡ 0)) }
    {
        let guest = &self.guests[c as usize];
        let homes = self.run.setup.homes();
        let most = leaving(homes, c, self.run.plan.items(c), self.number);
        guest.queued == 0 && guest.left < u64::from(most)
    }

    /// The act is done.
    fn act(&mut self, act: SynchAct) -> Result<(), AllocError>
        ensures same { (self.new.run ≡ self.old.run) × (self.new.number ≡ self.old.number) }
        ensures others { squeue_of self.new ≡ record (squeue_of self.old) { guests = (squeue_of self.new).guests } }
        ensures acted { OnOk result (AreFew (squeue_of self.old).guests
            → Became (λ d g. guest_acted d (stay_of self.old.run.setup.squeues self.old.number d g.came * self.old.run.setup.spread) act g)
            (squeue_of self.old).guests (squeue_of self.new).guests) }
    {
        match act {
            SynchAct::None | SynchAct::Away => Ok(()),
            SynchAct::Call { c, j, k } => self.call(c, j, k),
            SynchAct::Out { c } => {
                self.take_out(c);
                Ok(())
            }
            SynchAct::In { c } => self.put_in(c),
        }
    }

    /// The call is made on its connection.
    fn call(&mut self, c: u32, j: u32, k: u32) -> Result<(), AllocError>
        ensures same { (self.new.run ≡ self.old.run) × (self.new.number ≡ self.old.number) }
        ensures others { squeue_of self.new ≡ record (squeue_of self.old) { guests = (squeue_of self.new).guests } }
        ensures called { OnOk result (Became (λ d. guest_acted d 0 (Did.Call c j k)) (squeue_of self.old).guests (squeue_of self.new).guests) }
    {
        if let Some(guest) = self.guests.get_mut(c as usize) {
            guest.does(Act::Call { j, k })?;
        }
        Ok(())
    }

    /// The connection is taken out.
    fn take_out(&mut self, c: u32)
        ensures same { (self.new.run ≡ self.old.run) × (self.new.number ≡ self.old.number) }
        ensures others { squeue_of self.new ≡ record (squeue_of self.old) { guests = (squeue_of self.new).guests } }
        ensures gone { AreFew (squeue_of self.old).guests → Became (λ d. guest_acted d 0 (Did.Out c)) (squeue_of self.old).guests (squeue_of self.new).guests }
    {
        if let Some(guest) = self.guests.get_mut(c as usize) {
            guest.take_out();
        }
    }

    /// The connection is put in, with the feeds that it has had by its homes.
    fn put_in(&mut self, c: u32) -> Result<(), AllocError>
        ensures same { (self.new.run ≡ self.old.run) × (self.new.number ≡ self.old.number) }
        ensures others { squeue_of self.new ≡ record (squeue_of self.old) { guests = (squeue_of self.new).guests } }
        ensures come { OnOk result (AreFew (squeue_of self.old).guests
            → Became (λ d g. guest_acted d (stay_of self.old.run.setup.squeues self.old.number d g.came * self.old.run.setup.spread) (Did.In c) g)
            (squeue_of self.old).guests (squeue_of self.new).guests) }
    {
        let setup = self.run.setup;
        if let Some(guest) = self.guests.get_mut(c as usize) {
            let stay = stay_of(&setup, self.number, c, guest.came);
            let fed = stay.saturating_mul(u64::from(setup.spread));
            guest.put_in(fed)?;
        }
        Ok(())
    }
}

/// Which stay of connection `c`, of all its stays, its In of this number at the squeue begins. Stay 0 begins with no In.
pub fn stay_of(setup: &Setup, squeue: u32, c: u32, number: u64) -> u64
    requires squeue { (0 < setup.now.squeues) × (setup.now.squeues ≤ most_squeues) × (squeue < setup.now.squeues) }
    ensures { number < 2 ^ 59 → result ≡ stay_of setup.now.squeues squeue c number }
{
    let first = (squeue + setup.squeues - c % setup.squeues) % setup.squeues;
    let round = u64::from(setup.squeues).saturating_mul(number);
    if first == 0 {
        round.saturating_add(u64::from(setup.squeues))
    } else {
        round.saturating_add(u64::from(first))
    }
}
