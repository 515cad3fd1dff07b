//! One squeue, as its marks change it: which mark is legal where it stands, and what it does.
//!
//! This is the perimeter machine over queues in memory. Each mark takes time for the entries that it lists or that it says were
//! processed, and each entry moves from one queue to another at most twice, so a history takes time for its length.

ghost use Rattle.std.specs.Prelude.{◌≡◌, ◌+◌, ◌<◌, All, length};
ghost use Rattle.conn_blocks.specs.Allowed.{all_calls};
ghost use Rattle.conn_blocks.specs.Limits.{callers};
ghost use Rattle.ring_quotas.specs.Quotas.{IsInRange};

mod entering;
mod processing;

use crate::guest::Guest;
use crate::marks::ReadMark;
use conn_blocks::{CALLERS, Calls};
use conn_classifier::Plan;
use histories::Quota;
use perimeter_core::{Entry, Kind, Own};
pub use processing::stay_of;
use ring_quotas::{Setup, quotas_at};
use std::alloc::{AllocError, Global};
use std::collections::VecDeque;

/// A pass but the worker's: whether it is closed, whether an Ask of it is queued, and what it may still enter.
#[derive(Clone, Copy)]
struct Pass {
    closed: bool,
    waiting: bool,
    feeds: u32,
    asks: u64,
}

/// What all squeues of a run have in common.
#[derive(Clone, Copy)]
pub struct RunSetup<'p, 'c> {
    pub plan: &'p Plan<'c>,
    pub calls: &'p Calls,
    pub setup: Setup,
    ghost range: { IsInRange setup },
    ghost named: { All (λ call. call.0 < length plan.now.tuples) (all_calls calls.now) },
}

/// The state of one squeue after the marks so far, which are legal.
///
/// # Example
///
/// ```
/// let mut squeue = ReplayedSqueue::make(rt.alloc(), run, 0)?;
/// for row in HISTORY {
///     assert!(rt; !squeue.has_ended());
///     assert_eq!(rt; add(rt.alloc(), &mut squeue, &row)?, Some(row.3));
/// }
/// assert!(rt; squeue.has_ended());
/// ```
#[derive(Drop)]
pub struct ReplayedSqueue<'p, 'c> {
    run: RunSetup<'p, 'c>,
    number: u32,
    own: Own,
    wake: bool,
    /// What is queued, and what is left of what the owner took.
    chain: VecDeque<Entry>,
    hand: VecDeque<Entry>,
    passes: Vec<Pass>,
    guests: Vec<Guest>,
    ghost among: { number < run.setup.squeues },
    ghost each_pass: { length passes.items ≡ run.setup.rings + callers },
    ghost each_guest: { length guests.items ≡ length run.plan.now.tuples },
}

impl<'p, 'c> ReplayedSqueue<'p, 'c> {
    ghost use Rattle.std.specs.Prelude.{List, [], ◌∷◌, ◌++◌, IfOk, IsTrue, MatchOption, None, Ok, Some, ◌↔◌, ◌≢◌, ◌≤◌, ◌%◌, ◌==◌, false, if◌then◌else◌, map};
    ghost use Rattle.std.specs.List.{range_with_len};
    ghost use Rattle.perimeter_core.specs.declared.marks.Mark.{Mark};
    ghost use Rattle.perimeter_core.specs.declared.marks.Own.TheVariants.{Free};
    ghost use Rattle.perimeter_core.specs.Deeds.{done_by};
    ghost use Rattle.perimeter_core.specs.Ending.{IsOver};
    ghost use Rattle.perimeter_core.specs.History.{Element, run};
    ghost use Rattle.perimeter_core.specs.Legal.{Legal, feed_count};
    ghost use Rattle.squeue_replay.specs.Entering.{first_guest};
    ghost use Rattle.perimeter_core.specs.Kinds.{mark_by};
    ghost use Rattle.squeue_replay.specs.Marks.{HasItsFeeds, IsPrinted};
    ghost use Rattle.squeue_replay.specs.Replaying.{history_of, setting_of, squeue_of};
    ghost use Rattle.squeue_replay.specs.Standing.{Stands, guest_of};

    /// The squeue of this number before its first mark. Fails only for want of memory.
    pub fn make(
        alloc: Global,
        run: RunSetup<'p, 'c>,
        number: u32,
    ) -> Result<ReplayedSqueue<'p, 'c>, AllocError>
        requires { number < run.setup.squeues }
        ensures same { IfOk result (λ s. (s.run ≡ run.entry) × (s.number ≡ number)) }
        ensures stands { IfOk result (λ s. Stands (setting_of s) [] (squeue_of s)) }
    {
        let quotas = quotas_at(alloc, run.plan, run.calls, &run.setup, number)?;
        let passes = ReplayedSqueue::passes_of(alloc, quotas.as_slice())?;
        let guests = ReplayedSqueue::guests_of(alloc, run.plan.conns(), run.setup.squeues, number)?;
        Ok(ReplayedSqueue {
            run,
            number,
            own: Own::Free,
            wake: false,
            chain: VecDeque::new(alloc),
            hand: VecDeque::new(alloc),
            passes,
            guests,
        })
    }

    /// Whether somebody has the perimeter.
    pub fn is_taken(&self) -> bool
        ensures { IsTrue result ↔ ((squeue_of self.now).own ≢ Free) }
    {
        !matches!(self.own, Own::Free)
    }

    /// Whether something is queued.
    pub fn has_queued(&self) -> bool
        ensures { IsTrue result ↔ ((squeue_of self.now).chain ≢ []) }
    {
        !self.chain.is_empty()
    }

    /// Whether it has ended: all passes but the worker's are closed, nobody has it, and nothing is queued.
    pub fn has_ended(&self) -> bool
        ensures { (H : List Element) → Stands (setting_of self.now) H (squeue_of self.now)
            → (IsTrue result ↔ IsOver (setting_of self.now) (run (setting_of self.now) H)) }
    {
        if self.is_taken() || self.has_queued() {
            return false;
        }
        self.all_closed()
    }

    /// Whether all passes but the worker's are closed.
    fn all_closed(&self) -> bool
        ensures { IsTrue result ↔ All (λ p. IsTrue p.closed) self.now.passes.items }
    {
        self.passes.iter().all(|pass| pass.closed)
    }

    /// The connections as it had them.
    pub fn into_guests(self) -> Vec<Guest>
        ensures { map guest_of result.items ≡ (squeue_of self.entry).guests }
    {
        self.guests
    }

    /// The number of the worker's pass, the last one.
    fn worker(&self) -> u32
        ensures { result ≡ self.now.run.setup.rings + callers }
    {
        self.run.setup.rings + CALLERS
    }

    /// One more mark. Gives how many feeds it says were processed, or `None` where it isn't legal, and then the squeue is as it may
    /// be. Fails only for want of memory.
    pub fn add(&mut self, mark: &ReadMark) -> Result<Option<u64>, AllocError>
        ensures same { (self.new.run ≡ self.old.run) × (self.new.number ≡ self.old.number) }
        ensures marked { IfOk result (λ o. (past : List Mark)
            → Stands (setting_of self.old) (history_of self.old past) (squeue_of self.old)
            → IsPrinted (mark_by mark.now.p mark.now.kind mark.now.feeds.items)
            → HasItsFeeds mark.now.kind mark.now.feeds.items
            → MatchOption o
            (Legal (setting_of self.old) (history_of self.old (past ++ mark_by mark.now.p mark.now.kind mark.now.feeds.items ∷ [])) → ⊥)
            (λ n. Stands (setting_of self.old) (history_of self.old (past ++ mark_by mark.now.p mark.now.kind mark.now.feeds.items ∷ [])) (squeue_of self.new)
            × (n ≡ feed_count (done_by (run (setting_of self.old) (history_of self.old past)) (mark_by mark.now.p mark.now.kind mark.now.feeds.items))))) }
    {
        let p = mark.p;
        let feeds = mark.feeds.as_slice();
        match mark.kind {
            Kind::Fill => Self::none_processed(self.fill(p, feeds)?),
            Kind::Fast => Self::none_processed(self.fast(p, feeds)?),
            Kind::Claim => Self::none_processed(self.claim(p, feeds)?),
            Kind::ClaimAsk => Self::none_processed(self.claim_ask(p)?),
            Kind::Take => self.take(p),
            Kind::Leave { rest, act } => self.leave(p, rest, act),
            Kind::Ask => Self::none_processed(self.ask(p)?),
            Kind::Grant { j, rest } => self.grant(p, j, rest),
            Kind::Accept => Self::none_processed(self.accept(p)),
            Kind::Work => Self::none_processed(self.work(p)),
            Kind::Close => Self::none_processed(self.close(p)),
        }
    }

    /// The answer of a mark that says of nothing that it was processed.
    fn none_processed(legal: bool) -> Result<Option<u64>, AllocError>
        ensures { result ≡ Ok (if legal then Some 0 else None) }
    {
        Ok(if legal { Some(0) } else { None })
    }

    /// The passes before the first mark.
    fn passes_of(alloc: Global, quotas: &[Quota]) -> Result<Vec<Pass>, AllocError>
        ensures { IfOk result (λ v. v.items ≡ map (λ q. record { closed = false; waiting = false; feeds = q.feeds; asks = q.asks }) quotas.now) }
    {
        quotas
            .iter()
            .map(|quota| Pass {
                closed: false,
                waiting: false,
                feeds: quota.feeds,
                asks: quota.asks,
            })
            .collect(alloc)
    }

    /// The connections before the first mark.
    fn guests_of(
        alloc: Global,
        conns: u32,
        squeues: u32,
        number: u32,
    ) -> Result<Vec<Guest>, AllocError>
        requires { 1 ≤ squeues }
        ensures { IfOk result (λ v. map guest_of v.items ≡ map (λ c. first_guest (c % squeues == number)) (range_with_len 0 conns)) }
    {
        let mut guests = Vec::new(alloc);
        for c in 0..conns {
            guests.push(Guest::make(alloc, c % squeues == number)?)?;
        }
        Ok(guests)
    }
}
