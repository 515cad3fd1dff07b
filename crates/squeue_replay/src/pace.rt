//! Whether the marks of a squeue's rings keep the homes of their feeds, and the mode and the budget of their entries.

ghost use Rattle.std.specs.Prelude.{◌≡◌, ◌≤◌, ◌+◌, ◌-◌, ◌^◌, ℕ, Decides, min, is_some, option_map, true, List, [], ◌∷◌, ◌++◌};
ghost use Rattle.perimeter_core.specs.declared.entries.Feed.{Feed as FeedOf};
ghost use Rattle.perimeter_core.specs.Deeds.{entries, entries_of};
ghost use Rattle.perimeter_core.specs.History.{Element, Setting};
ghost use Rattle.perimeter_core.specs.Legal.{May};
ghost use Rattle.histories.specs.Keeping.{AreHome};
ghost use Rattle.perimeter_core.specs.Kinds.{mark_by};
ghost use Rattle.squeue_replay.specs.Pacing.{HasMet, KeepsAt, PaceStands, count_after, fits_budget, fits_mode};

use crate::marks::ReadMark;
use histories::Mode;
use perimeter_core::{Feed, Kind};
use ring_quotas::Setup;

/// What a mark met: whether somebody had the perimeter, and whether something was queued; how many feeds it says were processed;
/// and whether something is queued after it.
#[derive(Clone, Copy)]
pub struct Met {
    pub taken: bool,
    pub queued: bool,
    pub processed: u64,
    pub left: bool,
}

/// How far the owner is.
#[derive(Clone, Copy)]
pub struct PaceCheck {
    setup: Setup,
    squeue: u32,
    /// How many feeds the owner has processed, where it took the perimeter with feeds.
    processed: Option<u64>,
}

impl PaceCheck {
    /// Before the first mark of a squeue.
    pub fn make(setup: Setup, squeue: u32) -> PaceCheck
        ensures same { (result.setup ≡ setup) × (result.squeue ≡ squeue) }
        ensures stands { (S : Setting) → PaceStands S [] result }
    {
        PaceCheck {
            setup,
            squeue,
            processed: None,
        }
    }

    /// One more legal mark: whether it keeps the homes, the mode and the budget.
    pub fn keeps(&mut self, mark: &ReadMark, met: Met) -> bool
        requires { 1 ≤ self.old.setup.squeues }
        ensures same { (self.new.setup ≡ self.old.setup) × (self.new.squeue ≡ self.old.squeue) }
        ensures keeps { (S : Setting) (past : List Element) (e : Element) → e.mark ≡ mark_by mark.now.p mark.now.kind mark.now.feeds.items → May S past e
            → HasMet S past e met → PaceStands S past self.old
            → PaceStands S (past ++ e ∷ []) self.new × Decides result (KeepsAt self.old.setup self.old.squeue S past e) }
    {
        let setup = self.setup;
        let now = self.with(met.processed);
        self.processed = count_after(mark.kind, now);
        mark.p >= setup.rings || self.fits(mark, met, now)
    }

    /// The count with so many feeds more.
    fn with(&self, more: u64) -> Option<u64>
        ensures { result ≡ option_map (λ n. min (n + more) (2 ^ 64 - 1)) self.now.processed }
    {
        self.processed
            .map(|processed| processed.saturating_add(more))
    }

    /// Whether a ring's mark keeps all of it.
    fn fits(&self, mark: &ReadMark, met: Met, now: Option<u64>) -> bool
        requires { 1 ≤ self.now.setup.squeues }
        ensures { let m = mark_by mark.now.p mark.now.kind mark.now.feeds.items in Decides result (
            AreHome self.now.setup.squeues self.now.setup.spread self.now.squeue (entries_of m)
            × (fits_mode self.now.setup.mode m met.taken met.queued (is_some now) ≡ true)
            × (fits_budget self.now.setup.mode self.now.setup.budget m now met.left ≡ true)) }
    {
        self.are_home(mark)
            && self.keeps_mode(mark, met, now.is_some())
            && self.keeps_budget(mark.kind, now, met.left)
    }

    /// Whether the feeds that the mark enters are at home.
    fn are_home(&self, mark: &ReadMark) -> bool
        requires { 1 ≤ self.now.setup.squeues }
        ensures { Decides result (AreHome self.now.setup.squeues self.now.setup.spread self.now.squeue
            (entries_of (mark_by mark.now.p mark.now.kind mark.now.feeds.items))) }
    {
        let feeds = mark.feeds.as_slice();
        match mark.kind {
            Kind::Fill | Kind::Claim => self.all_home(feeds),
            Kind::Fast => match feeds {
                [feed, ..] => self.is_home(*feed),
                [] => true,
            },
            _ => true,
        }
    }

    fn all_home(&self, feeds: &[Feed]) -> bool
        requires { 1 ≤ self.now.setup.squeues }
        ensures { Decides result (AreHome self.now.setup.squeues self.now.setup.spread self.now.squeue (entries feeds.now)) }
    {
        for feed in feeds {
            if !self.is_home(*feed) {
                return false;
            }
        }
        true
    }

    fn is_home(&self, feed: Feed) -> bool
        requires { 1 ≤ self.now.setup.squeues }
        ensures { Decides result (AreHome self.now.setup.squeues self.now.setup.spread self.now.squeue (entries (feed ∷ []))) }
    {
        self.setup.homes().home(feed.c, feed.n) == self.squeue
    }

    /// Whether a ring's mark keeps the mode; `by_feeds` says whether the owner took the perimeter with feeds.
    #[tactic(auto, using(histories::proofs::Counts::only_feeds))]
    fn keeps_mode(&self, mark: &ReadMark, met: Met, by_feeds: bool) -> bool
        ensures { result ≡ fits_mode self.now.setup.mode (mark_by mark.now.p mark.now.kind mark.now.feeds.items) met.taken met.queued by_feeds }
    {
        let feeds = mark.feeds.as_slice();
        match self.setup.mode {
            Mode::Fill => !matches!(mark.kind, Kind::Fast | Kind::Claim),
            Mode::Process => !matches!(mark.kind, Kind::Fill) || met.taken,
            Mode::NoDrain => match mark.kind {
                Kind::Fill => feeds.len() != 1 || met.taken || met.queued,
                Kind::Claim => false,
                Kind::Take | Kind::Grant { .. } => !by_feeds,
                _ => true,
            },
        }
    }

    /// Whether the owner keeps the budget, by how many feeds it has processed with the mark's, and whether something is queued
    /// after it.
    fn keeps_budget(&self, kind: Kind, now: Option<u64>, left: bool) -> bool
        ensures { (p : ℕ) (fs : List FeedOf) → result ≡ fits_budget self.now.setup.mode self.now.setup.budget (mark_by p kind fs) now left }
    {
        let Some(processed) = now else {
            return true;
        };
        let budget = u64::from(self.setup.budget);
        match kind {
            Kind::Take | Kind::Grant { .. } => processed <= budget,
            Kind::Leave { .. } => {
                processed <= budget
                    && (self.setup.mode != Mode::Process || !left || processed == budget)
            }
            _ => true,
        }
    }
}

/// The owner's count behind a mark, by what it is with the feeds that the mark says were processed.
#[tactic(auto, using(histories::proofs::Counts::only_feeds))]
fn count_after(kind: Kind, now: Option<u64>) -> Option<u64>
    ensures { (p : ℕ) (fs : List FeedOf) → result ≡ count_after (mark_by p kind fs) now }
{
    match kind {
        Kind::Fast | Kind::Claim => Some(0),
        Kind::Fill | Kind::Take | Kind::Ask | Kind::Close => now,
        Kind::ClaimAsk | Kind::Leave { .. } | Kind::Grant { .. } | Kind::Accept | Kind::Work =>
            None,
    }
}
