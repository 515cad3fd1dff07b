//! An owner, and its step: it processes the feeds at the front of its hand.
ghost use Rattle.std.specs.Prelude.{◌≡◌, ◌+◌, ◌≤◌, ◌⊎◌, length, drop};
ghost use Rattle.perimeter_core.specs.declared.entries.Entry.TheVariants as Entry';
ghost use Rattle.perimeter_core.specs.declared.marks.SynchAct.TheVariants as Done;
ghost use Rattle.perimeter_core.specs.Perimeter.{is_free as free};
ghost use Rattle.squeue_drain.specs.Owning.{Feeds, IsFeedFirst, NoFeedFirst};

use perimeter_core::{Entry, Hook, Own, Resident, SynchAct};
use squeue_state::{Hand, Pass, Squeue};
use std::alloc::Global;

/// The value of the thread that owns a perimeter: its pass, the resident, what is left of the hand, and what it has done
/// as a synchronous owner. It must be spent: by a drain, by a leave, or by a grant to another pass.
pub struct Owner<R> {
    pub pass: Pass,
    pub resident: R,
    pub hand: Hand,
    pub act: SynchAct,
}

impl<R> Owner<R> {
    /// The owner that a turn's call made, which has done nothing yet.
    pub fn of(taken: (Pass, R, Hand)) -> Owner<R>
        ensures { result ≡ record { pass = taken.0; resident = taken.1; hand = taken.2; act = Done.None } }
    {
        let (pass, resident, hand) = taken;
        Owner {
            pass,
            resident,
            hand,
            act: SynchAct::None,
        }
    }
}

/// Processes feeds from the front of the hand: at most `budget`, and no further than the first Ask. It answers how many
/// more the budget allows. Each feed goes first to `hook`, and then to the resident with `alloc`.
pub fn process<R: Resident, H: Hook>(
    sq: &Squeue<R>,
    alloc: Global,
    hook: &H,
    owner: &mut Owner<R>,
    budget: u32,
) -> u32
    requires { Feeds R.Resident sq.now owner.old }
    ensures feeds { Feeds R.Resident sq.now owner.new }
    ensures pass { owner.new.pass ≡ owner.old.pass }
    ensures bound { result ≤ budget }
    ensures count { length owner.new.hand.left + budget ≡ length owner.old.hand.left + result }
    ensures stops { (result ≡ 0) ⊎ NoFeedFirst owner.new.hand.left }
{
    let mut left = budget;
    while left > 0 {
        let Some(Entry::Feed { c, n }) = owner.hand.first() else {
            break;
        };
        process_first(sq, alloc, hook, owner, c, n);
        left -= 1;
    }
    left
}

// Processes the first entry, which is this feed.
pub(crate) fn process_first<R: Resident, H: Hook>(
    sq: &Squeue<R>,
    alloc: Global,
    hook: &H,
    owner: &mut Owner<R>,
    c: u32,
    n: u32,
)
    requires feeds { Feeds R.Resident sq.now owner.old }
    requires first { IsFeedFirst c n owner.old.hand.left }
    ensures feeds { Feeds R.Resident sq.now owner.new }
    ensures pass { owner.new.pass ≡ owner.old.pass }
    ensures left { owner.new.hand.left ≡ drop 1 owner.old.hand.left }
{
    hook.before(sq.number(), c, n);
    owner.resident.feed(alloc, c, n);
    owner.hand.pass_first();
}

/// Whether nobody has the perimeter.
pub fn is_free(own: Own) -> bool
    ensures { result ≡ free own }
{
    match own {
        Own::Free => true,
        Own::Out(_) => false,
        Own::Granted(_) => false,
    }
}
