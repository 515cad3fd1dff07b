//! A ring: it takes the places of its feeds from its receive ring, and enters the feeds where their connections are at home. It
//! moves a connection before each feed whose home differs from the one before.

ghost use Rattle.std.specs.Prelude.{◌≡◌, ℕ, ◌+◌, ◌<◌, ◌≤◌, true, Option, Some, List, [], ◌∷◌, ◌++◌, length, slice_get, take};
ghost use Rattle.turn_gate.specs.declared.pass.Pass.{Pass};
ghost use Rattle.perimeter_core.specs.declared.entries.Feed.{Feed};
ghost use Rattle.perimeter_core.specs.History.{Element};
ghost use Rattle.squeue_state.specs.Naming.{Named};
ghost use Rattle.histories.specs.declared.mode.Mode.{Mode};
ghost use Rattle.squeue_state.specs.AllRoom.{HasAllRoom};
ghost use Rattle.squeue_enter.specs.Entering.{MayEnter};
ghost use Rattle.synch_enter.specs.Hinting.{conns_of, squeues_of};
ghost use Rattle.conn_migrate.specs.Moving.{MayCome, MayLeave};
ghost use Rattle.squeue_serve.specs.Places.{Became, Holds};
ghost use Rattle.histories.specs.Runs.{home_before, home_of, moves};
ghost use Rattle.squeue_rings.specs.Bringing.{AllBelow, AreAt, AreOneRun, HasBrought, HasMoved, IsFar, IsReady};
ghost use Rattle.squeue_rings.specs.Paced.{ArePaced};

use crate::access::Access;
use crate::places::{put_at, take_at};
use conn_migrate::migrate;
use histories::{Homes, Mode, Pace};
use perimeter_core::{Feed, Hook, Resident};
use poll_ring::{PollEnd, Ring};
use squeue_enter::{Entered, enter};
use squeue_serve::{put_pass, take_pass};
use squeue_state::{Pass, Squeue};
use std::sync::Wait;
use std::thread::yield_now;

/// The most feeds that are taken and entered at once.
const MOST: u32 = 32;

/// After so many empty looks in a row a ring waits for all that is left.
const LOOKS: u32 = 1024;

/// Brings the feeds of the list, in order.
pub fn bring_all<R: Resident, H: Hook, W: Wait>(
    access: &Access<'_, R, H, W>,
    pace: Pace,
    list: &[Feed],
    ring: &Ring,
    end: &mut PollEnd,
    polling: &mut Vec<bool>,
    places: &mut Vec<Option<Pass>>,
)
    requires ring { (end.old.ring ≡ ring.now.ring) × (end.old.popped ≡ 0) × (ring.now.capacity ≡ length list.now) }
    requires run { AreOneRun R.origin pace.homes.squeues access.now.squeues.now }
    requires hints { (conns : ℕ) × AllBelow conns access.now.squeues.now × (conns ≤ conns_of access.now.hints.now)
        × (squeues_of access.now.hints.now ≡ pace.homes.squeues) }
    requires polling { length polling.old.items ≡ pace.homes.squeues }
    requires ready { (r : ℕ) × IsFar R.limits pace.homes.squeues pace.homes.spread r list.now access.now.squeues.now 0 places.old.items }
    ensures brought { (r : ℕ) → IsFar R.limits pace.homes.squeues pace.homes.spread r list.now access.now.squeues.now 0 places.old.items
        → AreAt R.limits pace.homes.squeues pace.homes.spread r access.now.squeues.now list.now list.now places.new.items }
    ensures paced { (r : ℕ) → IsFar R.limits pace.homes.squeues pace.homes.spread r list.now access.now.squeues.now 0 places.old.items
        → ArePaced R.limits pace.homes.squeues pace.homes.spread pace.mode pace.budget r access.now.squeues.now places.old.items
        → ArePaced R.limits pace.homes.squeues pace.homes.spread pace.mode pace.budget r access.now.squeues.now places.new.items }
{
    let mut empty = 0;
    for _ in access.rt.forever() {
        if ring.left(end) == 0 {
            return;
        }
        if empty == LOOKS {
            bring_last(access, pace, list, ring, end, polling, places);
            return;
        }
        let count = bring_next(access, pace, list, ring, end, polling, places);
        if count == 0 {
            empty += 1;
            yield_now();
        } else {
            empty = 0;
        }
    }
    unreachable!()
}

// Takes what the receive ring gives, and brings it; tells how many feeds that were. A ring takes chains where a squeue asked
// for them.
fn bring_next<R: Resident, H: Hook, W: Wait>(
    access: &Access<'_, R, H, W>,
    pace: Pace,
    list: &[Feed],
    ring: &Ring,
    end: &mut PollEnd,
    polling: &mut Vec<bool>,
    places: &mut Vec<Option<Pass>>,
) -> u32
    requires ring { (end.old.ring ≡ ring.now.ring) × (ring.now.capacity ≡ length list.now) }
    requires run { AreOneRun R.origin pace.homes.squeues access.now.squeues.now }
    requires hints { (conns : ℕ) × AllBelow conns access.now.squeues.now × (conns ≤ conns_of access.now.hints.now)
        × (squeues_of access.now.hints.now ≡ pace.homes.squeues) }
    requires polling { length polling.old.items ≡ pace.homes.squeues }
    requires ready { (r : ℕ) × IsFar R.limits pace.homes.squeues pace.homes.spread r list.now access.now.squeues.now end.old.popped places.old.items }
    ensures popped { end.new ≡ record end.old { popped = end.old.popped + result } }
    ensures ready { (r : ℕ) → IsFar R.limits pace.homes.squeues pace.homes.spread r list.now access.now.squeues.now end.old.popped places.old.items
        → IsFar R.limits pace.homes.squeues pace.homes.spread r list.now access.now.squeues.now end.new.popped places.new.items }
    ensures paced { (r : ℕ) → IsFar R.limits pace.homes.squeues pace.homes.spread r list.now access.now.squeues.now end.old.popped places.old.items
        → ArePaced R.limits pace.homes.squeues pace.homes.spread pace.mode pace.budget r access.now.squeues.now places.old.items
        → ArePaced R.limits pace.homes.squeues pace.homes.spread pace.mode pace.budget r access.now.squeues.now places.new.items }
    ensures polling { length polling.new.items ≡ pace.homes.squeues }
{
    let most = if polling.iter().any(|flag| *flag) {
        MOST
    } else {
        1
    };
    let (first, count) = ring.pop_chain(access.rt, end, most);
    let from = first as usize;
    let piece = &list[from..from + count as usize];
    bring_piece(access, pace, piece, polling, places);
    count
}

// Waits for all that is left, and brings it.
fn bring_last<R: Resident, H: Hook, W: Wait>(
    access: &Access<'_, R, H, W>,
    pace: Pace,
    list: &[Feed],
    ring: &Ring,
    end: &mut PollEnd,
    polling: &mut Vec<bool>,
    places: &mut Vec<Option<Pass>>,
)
    requires ring { (end.old.ring ≡ ring.now.ring) × (ring.now.capacity ≡ length list.now) }
    requires run { AreOneRun R.origin pace.homes.squeues access.now.squeues.now }
    requires hints { (conns : ℕ) × AllBelow conns access.now.squeues.now × (conns ≤ conns_of access.now.hints.now)
        × (squeues_of access.now.hints.now ≡ pace.homes.squeues) }
    requires polling { length polling.old.items ≡ pace.homes.squeues }
    requires ready { (r : ℕ) × IsFar R.limits pace.homes.squeues pace.homes.spread r list.now access.now.squeues.now end.old.popped places.old.items }
    ensures ready { (r : ℕ) → IsFar R.limits pace.homes.squeues pace.homes.spread r list.now access.now.squeues.now end.old.popped places.old.items
        → AreAt R.limits pace.homes.squeues pace.homes.spread r access.now.squeues.now list.now list.now places.new.items }
    ensures paced { (r : ℕ) → IsFar R.limits pace.homes.squeues pace.homes.spread r list.now access.now.squeues.now end.old.popped places.old.items
        → ArePaced R.limits pace.homes.squeues pace.homes.spread pace.mode pace.budget r access.now.squeues.now places.old.items
        → ArePaced R.limits pace.homes.squeues pace.homes.spread pace.mode pace.budget r access.now.squeues.now places.new.items }
{
    let (first, count) = ring.cleanup(access.rt, end);
    let from = first as usize;
    let rest = &list[from..from + count as usize];
    bring_rest(access, pace, rest, polling, places);
}

// Brings what is left, at most 32 feeds at once.
fn bring_rest<R: Resident, H: Hook, W: Wait>(
    access: &Access<'_, R, H, W>,
    pace: Pace,
    rest: &[Feed],
    polling: &mut Vec<bool>,
    places: &mut Vec<Option<Pass>>,
)
    requires run { AreOneRun R.origin pace.homes.squeues access.now.squeues.now }
    requires hints { (conns : ℕ) × AllBelow conns access.now.squeues.now × (conns ≤ conns_of access.now.hints.now)
        × (squeues_of access.now.hints.now ≡ pace.homes.squeues) }
    requires polling { length polling.old.items ≡ pace.homes.squeues }
    requires ready { (r : ℕ) × (list : List Feed) × (done : List Feed) × (behind : List Feed)
        × IsReady R.limits pace.homes.squeues pace.homes.spread r list access.now.squeues.now done rest.now behind places.old.items }
    ensures brought { (r : ℕ) (list done behind : List Feed)
        → IsReady R.limits pace.homes.squeues pace.homes.spread r list access.now.squeues.now done rest.now behind places.old.items
        → AreAt R.limits pace.homes.squeues pace.homes.spread r access.now.squeues.now (done ++ rest.now) (done ++ rest.now) places.new.items }
    ensures paced { (r : ℕ) (list done behind : List Feed)
        → IsReady R.limits pace.homes.squeues pace.homes.spread r list access.now.squeues.now done rest.now behind places.old.items
        → ArePaced R.limits pace.homes.squeues pace.homes.spread pace.mode pace.budget r access.now.squeues.now places.old.items
        → ArePaced R.limits pace.homes.squeues pace.homes.spread pace.mode pace.budget r access.now.squeues.now places.new.items }
    ensures polling { length polling.new.items ≡ pace.homes.squeues }
{
    let mut rest = rest;
    while !rest.is_empty() {
        let (piece, behind) = rest.split_at(rest.len().min(MOST as usize));
        bring_piece(access, pace, piece, polling, places);
        rest = behind;
    }
}

/// Brings a piece of the list. It is cut into runs of feeds with one home and no move between them.
pub fn bring_piece<R: Resident, H: Hook, W: Wait>(
    access: &Access<'_, R, H, W>,
    pace: Pace,
    piece: &[Feed],
    polling: &mut Vec<bool>,
    places: &mut Vec<Option<Pass>>,
)
    requires run { AreOneRun R.origin pace.homes.squeues access.now.squeues.now }
    requires hints { (conns : ℕ) × AllBelow conns access.now.squeues.now × (conns ≤ conns_of access.now.hints.now)
        × (squeues_of access.now.hints.now ≡ pace.homes.squeues) }
    requires polling { length polling.old.items ≡ pace.homes.squeues }
    requires ready { (r : ℕ) × (list : List Feed) × (done : List Feed) × (behind : List Feed)
        × IsReady R.limits pace.homes.squeues pace.homes.spread r list access.now.squeues.now done piece.now behind places.old.items }
    ensures brought { (r : ℕ) (list done behind : List Feed)
        → IsReady R.limits pace.homes.squeues pace.homes.spread r list access.now.squeues.now done piece.now behind places.old.items
        → AreAt R.limits pace.homes.squeues pace.homes.spread r access.now.squeues.now (done ++ piece.now) (done ++ piece.now) places.new.items }
    ensures paced { (r : ℕ) (list done behind : List Feed)
        → IsReady R.limits pace.homes.squeues pace.homes.spread r list access.now.squeues.now done piece.now behind places.old.items
        → ArePaced R.limits pace.homes.squeues pace.homes.spread pace.mode pace.budget r access.now.squeues.now places.old.items
        → ArePaced R.limits pace.homes.squeues pace.homes.spread pace.mode pace.budget r access.now.squeues.now places.new.items }
    ensures polling { length polling.new.items ≡ pace.homes.squeues }
{
    let mut rest = piece;
    while !rest.is_empty() {
        let len = bring_run(access, pace, rest, polling, places);
        rest = &rest[len..];
    }
}

// Brings the first run of these feeds, and tells how many there are in it.
fn bring_run<R: Resident, H: Hook, W: Wait>(
    access: &Access<'_, R, H, W>,
    pace: Pace,
    feeds: &[Feed],
    polling: &mut Vec<bool>,
    places: &mut Vec<Option<Pass>>,
) -> usize
    requires some { 0 < length feeds.now }
    requires run { AreOneRun R.origin pace.homes.squeues access.now.squeues.now }
    requires hints { (conns : ℕ) × AllBelow conns access.now.squeues.now × (conns ≤ conns_of access.now.hints.now)
        × (squeues_of access.now.hints.now ≡ pace.homes.squeues) }
    requires polling { length polling.old.items ≡ pace.homes.squeues }
    requires ready { (r : ℕ) × (list : List Feed) × (done : List Feed) × (behind : List Feed)
        × IsReady R.limits pace.homes.squeues pace.homes.spread r list access.now.squeues.now done feeds.now behind places.old.items }
    ensures len { (0 < result) × (result ≤ length feeds.now) }
    ensures brought { (r : ℕ) (list done behind : List Feed)
        → IsReady R.limits pace.homes.squeues pace.homes.spread r list access.now.squeues.now done feeds.now behind places.old.items
        → AreAt R.limits pace.homes.squeues pace.homes.spread r access.now.squeues.now (done ++ take result feeds.now) (done ++ take result feeds.now)
        places.new.items }
    ensures paced { (r : ℕ) (list done behind : List Feed)
        → IsReady R.limits pace.homes.squeues pace.homes.spread r list access.now.squeues.now done feeds.now behind places.old.items
        → ArePaced R.limits pace.homes.squeues pace.homes.spread pace.mode pace.budget r access.now.squeues.now places.old.items
        → ArePaced R.limits pace.homes.squeues pace.homes.spread pace.mode pace.budget r access.now.squeues.now places.new.items }
    ensures polling { length polling.new.items ≡ pace.homes.squeues }
{
    let first = feeds[0];
    reach(access, pace.homes, first, places);
    let home = pace.homes.home(first.c, first.n);
    let tail = &feeds[1..];
    let behind = tail.len() - pace.homes.run(home, tail);
    let len = feeds.len() - behind;
    let squeues = access.squeues;
    let q = home as usize;
    polling[q] = enter_at(access, &squeues[q], pace, &feeds[..len], &mut places[q]);
    len
}

// Moves the feed's connection, where it isn't at home.
fn reach<R: Resident, H: Hook, W: Wait>(
    access: &Access<'_, R, H, W>,
    homes: Homes,
    feed: Feed,
    places: &mut Vec<Option<Pass>>,
)
    requires run { AreOneRun R.origin homes.squeues access.now.squeues.now }
    requires hints { (conns : ℕ) × AllBelow conns access.now.squeues.now × (conns ≤ conns_of access.now.hints.now)
        × (squeues_of access.now.hints.now ≡ homes.squeues) }
    requires ready { (r : ℕ) × (list : List Feed) × (done : List Feed) × (behind : List Feed)
        × IsReady R.limits homes.squeues homes.spread r list access.now.squeues.now done (feed ∷ []) behind places.old.items }
    ensures reached { (r : ℕ) (list done behind : List Feed)
        → IsReady R.limits homes.squeues homes.spread r list access.now.squeues.now done (feed ∷ []) behind places.old.items
        → AreAt R.limits homes.squeues homes.spread r access.now.squeues.now done (done ++ feed ∷ []) places.new.items }
    ensures paced { (r : ℕ) (list done behind : List Feed) (mode : Mode) (budget : ℕ)
        → IsReady R.limits homes.squeues homes.spread r list access.now.squeues.now done (feed ∷ []) behind places.old.items
        → ArePaced R.limits homes.squeues homes.spread mode budget r access.now.squeues.now places.old.items
        → ArePaced R.limits homes.squeues homes.spread mode budget r access.now.squeues.now places.new.items }
{
    if homes.moves(feed) {
        move_home(access, homes, feed, places);
    }
}

// Enters a run at the squeue where it is at home, and tells whether chains are to be brought there.
fn enter_at<R: Resident, H: Hook, W: Wait>(
    access: &Access<'_, R, H, W>,
    squeue: &Squeue<R>,
    pace: Pace,
    run: &[Feed],
    place: &mut Option<Pass>,
) -> bool
    requires some { 0 < length run.now }
    requires may { Holds (λ x. MayEnter R.limits squeue.now x run.now) place.old }
    requires room { HasAllRoom squeue.now.given }
    ensures { Became (λ x y. HasBrought R.limits squeue.now pace.mode pace.budget run.now x y) place.old place.new }
{
    let pass = take_pass(place);
    let entered = enter(
        squeue,
        access.rt,
        access.alloc,
        access.hook,
        pass,
        run,
        pace.mode,
        pace.budget,
    );
    let Entered {
        pass,
        how: _,
        polling,
    } = entered;
    put_pass(place, pass);
    polling
}

// Moves the feed's connection to where it is at home when the feed comes.
fn move_home<R: Resident, H: Hook, W: Wait>(
    access: &Access<'_, R, H, W>,
    homes: Homes,
    feed: Feed,
    places: &mut Vec<Option<Pass>>,
)
    requires run { AreOneRun R.origin homes.squeues access.now.squeues.now }
    requires moves { moves homes.squeues homes.spread feed ≡ true }
    requires hints { (feed.c < conns_of access.now.hints.now) × (squeues_of access.now.hints.now ≡ homes.squeues) }
    requires from { (s : Named R) → slice_get access.now.squeues.now (home_before homes.squeues homes.spread feed) ≡ Some s → (x : Pass Element)
        × (slice_get places.old.items (home_before homes.squeues homes.spread feed) ≡ Some (Some x)) × MayLeave R.limits s feed.c x }
    requires to { (s : Named R) → slice_get access.now.squeues.now (home_of homes.squeues homes.spread feed) ≡ Some s → (x : Pass Element)
        × (slice_get places.old.items (home_of homes.squeues homes.spread feed) ≡ Some (Some x)) × MayCome R.limits s feed.c x }
    ensures { HasMoved R.limits homes.squeues homes.spread feed access.now.squeues.now places.old.items places.new.items }
{
    let squeues = access.squeues;
    let from = homes.home_before(feed) as usize;
    let to = homes.home(feed.c, feed.n) as usize;
    let left = take_at(places, from);
    let come = take_at(places, to);
    let (left, come) = migrate(
        access.rt,
        access.alloc,
        access.hook,
        &squeues[from],
        left,
        &squeues[to],
        come,
        feed.c,
        access.hints,
    );
    put_at(places, from, left);
    put_at(places, to, come);
}
