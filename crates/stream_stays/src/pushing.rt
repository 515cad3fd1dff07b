//! How items come to places: they are pushed, and the feeds of all places are entered as one chain.

ghost use Rattle.std.specs.Prelude.{◌≡◌, ◌+◌, ◌⊎◌, ◌++◌, ◌∷◌, [], Some, true, false, length, MatchResult, OnErr, OnOk};
ghost use Rattle.rtrb.specs.Ring.{known_free};
ghost use Rattle.turn_gate.specs.History.{Begins};
ghost use Rattle.turn_gate.specs.Passes.{number, seen};
ghost use Rattle.placed_parts.specs.Placing.{limits_of, origin_of};
ghost use Rattle.squeue_enter.specs.Entering.{WasFull};
ghost use Rattle.squeue_streams.specs.Taking.{most_feeds};
ghost use Rattle.stream_stays.specs.declared.stay.Stay.{Stay};
ghost use Rattle.stream_stays.specs.declared.place.Place.TheVariants.{Open};
ghost use Rattle.stream_stays.specs.Staying.{SameStay, entered_of, producer_of, pushed_of, sent_of};
ghost use Rattle.stream_stays.specs.Settling.{sent_in};
ghost use Rattle.stream_stays.specs.Places.{HasNoRoom, IsOpen, Knows, SameElsewhere, chain_of, life_of, place_at, places_of, touched_of};

use crate::place::{Place, Stays};
use crate::stay::Stay;
use perimeter_core::{Feed, NoHook};
use placed_parts::Places;
use rtrb::PushError;
use squeue_enter::{Entered, enter_or_full};
use squeue_state::{Pass, Squeue};
use squeue_streams::{SourcePace, Steps, Streams};
use std::alloc::Global;
use std::sync::Wait;

impl<T: Drop> Stay<T> {
    // Pushes an item where there is room for its feed, which somebody else enters. It answers the number of the feed.
    fn hand_on(&mut self, room: bool, item: T) -> Result<u32, T>
        ensures same { SameStay self.old self.new }
        ensures pushed { MatchResult result (λ n. (n ≡ pushed_of self.old) × (pushed_of self.new ≡ n + 1) × (entered_of self.new ≡ n + 1)
            × (sent_of self.new ≡ sent_of self.old ++ item ∷ []))
            (λ x. (x ≡ item) × (pushed_of self.new ≡ pushed_of self.old) × (entered_of self.new ≡ entered_of self.old)
            × (sent_of self.new ≡ sent_of self.old)) }
        ensures room { OnOk result (room ≡ true) }
        ensures full { OnErr result ((room ≡ false) ⊎ (known_free (producer_of self.new) ≡ 0) ⊎ (pushed_of self.new ≡ most_feeds)) }
    {
        if !room {
            return Err(item);
        }
        let number = self.pushed;
        if number == u32::MAX {
            return Err(item);
        }
        match self.producer.push(item) {
            Ok(()) => {
                self.pushed = number + 1;
                self.entered = number + 1;
                Ok(number)
            }
            Err(PushError::Full(back)) => Err(back),
        }
    }
}

/// Pushes an item at a place, and enters nothing: its feed comes last in the chain. The item comes back where the place's ring is full,
/// or where the stay has had as many as it can, or as many feeds wait as are entered at once, or as many items were pushed as may be
/// until the places are settled, or the pass's life has no feed left.
pub fn push_at<X: Steps + Drop, H: Wait + Drop>(
    sq: &Squeue<Places<Streams<X, H>>>,
    pass: &Pass,
    stays: &mut Stays<X::Item, X::State>,
    c: u32,
    item: X::Item,
) -> Result<(), X::Item>
    requires knows { Knows X.begins X.step limits_of sq.now (origin_of sq.now.given.first) pass.now stays.old }
    requires open { IsOpen stays.old c }
    ensures knows { Knows X.begins X.step limits_of sq.now (origin_of sq.now.given.first) pass.now stays.new }
    ensures elsewhere { SameElsewhere c stays.old stays.new }
    ensures same { (stay : Stay X.Item) × (next : Stay X.Item) × (place_at stays.old c ≡ Some (Open stay))
        × (place_at stays.new c ≡ Some (Open next)) × SameStay stay next
        × MatchResult result (λ _. (sent_of next ≡ sent_of stay ++ item ∷ []) × (pushed_of next ≡ pushed_of stay + 1))
        (λ x. (x ≡ item) × (sent_of next ≡ sent_of stay) × (pushed_of next ≡ pushed_of stay))
        × OnErr result (HasNoRoom stays.new ⊎ (known_free (producer_of next) ≡ 0) ⊎ (pushed_of next ≡ most_feeds)) }
    ensures sent { MatchResult result (λ _. sent_in (place_at stays.new c) ≡ sent_in (place_at stays.old c) ++ item ∷ [])
        (λ _. sent_in (place_at stays.new c) ≡ sent_in (place_at stays.old c)) }
    ensures touched { MatchResult result (λ _. touched_of stays.new ≡ touched_of stays.old ++ c ∷ []) (λ _. touched_of stays.new ≡ touched_of stays.old) }
    ensures waiting { MatchResult result (λ _. length (chain_of stays.new) ≡ length (chain_of stays.old) + 1) (λ _. chain_of stays.new ≡ chain_of stays.old) }
    ensures life { (life_of stays.new).asks ≡ (life_of stays.old).asks }
{
    let room = stays.has_room();
    let mut stay = stays.take_open(c as usize);
    let handed = stay.hand_on(room, item);
    let _ = stays.put(c as usize, Place::Open(stay));
    match handed {
        Ok(n) => {
            stays.add(Feed { c, n });
            Ok(())
        }
        Err(back) => Err(back),
    }
}

/// Enters the feeds of all items that are pushed, as one chain, in one turn. It answers whether they are entered; else the turn found
/// the squeue too full for them, and they wait.
pub fn enter_all<X: Steps + Drop, H: Wait + Drop, W: Wait>(
    sq: &Squeue<Places<Streams<X, H>>>,
    rt: &W,
    alloc: Global,
    pass: Pass,
    stays: &mut Stays<X::Item, X::State>,
    pace: SourcePace,
) -> (Pass, bool)
    requires knows { Knows X.begins X.step limits_of sq.now (origin_of sq.now.given.first) pass stays.old }
    ensures knows { Knows X.begins X.step limits_of sq.now (origin_of sq.now.given.first) result.0 stays.new }
    ensures number { number result.0 ≡ number pass }
    ensures grows { Begins (seen pass) (seen result.0) }
    ensures places { places_of stays.new ≡ places_of stays.old }
    ensures touched { touched_of stays.new ≡ touched_of stays.old }
    ensures life { life_of stays.new ≡ life_of stays.old }
    ensures all { result.1 ≡ true → chain_of stays.new ≡ [] }
    ensures full { result.1 ≡ false → (chain_of stays.new ≡ chain_of stays.old) × WasFull limits_of sq.now (length (chain_of stays.old)) pass result.0 }
{
    if stays.chain.is_empty() {
        return (pass, true);
    }
    match enter_or_full(
        sq,
        rt,
        alloc,
        &NoHook,
        pass,
        stays.chain.as_slice(),
        pace.mode,
        pace.budget,
    ) {
        Ok(
            Entered {
                pass: next,
                how: _,
                polling: _,
            },
        ) => {
            stays.chain.clear();
            (next, true)
        }
        Err(back) => (back, false),
    }
}
