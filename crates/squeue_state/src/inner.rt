//! What the gate keeps of a perimeter, and how each mark changes it.
//!
//! Each method makes one mark: where the perimeter stood for a history before, it stands for the history with the mark
//! afterwards. The two buffers are swapped and never grow, since what is queued always fits.
ghost use Rattle.std.specs.Prelude.{◌||◌, not, ◌≡◌, ℕ, ◌+◌, ◌<◌, ◌≤◌, List, [], ◌∷◌, ◌++◌, length, drop, vec_len, vec_capacity, None, Some, IsSome, false};
ghost use Rattle.perimeter_core.specs.declared.entries.Entry.TheVariants as Entry';
ghost use Rattle.perimeter_core.specs.declared.entries.Act.{Act};
ghost use Rattle.perimeter_core.specs.declared.entries.Feed.{Feed as FeedOf};
ghost use Rattle.perimeter_core.specs.declared.marks.Own.TheVariants as Own';
ghost use Rattle.perimeter_core.specs.Perimeter.{polls, is_free, is_empty, processed, here_after};
ghost use Rattle.perimeter_core.specs.History.{Element, run};
ghost use Rattle.perimeter_core.specs.Legal.{May};
ghost use Rattle.perimeter_core.specs.Deeds.{entries};
ghost use Rattle.perimeter_core.specs.Blocks.{peri, with_feeds};
ghost use Rattle.squeue_state.specs.Naming.{Given, setting_of};
ghost use Rattle.squeue_state.specs.Behind.{Behind, IsPeri, ActBelow, FeedsFit, HasEmpty};
ghost use Rattle.squeue_state.specs.Hands.{AreBuffers, GoBack};
ghost use Rattle.squeue_state.specs.Clauses.{IsLeft, owners_room, peri_left};
ghost use Rattle.histories.specs.Elements.{filled_by, fast_by, claimed_by, ask_claimed_by, asked_by, closed_by};
ghost use Rattle.histories.specs.Elements.{taken_by, left_by_pass, granted_by, accepted_by, worked_by};

use crate::hand::{Hand, Taken};
use crate::room::{append, put_back, queue_feeds};
use perimeter_core::{Entry, Feed, Own, Resident, SynchAct, is_polling};
use std::mem;

/// What a gate keeps of a perimeter. Where a pass is out, the resident is with it, and the second buffer too unless the pass
/// came by Fast.
#[derive(Drop)]
pub struct Inner<R> {
    pub(crate) own: Own,
    pub(crate) wake: bool,
    pub(crate) polling: bool,
    pub(crate) chain: Vec<Entry>,
    pub(crate) spare: Option<Vec<Entry>>,
    pub(crate) resident: Option<R>,
    pub(crate) here: Vec<bool>,
    pub(crate) closed: Vec<bool>,
    /// How many entries the owner took from the chain at its last mark, 0 where nobody is owner.
    pub(crate) in_hand: usize,
}

// Whether the worker is to run after entries were queued.
fn wakes(own: Own, wake: bool) -> bool
    ensures { result ≡ (is_free own || wake) }
{
    own == Own::Free || wake
}

// Whether an entry is queued.
fn holds_some(queue: &[Entry]) -> bool
    ensures { result ≡ not (is_empty queue.now) }
{
    !queue.is_empty()
}

// Which blocks are here after the act.
fn set_here(here: &mut [bool], act: SynchAct)
    requires { ActBelow (length here.old) act }
    ensures { here.new ≡ here_after act here.old }
{
    match act {
        SynchAct::Out { c } => here[c as usize] = false,
        SynchAct::In { c } => here[c as usize] = true,
        _ => {}
    }
}

impl<R: Resident> Inner<R> {
    // Sets what each change of the chain sets.
    fn poll(&mut self)
        ensures { self.new ≡ record self.old { polling = polls self.old.chain.items self.old.polling } }
    {
        self.polling = is_polling(self.chain.len(), self.polling);
    }

    // Takes the perimeter and all that is queued.
    fn take_all(&mut self, p: u32) -> (Option<R>, Vec<Entry>)
        requires { IsSome self.old.spare }
        ensures same { (result.0 ≡ self.old.resident) × (result.1 ≡ self.old.chain) }
        ensures taken { self.new ≡ record self.old {
          own = Own'.Out p;
          chain = self.new.chain;
          spare = None;
          wake = false;
          polling = polls self.new.chain.items self.old.polling;
          resident = None;
          in_hand = vec_len self.old.chain;
        } }
        ensures empty { (n : ℕ) → HasEmpty n self.old.spare → (self.new.chain.items ≡ []) × (n ≡ vec_capacity self.new.chain) }
    {
        let spare = match self.spare.take() {
            Some(spare) => spare,
            None => unreachable!(),
        };
        let hand = mem::replace(&mut self.chain, spare);
        self.in_hand = hand.len();
        self.own = Own::Out(p);
        self.wake = false;
        self.poll();
        (self.resident.take(), hand)
    }

    // The buffer of a hand that is used up, or the second one where it has none.
    fn buffer_for(&mut self, hand: Hand) -> Vec<Entry>
        requires { hand.room ≡ None → IsSome self.old.spare }
        ensures same { self.new ≡ record self.old { spare = None } }
        ensures room { (n : ℕ) → AreBuffers n hand.room (vec_capacity self.old.chain) self.old.spare → n ≡ vec_capacity result }
    {
        let spare = self.spare.take();
        match hand.taken {
            Taken::Many(entries, _) => entries,
            Taken::One(_) => match spare {
                Some(spare) => spare,
                None => unreachable!(),
            },
        }
    }

    // Puts the resident back, and what is left of the hand before the chain.
    fn give_back(&mut self, resident: R, hand: Hand)
        requires room { GoBack hand.room (length hand.left) (length self.old.chain.items) }
        requires out { self.old.resident ≡ None }
        ensures same { self.new ≡ record self.old { chain = self.new.chain; spare = self.new.spare; resident = Some resident; in_hand = 0 } }
        ensures queue { self.new.chain.items ≡ hand.left ++ self.old.chain.items }
        ensures buffers { (n : ℕ) → AreBuffers n hand.room (vec_capacity self.old.chain) self.old.spare
            → (n ≡ vec_capacity self.new.chain) × HasEmpty n self.new.spare }
    {
        self.in_hand = 0;
        let old = self.resident.replace(resident);
        let None = old else { unreachable!() };
        if let Taken::Many(entries, at) = hand.taken {
            self.put_before(entries, at);
        }
    }

    // Puts what is left of a buffer before the chain.
    fn put_before(&mut self, entries: Vec<Entry>, at: usize)
        requires at { at ≤ vec_len entries }
        requires room { length (drop at entries.items) + length self.old.chain.items ≤ vec_capacity entries }
        ensures same { self.new ≡ record self.old { chain = self.new.chain; spare = self.new.spare } }
        ensures queue { self.new.chain.items ≡ drop at entries.items ++ self.old.chain.items }
        ensures room { vec_capacity self.new.chain ≡ vec_capacity entries }
        ensures spare { HasEmpty (vec_capacity self.old.chain) self.new.spare }
    {
        let queue = put_back(entries, at, &self.chain);
        self.chain.clear();
        let spare = mem::replace(&mut self.chain, queue);
        self.spare = Some(spare);
    }
}

impl<R: Resident> Inner<R> {
    /// Queues the feeds.
    pub(crate) fn fill(&mut self, es: &[Feed])
        requires room { vec_len self.old.chain + length es.now ≤ vec_capacity self.old.chain }
        ensures behind { (g : Given R) (H : List Element) (p : ℕ) → Behind R.Resident g self.old H → May (setting_of R.limits g) H (filled_by p es.now)
            → FeedsFit (setting_of R.limits g) g.room H (length es.now) → Behind R.Resident g self.new (H ++ filled_by p es.now ∷ []) }
    {
        queue_feeds(&mut self.chain, es);
        self.wake = wakes(self.own, self.wake);
        self.poll();
    }

    /// Takes the perimeter with one feed, where nothing is queued.
    pub(crate) fn fast(&mut self, p: u32) -> Option<R>
        ensures same { result ≡ self.old.resident }
        ensures behind { (g : Given R) (H : List Element) (e : FeedOf) → Behind R.Resident g self.old H → May (setting_of R.limits g) H (fast_by p e)
            → FeedsFit (setting_of R.limits g) g.room H 1 → Behind R.Resident g self.new (H ++ fast_by p e ∷ []) }
    {
        self.in_hand = 1;
        self.own = Own::Out(p);
        self.poll();
        self.resident.take()
    }

    /// Queues the feeds, and takes the perimeter and all that is queued.
    pub(crate) fn claim(&mut self, p: u32, es: &[Feed]) -> (Option<R>, Vec<Entry>)
        requires spare { IsSome self.old.spare }
        requires room { vec_len self.old.chain + length es.now ≤ vec_capacity self.old.chain }
        ensures same { (result.0 ≡ self.old.resident) × (result.1.items ≡ self.old.chain.items ++ entries es.now) }
        ensures room { vec_capacity result.1 ≡ vec_capacity self.old.chain }
        ensures behind { (g : Given R) (H : List Element) → Behind R.Resident g self.old H → May (setting_of R.limits g) H (claimed_by p es.now)
            → FeedsFit (setting_of R.limits g) g.room H (length es.now) → Behind R.Resident g self.new (H ++ claimed_by p es.now ∷ []) }
    {
        queue_feeds(&mut self.chain, es);
        self.take_all(p)
    }

    /// Queues the pass's own Ask, and takes the perimeter and all that is queued.
    pub(crate) fn claim_ask(&mut self, p: u32) -> (Option<R>, Vec<Entry>)
        requires spare { IsSome self.old.spare }
        requires room { vec_len self.old.chain < vec_capacity self.old.chain }
        ensures same { (result.0 ≡ self.old.resident) × (result.1.items ≡ self.old.chain.items ++ Entry'.Ask p ∷ []) }
        ensures room { vec_capacity result.1 ≡ vec_capacity self.old.chain }
        ensures behind { (g : Given R) (H : List Element) → Behind R.Resident g self.old H → May (setting_of R.limits g) H (ask_claimed_by p)
            → Behind R.Resident g self.new (H ++ ask_claimed_by p ∷ []) }
    {
        append(&mut self.chain, &[Entry::Ask { p }]);
        self.take_all(p)
    }

    /// Takes the perimeter and all that is queued, as the worker.
    pub(crate) fn work(&mut self, p: u32) -> (Option<R>, Vec<Entry>)
        requires { IsSome self.old.spare }
        ensures same { (result.0 ≡ self.old.resident) × (result.1 ≡ self.old.chain) }
        ensures behind { (g : Given R) (H : List Element) → Behind R.Resident g self.old H → May (setting_of R.limits g) H (worked_by p)
            → Behind R.Resident g self.new (H ++ worked_by p ∷ []) }
    {
        self.take_all(p)
    }

    /// Queues the wish of the pass to own the perimeter.
    pub(crate) fn ask(&mut self, p: u32)
        requires { vec_len self.old.chain < vec_capacity self.old.chain }
        ensures behind { (g : Given R) (H : List Element) → Behind R.Resident g self.old H → May (setting_of R.limits g) H (asked_by p)
            → Behind R.Resident g self.new (H ++ asked_by p ∷ []) }
    {
        append(&mut self.chain, &[Entry::Ask { p }]);
        self.poll();
    }

    /// Closes the pass.
    pub(crate) fn close(&mut self, p: u32)
        requires { p < vec_len self.old.closed }
        ensures behind { (g : Given R) (H : List Element) → Behind R.Resident g self.old H → May (setting_of R.limits g) H (closed_by p)
            → Behind R.Resident g self.new (H ++ closed_by p ∷ []) }
    {
        self.closed[p as usize] = true;
        self.poll();
    }

    /// Takes the perimeter that was granted.
    pub(crate) fn accept(&mut self, p: u32) -> (Option<R>, Option<Vec<Entry>>)
        ensures same { (result.0 ≡ self.old.resident) × (result.1 ≡ self.old.spare) }
        ensures behind { (g : Given R) (H : List Element) → Behind R.Resident g self.old H → May (setting_of R.limits g) H (accepted_by p)
            → Behind R.Resident g self.new (H ++ accepted_by p ∷ []) }
    {
        self.own = Own::Out(p);
        self.in_hand = 0;
        self.poll();
        (self.resident.take(), self.spare.take())
    }

    /// Takes what is queued, for a hand that is used up.
    pub(crate) fn take(&mut self, hand: Hand) -> Vec<Entry>
        requires { hand.room ≡ None → IsSome self.old.spare }
        ensures same { result ≡ self.old.chain }
        ensures behind { (g : Given R) (H : List Element) (p : ℕ) → Behind R.Resident g self.old H → hand.room ≡ owners_room R.limits g H
            → May (setting_of R.limits g) H (taken_by p) → Behind R.Resident g self.new (H ++ taken_by p ∷ []) }
    {
        let mut buffer = self.buffer_for(hand);
        buffer.clear();
        let hand = mem::replace(&mut self.chain, buffer);
        self.in_hand = hand.len();
        self.poll();
        hand
    }

    /// Gives the perimeter back, with what is left of the hand before the chain.
    pub(crate) fn leave(&mut self, resident: R, hand: Hand, act: SynchAct)
        requires room { GoBack hand.room (length hand.left) (length self.old.chain.items) }
        requires range { ActBelow (vec_len self.old.here) act }
        requires out { self.old.resident ≡ None }
        ensures behind { (g : Given R) (H : List Element) (note : List Act) (p : ℕ) → Behind R.Resident g self.old H → IsLeft R.limits g H hand
            → IsPeri R.Resident g resident (peri_left R.limits g H hand act note)
            → May (setting_of R.limits g) H (left_by_pass p (length hand.left) act note)
            → Behind R.Resident g self.new (H ++ left_by_pass p (length hand.left) act note ∷ []) }
    {
        self.give_back(resident, hand);
        set_here(&mut self.here, act);
        self.wake = holds_some(&self.chain);
        self.own = Own::Free;
        self.poll();
    }

    /// Gives the perimeter to pass `j`, with what is left of the hand before the chain.
    pub(crate) fn grant(&mut self, resident: R, hand: Hand, j: u32)
        requires room { GoBack hand.room (length hand.left) (length self.old.chain.items) }
        requires out { self.old.resident ≡ None }
        ensures behind { (g : Given R) (H : List Element) (p : ℕ) → Behind R.Resident g self.old H → IsLeft R.limits g H hand
            → IsPeri R.Resident g resident (with_feeds (processed (length hand.left) (run (setting_of R.limits g) H).hand) (peri (setting_of R.limits g) H))
            → May (setting_of R.limits g) H (granted_by p j (length hand.left)) → Behind R.Resident g self.new (H ++ granted_by p j (length hand.left) ∷ []) }
    {
        self.give_back(resident, hand);
        self.own = Own::Granted(j);
        self.poll();
    }
}
