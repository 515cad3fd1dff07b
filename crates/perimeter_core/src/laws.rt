//! The laws of legal histories. Each is a function that does nothing, whose contract is the law.
ghost use Rattle.std.specs.Prelude.{◌⊎◌, ◌≡◌, ◌≢◌, ℕ, ◌+◌, ◌*◌, ◌%◌, ◌<◌, ◌≤◌, true, false, List, [], ◌∷◌, ◌++◌, length, slice_index};
ghost use Rattle.perimeter_core.specs.declared.marks.Own.TheVariants as Own;
ghost use Rattle.perimeter_core.specs.declared.entries.Entry.{Entry};
ghost use Rattle.perimeter_core.specs.declared.entries.Entry.TheVariants as Entry;
ghost use Rattle.perimeter_core.specs.Perimeter.{ends_with_ask, is_empty, is_here};
ghost use Rattle.perimeter_core.specs.History.{Setting, Element, passes, all_quotas, run, pass_of, made_by};
ghost use Rattle.perimeter_core.specs.Deeds.{done_by, due, fed, feeds_of, call_act, reported, times_left, acts};
ghost use Rattle.perimeter_core.specs.Legal.{May, Legal, feeds_by, asks_by};
ghost use Rattle.perimeter_core.specs.Blocks.{peri, PeriGoesOn};
ghost use Rattle.perimeter_core.specs.Backlog.{queue, OrderKept, WakeKept, FeedsInOrder, NoneBehind, QueuedInRange, WaitsNoMore, room};
ghost use Rattle.perimeter_core.specs.Ending.{IsOver};
ghost use Rattle.perimeter_core.specs.Knowledge.{HasIt, PassKept, KnownSince, RingKnows, last_was_accept};
ghost use Rattle.perimeter_core.specs.Numbered.{FeedFits, IsNumbered, NotesNumbered};

/// What was entered is what was processed, then the hand, then the chain, in the order entered.
pub fn entered_is_processed_held_or_queued()
    ensures { (S : Setting) (H : List Element) → Legal S H → OrderKept S H }
{}

/// A wake is recorded exactly where the chain isn't empty and nobody has the perimeter. Only an owner has a hand.
pub fn wake_stands_for_an_idle_backlog()
    ensures { (S : Setting) (H : List Element) → Legal S H → WakeKept (run S H) }
{}

/// The queued feeds of a connection are numbered consecutively up to the next one, and where there is one it is here.
pub fn queued_feeds_are_consecutive()
    ensures { (S : Setting) (H : List Element) (c : ℕ) → Legal S H → FeedsInOrder (run S H) c (due H c) }
{}

/// Behind the Ask of a ring that is queued, granted or owner stands no feed of the ring's connections.
pub fn nothing_stands_behind_an_ask()
    ensures { (S : Setting) (H : List Element) (r c : ℕ) → Legal S H → r ≡ c % S.rings → NoneBehind (run S H) r c }
{}

/// A legal history has at most eight marks for each feed and ask of the quotas and four for each pass; more closely, five
/// for each feed and ask, one for each pass, and one more.
pub fn a_history_is_bounded()
    ensures stated { (S : Setting) (H : List Element) → Legal S H → length H ≤ 8 * all_quotas S.quotas + 4 * passes S }
    ensures closer { (S : Setting) (H : List Element) → Legal S H → length H ≤ 5 * all_quotas S.quotas + passes S + 1 }
{}

/// Where all passes but the worker's are closed, nobody has the perimeter and nothing is queued, nothing may follow.
pub fn a_closed_history_is_final()
    ensures { (S : Setting) (H K : List Element) (e : Element) → IsOver S (run S H) → ¬ Legal S (H ++ e ∷ K) }
{}

/// What is queued, in hand and chain together, always fits the sum of all feeds of the quotas and one ask per pass.
pub fn what_is_queued_fits()
    ensures { (S : Setting) (H : List Element) → Legal S H → length (queue (run S H)) ≤ room S }
{}

/// What is queued names only connections and passes that there are, feeds below their limits, and no Ask of the worker's.
pub fn queued_entries_are_in_range()
    ensures { (S : Setting) (H : List Element) → Legal S H → QueuedInRange S (queue (run S H)) }
{}

/// A pass that is owner or granted waits no more: its Ask is queued nowhere, unless it claimed with it, as the last of its hand.
pub fn an_owner_waits_no_more()
    ensures { (S : Setting) (H : List Element) (p : ℕ) → Legal S H → WaitsNoMore (run S H) p }
{}

/// An element of another pass leaves what a pass knows of itself.
pub fn passes_are_left_alone()
    ensures { (S : Setting) (H : List Element) (e : Element) (p : ℕ) → Legal S H → May S H e → pass_of e.mark ≢ p
        → PassKept (run S H) (run S (H ++ e ∷ [])) e p }
{}

/// What a pass knew of itself still holds, where others made all later elements.
pub fn what_a_pass_knows_still_holds()
    ensures { (S : Setting) (H K : List Element) (p : ℕ) → Legal S (H ++ K) → made_by p K ≡ [] → KnownSince (run S H) (run S (H ++ K)) K p }
{}

/// The elements of a connection's ring fix whether the connection is here, its next number and how often it left.
pub fn a_ring_knows_its_connections()
    ensures { (S : Setting) (H : List Element) (c : ℕ) → Legal S H → RingKnows S H c }
{}

/// What the resident stands for after one more element: the entries that it reports are added, and then its act.
pub fn the_resident_follows()
    ensures { (S : Setting) (H : List Element) (e : Element) → May S H e → PeriGoesOn S H e }
{}

/// While a pass is owner or granted, the elements of others leave what the resident stands for.
pub fn the_resident_rests()
    ensures { (S : Setting) (H K : List Element) (p : ℕ) → Legal S (H ++ K) → made_by p K ≡ [] → HasIt (run S H) p → peri S (H ++ K) ≡ peri S H }
{}

/// A feed in the hand meets a block that is here and has had exactly the feeds before it.
pub fn the_next_feed_fits()
    ensures { (S : Setting) (H : List Element) (xs ys : List Entry) (c n : ℕ) → Legal S H → (run S H).hand ≡ xs ++ Entry.Feed c n ∷ ys → FeedFits S H xs c n }
{}

/// A block that is here has had all its feeds but those that are queued.
pub fn only_queued_feeds_are_missing()
    ensures { (S : Setting) (H : List Element) (c : ℕ) → Legal S H → is_here (run S H) c ≡ true
        → fed (acts S H c) + length (feeds_of c (queue (run S H))) ≡ due H c }
{}

/// The feeds of a block are numbered from 0, where those of the notes are.
pub fn acts_are_numbered()
    ensures { (S : Setting) (H : List Element) (c : ℕ) → Legal S H → NotesNumbered c H → is_here (run S H) c ≡ true → IsNumbered (acts S H c) }
{}

/// Where the ring of a connection is owner at its Ask, nothing of the connection is queued behind it.
pub fn a_ring_at_its_ask_is_last()
    ensures { (S : Setting) (H : List Element) (c : ℕ) → Legal S H → (run S H).own ≡ Own.Out (c % S.rings)
        → ((run S H).hand ≡ []) ⊎ (ends_with_ask (c % S.rings) (run S H).hand ≡ true) → feeds_of c (run S H).chain ≡ [] }
{}

/// Where a connection was here and is here no more, an Out of it stands between.
pub fn a_block_that_is_gone_was_taken_out()
    ensures { (S : Setting) (H K : List Element) (c : ℕ) → Legal S (H ++ K) → is_here (run S H) c ≡ true → is_here (run S (H ++ K)) c ≡ false
        → 0 < times_left c K }
{}

/// While a connection is elsewhere, no feed of it is processed.
pub fn nothing_of_a_block_elsewhere_is_processed()
    ensures { (S : Setting) (H : List Element) (e : Element) (c : ℕ) → Legal S H → May S H e → is_here (run S H) c ≡ false
        → feeds_of c (done_by (run S H) e.mark) ≡ [] }
{}

/// While a connection is elsewhere, no mark reports a feed or a call of it.
pub fn nothing_is_reported_of_a_block_elsewhere()
    ensures { (S : Setting) (H : List Element) (e : Element) (c : ℕ) → Legal S H → May S H e → is_here (run S H) c ≡ false → reported c (run S H) e.mark ≡ [] }
{}

/// While a pass is owner or granted, no mark of another reports that anything was processed or called.
pub fn only_the_owner_reports()
    ensures { (S : Setting) (H : List Element) (e : Element) (p : ℕ) → May S H e → HasIt (run S H) p → pass_of e.mark ≢ p
        → (done_by (run S H) e.mark ≡ []) × ((c : ℕ) → call_act c e.mark ≡ []) }
{}

/// A block leaves at most as often as it may.
pub fn a_block_leaves_within_its_limit()
    ensures { (S : Setting) (H : List Element) (c : ℕ) → Legal S H → times_left c H ≤ slice_index S.limits.leaves c }
{}

/// How many feeds and asks a pass has entered is told by its own elements.
pub fn a_pass_knows_what_it_entered()
    ensures { (p : ℕ) (H : List Element) → (feeds_by p H ≡ feeds_by p (made_by p H)) × (asks_by p H ≡ asks_by p (made_by p H)) }
{}

/// The hand of an owner is empty exactly where its last mark is Accept.
pub fn an_empty_hand_is_by_accept()
    ensures { (S : Setting) (H : List Element) (p : ℕ) → Legal S H → (run S H).own ≡ Own.Out p → last_was_accept p false H ≡ is_empty (run S H).hand }
{}
