//! What a queue keeps of a stream is as good as the whole stream: each law is a function that does nothing, whose contract is the law.

ghost use Rattle.std.specs.Prelude.{◌≡◌, ℕ, ◌+◌, ◌-◌, ◌<◌, ◌≤◌, ◌++◌, List, length, drop, take, None, Some, is_some, option_map, true};
ghost use Rattle.byte_queues.specs.ReceiveQueue.{Cells, Recv, bytes, front, first, over_cells, next_of, ready_of, window_of};
ghost use Rattle.byte_queues.specs.ReceiveQueue.{placed, next_bytes, without, without_ahead, with_cap, with_end, is_ended, is_at};
ghost use Rattle.byte_queues.specs.WholeStreams.{cell, whole_next, whole_placed, whole_bytes, whole_without, IsRead, trim, Sent, IsSent, kept_out};

/// Each operation on what is kept of the peer's stream is that on the whole, trimmed.
pub fn received_is_kept()
    ensures next { (q : Recv) → IsRead q → next_of (trim q) ≡ whole_next q }
    ensures placed { (at : ℕ) (text : List ℕ) (q : Recv) → IsRead q → q.taken ≤ at → placed at text (trim q) ≡ option_map trim (whole_placed at text q) }
    ensures bytes { (n : ℕ) (q : Recv) → next_bytes n (trim q) ≡ whole_bytes n q }
    ensures without { (n : ℕ) (q : Recv) → without n (trim q) ≡ trim (whole_without n q) }
    ensures ahead { (q : Recv) → IsRead q → without_ahead (trim q) ≡ trim (without_ahead q) }
    ensures capacity { (n : ℕ) (q : Recv) → with_cap n (trim q) ≡ trim (with_cap n q) }
    ensures ending { (f : ℕ) (q : Recv) → with_end f (trim q) ≡ trim (with_end f q) }
    ensures ended { (q : Recv) → IsRead q → is_ended (trim q) ≡ is_at q.stream_end (whole_next q) }
{}

/// All that is taken was held, whatever is placed and taken: the premise of the laws on the whole stands at each step.
pub fn what_is_taken_was_held()
    ensures placed { (at : ℕ) (text : List ℕ) (q p : Recv) → IsRead q → whole_placed at text q ≡ Some p → IsRead p }
    ensures without { (n : ℕ) (q : Recv) → IsRead q → n ≤ ready_of (trim q) → IsRead (whole_without n q) }
    ensures ahead { (q : Recv) → IsRead q → IsRead (without_ahead q) }
    ensures bytes { (n : ℕ) (q : Recv) → n ≤ ready_of q → length (next_bytes n q) ≡ n }
{}

/// A queue that forgets what it holds behind a gap keeps all else: what comes next, the window, what can be taken, and whether it is at the
/// end. Then all that it holds is in order.
pub fn what_is_in_order_stays()
    ensures next { (q : Recv) → next_of (without_ahead q) ≡ next_of q }
    ensures window { (q : Recv) → window_of (without_ahead q) ≡ window_of q }
    ensures ready { (q : Recv) → ready_of (without_ahead q) ≡ ready_of q }
    ensures ended { (q : Recv) → is_ended (without_ahead q) ≡ is_ended q }
    ensures bytes { (n : ℕ) (q : Recv) → n ≤ ready_of q → next_bytes n (without_ahead q) ≡ next_bytes n q }
    ensures held { (q : Recv) → length (bytes (without_ahead q).got) ≡ front q.got }
    ensures less { (q : Recv) → length (bytes (without_ahead q).got) ≤ length (bytes q.got) }
{}

/// The words of the definitions by position: below `front` each position is held and at it none is, and the first copy of a byte stays.
pub fn positions()
    ensures held { (cs : Cells) (i : ℕ) → i < front cs → is_some (cell cs i) ≡ true }
    ensures gap { (cs : Cells) → cell cs (front cs) ≡ None }
    ensures first { (cs ds : Cells) (i : ℕ) → cell (over_cells cs ds) i ≡ first (cell cs i) (cell ds i) }
{}

/// Each operation on what is kept of the bytes offered is that on all of them.
pub fn offered_is_kept()
    ensures unsent { (s : Sent) → IsSent s → drop (s.sent - s.acked) (kept_out s) ≡ drop s.sent s.all }
    ensures slice { (from n : ℕ) (s : Sent) → take n (drop from (kept_out s)) ≡ take n (drop (s.acked + from) s.all) }
    ensures acked { (n : ℕ) (s : Sent) → drop n (kept_out s) ≡ kept_out (record s { acked = s.acked + n }) }
    ensures offered { (text : List ℕ) (s : Sent) → IsSent s → kept_out s ++ text ≡ kept_out (record s { all = s.all ++ text }) }
    ensures count { (s : Sent) → IsSent s → s.acked + length (kept_out s) ≡ length s.all }
{}
