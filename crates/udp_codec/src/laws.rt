//! What is sent is read again.

ghost use Rattle.std.specs.Prelude.{ℕ, List};
ghost use Rattle.sq_base.specs.declared.kinds.Tuple.{Tuple};
ghost use Rattle.udp_codec.specs.ReadAgain.{Fits, ReadsAgain};

/// The bytes of a sent datagram decode, as raw IP, to its own fields and its text, and both its sums are right.
pub fn what_is_sent_is_read()
    ensures { (tuple : Tuple) (text : List ℕ) → Fits tuple text → ReadsAgain tuple text }
{}
