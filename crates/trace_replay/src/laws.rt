//! At most one answer fits an input.

ghost use Rattle.std.specs.Prelude.{◌≡◌, ℕ, List};
ghost use Rattle.trace_replay.specs.Answers.{IsEither};
ghost use Rattle.trace_replay.specs.declared.reason.Reason.{Reason};
ghost use Rattle.trace_replay.specs.Reasons.{Holds};
ghost use Rattle.trace_replay.specs.Replays.{Replays};

/// No input has two reasons why it doesn't replay.
pub fn an_input_has_one_reason()
    ensures { (input : List ℕ) (r s : Reason) → Holds r input → Holds s input → r ≡ s }
{}

/// What replays has no such reason.
pub fn what_replays_has_no_reason()
    ensures { (input : List ℕ) (r : Reason) → Holds r input → Replays input → ⊥ }
{}

/// So an input has one answer, to the letter.
pub fn an_input_has_one_answer()
    ensures { (input text other : List ℕ) → IsEither input text → IsEither input other → text ≡ other }
{
    an_input_has_one_reason();
    what_replays_has_no_reason();
}
