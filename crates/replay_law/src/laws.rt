//! A report of a run that kept its marks replays, with its capture behind it.

ghost use Rattle.std.specs.Prelude.{◌≡◌, ◌≤◌, Bool, true, List, ◌++◌, Option, Some, length, map};
ghost use Rattle.sq_base.specs.Ends.{End};
ghost use Rattle.sq_base.specs.declared.kinds.Status.TheVariants as Status;
ghost use Rattle.capture_reader.specs.Outcome.{CaptureFile};
ghost use Rattle.pcapng_reader.specs.Input.{IsInput};
ghost use Rattle.squeue_state.specs.Told.{marks_of};
ghost use Rattle.conn_classifier.specs.Plan.{plan_of};
ghost use Rattle.conn_classifier.specs.Rules.{usual};
ghost use Rattle.conn_blocks.specs.CallLists.{CallLists};
ghost use Rattle.ring_quotas.specs.declared.setup.Setup.{Setup};
ghost use Rattle.ring_quotas.specs.Quotas.{marks_most};
ghost use Rattle.ring_threads.specs.Served.{HasServed, ServedOf, orders_of};
ghost use Rattle.report_lines.specs.TraceText.{trace_text};
ghost use Rattle.squeue_run.specs.Words.{Text};
ghost use Rattle.squeue_run.specs.Asked.{Asked, asked};
ghost use Rattle.squeue_run.specs.Limits.{most_marks};
ghost use Rattle.squeue_run.specs.Ran.{HasRan};
ghost use Rattle.trace_lines.specs.Printed.{ArePrintedCalls, IsPrintedSetup};
ghost use Rattle.trace_replay.specs.Replays.{Replays};
ghost use Rattle.replay_law.specs.Wrote.{WroteWhatReplays};

/// Where accepted words ask for a trace and the run ends with status 0, what it wrote replays with what it read behind it.
pub fn a_traced_run_replays()
    ensures { (words : List Text) (a : Asked) (source out err : End) (back : Option ServedOf) → asked words ≡ Some a → a.setup.trace ≡ true
        → HasRan (asked words) source out err back Status.Ok → WroteWhatReplays source out }
{}

/// What threads over squeues have served, with marks kept, is reported by a text that replays with the capture behind it, where a
/// report's lines can say the setup and the calls, and the marks are within the limit.
pub fn what_was_served_replays()
    ensures { (file : CaptureFile) (setup : Setup) (verify : Bool) (calls : CallLists) (v : ServedOf) → IsInput file
        → IsPrintedSetup setup → ArePrintedCalls (length (plan_of file verify).tuples) calls → marks_most (plan_of file verify) calls setup ≤ most_marks
        → HasServed (plan_of file verify) calls setup v
        → Replays (trace_text (plan_of file verify) calls setup (usual verify) (orders_of v) (map marks_of v.traces) ++ file.bytes) }
{}
