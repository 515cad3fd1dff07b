//! Laws of every plan. Each is a function that does nothing, whose contract is the law.

ghost use Rattle.std.specs.Prelude.{ℕ, ◌≡◌, ◌+◌, ◌*◌, ◌<◌, ◌≤◌, length};
ghost use Rattle.capture_reader.specs.CaptureFile.{last_time};
ghost use Rattle.capture_reader.specs.Outcome.{CaptureFile};
ghost use Rattle.capture_reader.specs.Limits.{latest_time, most_records};
ghost use Rattle.conn_classifier.specs.Limits.{most_conns};
ghost use Rattle.conn_classifier.specs.Sorting.{total};
ghost use Rattle.conn_classifier.specs.Plan.{PlanOf, IsPlan, items_in, items_together, plan_by, Rises};
ghost use Rattle.conn_classifier.specs.declared.rules.Rules.{Rules};

/// The times of a connection's items never fall and are at most 9,007,199,254,740,992 microseconds, where the capture keeps
/// the reader's bounds on records and times.
pub fn times_never_fall()
    ensures { (file : CaptureFile) (rules : Rules) (c : ℕ) → length file.packets ≤ most_records → last_time file.packets ≤ latest_time
        → c < length (plan_by file rules).tuples → Rises 0 latest_time (items_in (plan_by file rules) c) }
{}

/// All connections together have at most two items a record, and one more each.
pub fn all_items_are_few()
    ensures { (p : PlanOf) → IsPlan p → items_together p ≤ 2 * most_records + most_conns }
{}

/// Each record counts as exactly one class.
pub fn records_are_the_sum_of_the_classes()
    ensures { (file : CaptureFile) (rules : Rules) → total (plan_by file rules).counts ≡ (plan_by file rules).counts.records }
{}
