//! What the order's line says.

ghost use Rattle.std.specs.Prelude.{◌≡◌, List};
ghost use Rattle.std.specs.List.{flat_map};
ghost use Rattle.perimeter_core.specs.declared.entries.Act.{Act};
ghost use Rattle.report_lines.specs.ReportText.{entries_of};
ghost use Rattle.report_lines.specs.OrderLaw.{acts_of, AreMaximal};

/// The entries that are printed for an order stand for its acts, one after another, and no run of feeds could be longer.
pub fn entries_stand_for_the_order()
    ensures acts { (order : List Act) → flat_map acts_of (entries_of order) ≡ order }
    ensures maximal { (order : List Act) → AreMaximal (entries_of order) }
{}
