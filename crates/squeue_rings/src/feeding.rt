//! The feeder: it tells each ring of its feeds, by the numbers that it puts into the receive rings.
ghost use Rattle.std.specs.Prelude.{◌≡◌, Some, map, option_map};
ghost use Rattle.squeue_rings.specs.Tasks.{AreEnds, HasRing, HaveRings, feed_end, full_end};

use crate::intake::Intake;
use poll_ring::FeedEnd;
use std::sync::Wait;

/// Puts the numbers of all intakes, those of the first intake first.
pub fn feed_all<W: Wait>(rt: &W, intakes: &[Intake], ends: &mut Vec<Option<FeedEnd>>)
    requires intakes { HaveRings intakes.now }
    requires ends { AreEnds intakes.now ends.old.items }
    ensures { ends.new.items ≡ map (λ l. option_map full_end l.ring) intakes.now }
{
    for i in 0..ends.len() {
        if let Some(end) = &mut ends[i] {
            feed_intake(rt, &intakes[i], end);
        }
    }
}

// Puts the numbers of one intake.
fn feed_intake<W: Wait>(rt: &W, intake: &Intake, end: &mut FeedEnd)
    requires intake { HasRing intake.now }
    requires end { option_map feed_end intake.now.ring ≡ Some end.old }
    ensures { option_map full_end intake.now.ring ≡ Some end.new }
{
    if let Some(ring) = &intake.ring {
        for _ in 0..intake.list.len() {
            ring.push(rt, end);
        }
    }
}
