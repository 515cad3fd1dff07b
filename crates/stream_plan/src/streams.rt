//! The items of the streams, made of their segments.

ghost use Rattle.std.specs.Prelude.{◌≡◌, ◌≤◌, length, map, OnOk};
ghost use Rattle.stream_plan.specs.Sorting.{filled};

use crate::planned::CapturedStream;
use conn_classifier::Arrival;
use std::alloc::{AllocError, Global};

/// Gives each stream the items of its segments, where this is the greatest time of all records.
pub fn fill(
    alloc: Global,
    last: u64,
    streams: &mut Vec<CapturedStream>,
    segments: &[Vec<Arrival>],
) -> Result<(), AllocError>
    requires { length segments.now ≤ length streams.old.items }
    ensures { OnOk result (streams.new.items ≡ filled last streams.old.items (map (λ v. v.items) segments.now)) }
{
    for c in 0..segments.len() {
        streams[c].enter(alloc, last, segments[c].as_slice())?;
    }
    Ok(())
}
