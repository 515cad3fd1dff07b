//! What a pass knows at first: a law is a function that does nothing, whose contract is the law.

ghost use Rattle.placed_parts.specs.Placing.{limits_of, origin_of};
ghost use Rattle.stream_stays.specs.Beginning.{NewPassesKnow};

use placed_parts::Places;
use squeue_state::Squeue;
use squeue_streams::{Steps, Streams};
use std::sync::Wait;

/// A pass that has seen nothing knows its places, where no part was at the squeue at its start and the places tell no more than the
/// pass's life.
pub fn new_passes_know<X: Steps + Drop, H: Wait + Drop>(_sq: &Squeue<Places<Streams<X, H>>>)
    ensures { NewPassesKnow X.begins X.step limits_of _sq.now (origin_of _sq.now.given.first) }
{}
