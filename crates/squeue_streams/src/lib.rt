//! Streams whose items come through rings from one thread to one other.
//!
//! The part of a stream holds the end of a ring that pops, and the state of what has been made of its items; a feed of the
//! stream pops one item and takes it. So the squeue carries numbers alone, and an item is in one place at a time: with who
//! brings it, in the ring, or in the state. How a stream comes to a squeue, stays there and leaves is `stream_stays`.
#![tactic(auto)]

mod pace;
mod streams;

pub use pace::SourcePace;
pub use streams::{Steps, Stream, Streams};
