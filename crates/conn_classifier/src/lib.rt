//! The connections of a capture and their items: what the rings bring to the squeues, and in which order.
//!
//! The records are decoded in several threads, in record order, and then gone through once by one thread, with a hashed
//! set of the connections; each connection's segments are gone through once from the back, for the hints. The packets stay as
//! they were decoded, and an item is kept by its record's number.
#![tactic(auto)]

mod ahead;
mod decoding;
mod items;
mod kinds;
pub mod laws;
mod making;
mod planned;
mod rings;
mod rules;
mod slots;
mod sorting;
mod tuples;
mod view;

pub use ahead::hints;
pub use items::items_in;
pub use kinds::{Arrival, Counts, Item};
pub use making::{plan, plan_with};
pub use perimeter_core::Feed;
pub use planned::Plan;
pub use rules::{Ports, Rules};
pub use view::PlanView;
