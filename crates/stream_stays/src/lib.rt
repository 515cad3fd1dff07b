//! Streams whose stays at a squeue follow one another.
//!
//! A stream has a ring of its own, which is made once. While it is at no squeue its thread has both ends of the ring ([`Vacant`]); while its
//! part stays at a squeue the thread has the end that pushes ([`Stay`]).
//!
//! [`Stays`] are all places of one pass. A place is opened ([`open_at`]): its part is put in at an Ask of the pass, as one that has had no
//! feeds. Items are pushed at any place ([`push_at`]), and the feeds of all are entered as one chain ([`enter_all`]). The pass settles
//! them at an Ask of its own ([`settle`]), where it has both ends of each ring: each place that was touched has then taken all that was
//! pushed, and its state can be seen. So a place that is closed ([`close_at`]) leaves nothing. No call but the making takes memory, and
//! what a pass knows of its other places is the same after each.
#![tactic(auto)]

mod laws;
mod passing;
mod place;
mod pushing;
mod settling;
mod stay;
mod turning;

pub use laws::new_passes_know;
pub use place::{Place, Stays};
pub use pushing::{enter_all, push_at};
pub use settling::{Collects, settle};
pub use stay::{Stay, Vacant};
pub use turning::{close_at, open_at};
