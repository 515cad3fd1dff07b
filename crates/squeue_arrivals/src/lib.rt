//! Work that arrives: each ring takes items from a source of its own, of which nobody knows before which keys come, nor how many items.
//!
//! Write [`KeySteps`] for what is made of the items of one key, and [`Arrivals`] for a source, unless a list is one ([`Listed`]), a ring ([`Piped`]) or
//! a channel ([`Channelled`]). Then [`serve_arriving`] has a ring bring the items of each source to a squeue, and hands back what was made of each key. A key takes a
//! place of its ring when its first item comes, and keeps it to the end. A ring has so many places as it is told; what comes for a key
//! that finds none is refused, and ends its source.
//!
//! `source` is where items come from, `steps` what is made of them, `served` what is handed back. `seating` makes places and deals them to
//! rings, `line` is how a thread uses the places of its pass, `ring_keys` and `keys` which key is at which of them, `ring` what the threads of one squeue
//! do, `ring_squeue` a squeue from its making to its end, and `arriving` serves groups of sources beside each other.
#![tactic(auto)]

mod arriving;
mod channelled;
mod given_items;
mod iterated;
mod keys;
mod line;
mod piped;
mod pool;
mod ring;
mod ring_keys;
mod ring_squeue;
mod seating;
mod served;
mod source;
mod steps;
mod watching;

pub use arriving::{serve_arriving, serve_watched};
pub use channelled::Channelled;
pub use given_items::GivenItems;
pub use iterated::Iterated;
pub use piped::Piped;
pub use pool::{ArrivalPool, SPAN};
pub use served::{Arrived, Cause, KeyPart, Refused, ServedSource, WatchedArrived};
pub use source::{Arrival, Arrivals, Listed};
pub use steps::KeySteps;
pub use watching::{WatchedEnd, Watches};
