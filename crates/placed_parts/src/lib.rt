//! A resident over parts of one kind: who writes what a feed and a call make of one part gets the rest.
//!
//! [`Parts`] says what the parts have in common and what is done to one. [`Places`] is then a resident, as a squeue serves it: it
//! has a place for the part of each connection, knows which are here, and takes parts out and puts them in.
#![tactic(auto)]

mod parts;
mod places;

pub use parts::Parts;
pub use places::Places;
