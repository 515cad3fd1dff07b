//! Groups: how sources are dealt to squeues, each of which serves a group of them by a ring for each, and how what is left of all groups is
//! put together.
//!
//! It knows no squeue and no ring: what is dealt, and what becomes of it, are of any type.
#![tactic(auto)]

mod groups;

pub use groups::{Group, deal, gather_all};
