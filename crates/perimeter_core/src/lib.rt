//! The machine of one perimeter: its state, its marks, its legal histories and their laws.
//!
//! A perimeter is what one squeue protects: the blocks of the connections that are here, processed by at most one owner
//! at a time. The state of a perimeter changes by marks alone, and a history is the list of all marks so far. Everything
//! that the crates above claim of threads is said of legal histories. This crate has no thread, no lock and no queue in
//! memory; a gate above ties each history to what threads do.
#![tactic(auto)]

pub mod entries;
pub mod few;
mod flags;
pub mod hook;
mod known;
pub mod laws;
pub mod machine;
pub mod marks;
pub mod resident;

pub use entries::{Act, Entry, Feed};
pub use few::Few;
pub use hook::{Hook, NoHook};
pub use known::Known;
pub use machine::{Core, is_polling};
pub use marks::{Kind, Mark, Own, SynchAct};
pub use resident::Resident;
