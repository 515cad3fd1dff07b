//! The door of the library: what one names to serve parts of one's own from several threads, or to enter a squeue. A crate that
//! stands on this one lists it alone; what it passes on is proved where it stands.
//!
//! Write [`Parts`] for what is done to one part, and call [`serve_by_key`] with a [`Pool`]: it hands back the parts, as [`ServedParts`].
//! [`serve_called`] serves parts that move from squeue to squeue, and that threads call beside; [`calls_for`] makes these calls of the
//! [`Errand`]s of each thread. [`run`] does any work, as a [`Work`] says
//! it, and leaves a [`Left`] for each squeue.
#![tactic(auto)]

pub use histories::{Mode, Quota};
pub use perimeter_core::{Act, Entry, Feed, Hook, NoHook, Resident, SynchAct};
pub use placed_parts::{Parts, Places};
pub use squeue_enter::{Entered, enter};
pub use squeue_pool::{
    Errand, Finished, Left, Pool, ServedParts, Work, calls_for, lengths, places_of, run,
    run_by_key, serve_by_key, serve_called,
};
pub use squeue_state::{Ended, Pass, Squeue, Trace};
