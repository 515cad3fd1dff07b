//! Being alone with a squeue's resident: a thread that owns the perimeter to make a call, to move a block, to visit or to look.
//!
//! Who finds the perimeter free claims it with its own Ask last, processes all that stands ahead of it, and goes on as owner
//! at its Ask. Who doesn't asks, and waits until a turn of its own finds the perimeter granted to it. An owner does at most
//! one act, and reports it when it leaves. A visit does none: the resident stands for the same when it is over.
#![tactic(auto)]

mod acts;
mod coming;
mod hints;
mod looking;
mod visiting;

pub use acts::{Called, call, put_block, synch_exit, take_block};
pub use coming::{synch_enter, synch_try};
pub use hints::Hints;
pub use looking::{Reads, look};
pub use visiting::{Visits, visit};
