//! What the threads of a run do over several squeues, whichever resident these serve, and whichever plan says what comes in.
//!
//! A ring takes the places of its feeds from its receive ring, and enters each feed at the squeue where its connection is at home.
//! Before a feed whose home is another one than that of the feed before, it moves the connection. `bringing` is what a ring does,
//! `calling` what an application thread does, which makes each of its calls where its block is; `access` is what both need to enter the
//! squeues. Both know what they know by the passes that they alone are lent; `laws` says what is so of new passes.
//!
//! `intake` has the feeds that a ring brings and its receive ring. `task` says what each thread has to do: the feeder, the rings, the
//! application threads and the workers of the squeues. `feeding` is what the feeder does, `doing` what each does with the passes that
//! its job is lent. How threads are made and passes lent is in `squeue_serve`; where a feed is at home, and what a ring's marks keep,
//! in `histories`. Which feeds a ring brings, and how much each pass may enter, is the user's to say.
#![tactic(auto)]

mod access;
mod bringing;
mod calling;
mod doing;
mod feeding;
mod intake;
pub mod laws;
mod places;
mod task;

pub use access::Access;
pub use bringing::{bring_all, bring_piece};
pub use calling::{make_calls, try_call};
pub use doing::run_job;
pub use histories::{Homes, Pace};
pub use intake::{Intake, IntakeEnds, intake_of};
pub use places::{put_at, take_at};
pub use task::{FRONT, RingTask, Task, tasks_of};
