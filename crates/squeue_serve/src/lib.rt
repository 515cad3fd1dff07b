//! Running threads over squeues: what is the same whichever resident is served.
//!
//! A run has some squeues and a list of jobs, each of which a thread does. A job is lent passes: a ring or a caller one of each
//! squeue, under the same number everywhere; a worker that of its one squeue. `places` is what is done with a pass that lies in
//! a place of a job, `jobs` how passes are lent, `beside` how the jobs are done in threads, `start` where these wait for one
//! another before any begins, `ending` how the passes come back and the squeues end, whether they were served or not. Nothing here
//! takes memory once the jobs are made, so that no pass is lost.
#![tactic(auto)]

mod beside;
mod ending;
mod jobs;
mod places;
mod start;

pub use beside::{run_each, run_each_after};
pub use ending::{end_last, run_unused};
pub use jobs::{Job, Squeues, discard, jobs_of, lend};
pub use places::{close_all, put_pass, take_pass, work};
