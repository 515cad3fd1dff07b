//! One call that runs threads over squeues, for any work: rings bring lists of feeds, application threads make calls, workers
//! process what is left, and what comes back is the resident, the end and the trace of each squeue.
//!
//! `pool` says how many squeues and rings there are and how they enter, `work` what is to be done and what is left of a squeue.
//! [`run`] does it: `intakes` has what comes in by each ring, `squeues` makes the squeues, `all_jobs` sets the threads to work,
//! `leftovers` takes back what is left, `whole_run` puts these together.
//!
//! [`run_for_parts`] does the same, and keeps what is left in one sealed value, `finished`: the parts that lay in the residents, the
//! ends and the traces. So a part in it can have come from nowhere else. The places of the parts are made before a thread runs, and
//! nothing there takes memory afterwards, so that no part is lost.
//!
//! Where connections stay at their squeues, nobody calls, and each connection has a number of feeds, [`serve_by_key`] serves parts, and
//! [`run_by_key`] any resident, by [`work_by_key`]: `keys` has the lists and quotas of it, `placing` makes the residents from what their parts share, and
//! `served` has the parts when all is done. [`serve_called`] (`serving`) serves parts that move from squeue to squeue and that threads
//! call, and hands out each of them after all its feeds and all its calls: `quotas` has how much each pass may enter for that,
//! `errands` makes the calls of threads from lists of what each has to do, and `laws` says which calls stand among a part's acts.
#![tactic(auto)]

mod all_jobs;
mod by_key;
mod errands;
mod finished;
mod intakes;
mod keys;
pub mod laws;
mod leftovers;
mod placing;
mod pool;
mod quotas;
mod served;
mod serving;
mod squeues;
mod whole_run;
mod work;

pub use by_key::{run_by_key, serve_by_key, work_by_key};
pub use errands::{Errand, calls_for};
pub use finished::{Finished, run_for_parts};
pub use keys::{key_lists, lengths};
pub use placing::places_of;
pub use pool::Pool;
pub use served::ServedParts;
pub use serving::serve_called;
pub use whole_run::run;
pub use work::{Left, Work};
