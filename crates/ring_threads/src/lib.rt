//! Who serves the connections of a plan: threads over squeues.
//!
//! `all_conns` makes all that a run needs, runs its threads, and hands back what was served. `ring_lists` has what comes in by each ring,
//! `plan_work` the setup and the work of the run, `served` what is handed out.
//! The run itself is that of `squeue_pool`; how much each pass may enter is in `ring_quotas`. `laws` says that it suffices for the list
//! of each ring and the calls of each application thread, and what the histories of all squeues together say of a block at the end.
#![tactic(auto)]

mod all_conns;
mod kept;
pub mod laws;
mod plan_work;
mod ring_lists;
mod served;

pub use all_conns::serve;
pub use ring_quotas::{Setup, marks_most};
pub use served::Served;
