//! How a run over several squeues is set up, and what each pass of each squeue may enter in it.
//!
//! A connection is at home at one squeue after another, so how many feeds a ring enters at a squeue, and how often its connections
//! come and leave there, is fixed before the run by the plan alone; what an application thread may ask, by its calls and these
//! moves. `shares` counts for one connection, by closed forms, `quotas` for each pass.
#![tactic(auto)]

mod limits;
mod quotas;
mod setup;
mod shares;

pub use histories::Mode;
pub use limits::{MOST_BUDGET, MOST_RINGS, MOST_SPREAD, MOST_SQUEUES};
pub use quotas::{marks_most, quotas_at};
pub use setup::Setup;
pub use shares::{coming, feeds, leaving};
