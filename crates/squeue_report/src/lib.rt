//! The report of a run, with its marks where they were kept, and the one line that sums up a generated run. The lines of a report are
//! those of `report_lines`.
#![tactic(auto)]

mod checking;
mod reporting;
mod summing;
mod tracing;
mod writing;

pub use reporting::{push_report, report};
pub use summing::summary;
pub use tracing::{countable, is_countable, push_report2, push_squeue, report2};
pub use writing::{Room, write_report, write_report2};
