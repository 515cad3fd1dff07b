//! The lines of a report, and of the marks behind it, as texts; and the code that writes a report's lines, out of blocks that lie in
//! a list. Where the blocks lay in squeues that have ended, `squeue_report` writes the same lines.
#![tactic(auto)]

pub mod laws;
mod names;
mod reporting;

pub use names::state_name;
pub use reporting::{
    push_conn, push_counts, push_datagram, push_last, push_next_end, push_pair, push_replies,
    report_of,
};
