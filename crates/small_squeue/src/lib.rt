//! A small squeue of logs, on which crates above try what they do: one connection, a ring, an application thread and the
//! worker.
#![tactic(auto)]

mod ending;
mod making;
mod marks;

pub use ending::ended;
pub use making::{opened, three};
pub use marks::has_marks;
