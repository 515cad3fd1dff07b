//! Reads the lines that a report with marks has from its setup on, as `report_lines` has them, and nothing else.
//!
//! Each function takes a text and gives what its front says and what stands behind it. A text that is read is the one that is
//! written of what was read, so the lines fix setup, calls and marks; what isn't read is no such text. No list of marks is kept:
//! `form` looks at the mark lines of each squeue, and who wants the marks reads them again, one by one.
//!
//! - `fields` reads a number, `forms` a line's form with numbers in its blanks, `heads` the setup and the calls, `marks` the line of a
//!   mark, `form` all squeues' lines.
#![tactic(auto)]

mod fields;
mod form;
mod forms;
mod heads;
mod marks;

pub use form::histories;
pub use heads::{calls, setup_line};
pub use marks::read_mark;
