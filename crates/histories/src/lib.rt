//! Histories of squeues, and what it takes to say that they fit a run: definitions, and lemmas over them.
//!
//! A history is a list of marks, as `perimeter_core` has it. Here is what is said of the histories of several squeues together: how
//! one has ended, the stays of a connection whose block moves and how they are linked, where a connection is at home, what the marks
//! of a ring keep, and which feeds a ring brings, key by key. No thread is here and no squeue, so that who has histories alone, from a
//! file, needs no more than this.
//!
//! - `homes` says where a connection is at home.
//! - `mode` has the modes of entering, `pace` how a ring enters its feeds, `quota` how much a pass may enter.
#![tactic(auto)]

mod homes;
mod mode;
mod pace;
mod quota;

pub use homes::Homes;
pub use mode::{MODE_WORDS, Mode};
pub use pace::Pace;
pub use quota::Quota;
