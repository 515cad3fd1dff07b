//! The live server by several rings on squeues: each ring is a server of one stream, by the rules of one thread, and its connections are
//! parts at a squeue.
//!
//!     sqlive --rings N --squeues M --mode MODE --budget N frames SECRET SETTING IN OUT ..
//!
//! IN and OUT are N pairs of files or FIFOs: ring k reads frames from the k-th IN, and what its connections and its rules send goes as
//! frames to the k-th OUT. A stream's time comes in its own frames. `seating` is how places are made, dealt to rings and given to a squeue,
//! `ring` what the threads of a squeue do, and `ring_squeue` a squeue from its making to its end. `rings`
//! serves these beside each other, `words` and `program` are the program. It knows no clock and no device.
#![tactic(auto)]

mod ending;
pub mod laws;
mod program;
mod ring;
mod ring_squeue;
mod rings;
mod seating;
mod words;

pub use ending::{EndedRing, EndedRings, Ends};
pub use program::{asks_for_rings, run_program, setup_by};
pub use rings::serve_rings;
pub use words::{Layout, RingWords, rings_asked};
