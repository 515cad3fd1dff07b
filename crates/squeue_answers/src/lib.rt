//! Answers to work that arrives: what an item is answered goes to a sink of its ring.
//!
//! Write [`KeyAnswers`] for what is made of the items of one key and what each is answered, and [`Sink`] for where the answers of a ring go, unless
//! a list is one ([`Kept`]) or a channel ([`Sent`]). Then [`serve_answering`] serves pairs of a source and a sink as `serve_arriving` serves
//! sources. Each sink gets the answers of its source's items in the order of these items, each once.
//!
//! It stands on `serve_arriving` alone, so who wants no answers pays nothing for them. The first item of a key carries the end of a
//! one-producer ring to its key's state, which pushes an answer for each item. The other end stays with the source, which hands on what is next
//! in the order of its items whenever it is asked for another one.
//!
//! `answering` is what a user writes, `sinks` has sinks, `steps` is what is made of items that carry such an end, `asking` is the source that
//! gives them, and `serving` the call.
#![tactic(auto)]

mod answering;
mod asking;
mod got_answers;
mod parts;
mod rings;
mod serving;
mod sinks;
mod steps;

pub use answering::{KeyAnswers, Sink};
pub use got_answers::GotAnswers;
pub use serving::{Answered, AnsweredSource, serve_answering};
pub use sinks::{Kept, Sent};
