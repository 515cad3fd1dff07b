//! A service that answers requests one after another, in the order in which they came: the pump over TCP, for any protocol.
//!
//! An unfinished request isn't taken: it waits in the receive queue, so the service keeps no bytes of its own. An answer is offered as far
//! as there is room, and goes on at the next pump; meanwhile no request is taken. Which bytes are a request, and what is answered, an
//! `Answerer` says.
#![tactic(auto)]

mod answerer;
mod behind;
mod laws;
mod phase;
mod site;

pub use answerer::Answerer;
pub use behind::Behind;
pub use laws::{answers_are_a_pump, answers_come_in_order, requests_are_answered};
pub use phase::Phase;
pub use site::{Web, pages_answer_what_came};
