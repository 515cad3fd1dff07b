//! Static pages over HTTP/1.1 (RFC 9110, RFC 9112): the pages of a site, what a request's head says, and the bytes of its answer.
//!
//! All here is a function of bytes and a time: it knows no connection, no clock and no file. A head is judged once it is whole, so whoever
//! calls keeps what came until then, and offers the answer's head and its body, which stands in the pack that the pages were read from.
#![tactic(auto)]

mod answer;
mod choosing;
mod cuts;
mod dates;
mod heads;
mod hosts;
mod laws;
mod pages;
mod ranges;
mod reading;
mod requests;
mod text;
mod worked;

pub use answer::{Answer, Status};
pub use laws::{answers_stand, heads_are_answered, heads_are_the_grammars, pages_are_sent};
pub use pages::{PackError, Pages};
pub use reading::answer_to;
pub use text::{body_of, head_of};
pub use worked::{others_are_told, pages_are_told, parts_are_told};
