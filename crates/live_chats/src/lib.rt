//! The connections of a live server as chats, each of which is a part at a squeue.
//!
//! A chat is one connection by itself: what it is told, and what it answered last. It is a function of its items. [`Chats`] are the parts of
//! a squeue's resident, and [`Seats`] is a table of connections for a server's rules, whose connections are chats at the places of one pass:
//! each call tells a chat, settles at an Ask of the pass, and looks at the answer, so that between two calls nothing is under way. The laws
//! say that a server is its chats, told what its rules tell. No socket and no file is known here, and no thread is started.
#![tactic(auto)]

mod asking;
mod chat;
mod chats;
mod ear;
mod item;
pub mod laws;
mod leaving;
mod line;
mod reaching;
mod renewing;
mod seat;
mod seats;
mod table;

pub use chat::Chat;
pub use chats::Chats;
pub use item::ChatItem;
pub use table::{Closes, Seats};
