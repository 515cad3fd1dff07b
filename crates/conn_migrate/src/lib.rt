//! Moving the block of a connection from one squeue to another.
//!
//! A move is made by the connection's ring, and by nobody else. It is two acts of a synchronous owner: at the one squeue the
//! pass takes the block out, when all that was queued for it is processed, and leaves; then at the other it puts the block in,
//! and leaves. In between the block is nowhere. What was done to it at the first squeue stands in the second one's history,
//! as the note of the act that puts it in, so the histories together tell all that was done to a block. No part is copied,
//! and no memory is taken but in the residents.
#![tactic(auto)]

pub mod laws;
mod moving;
pub mod worked;

pub use moving::migrate;
