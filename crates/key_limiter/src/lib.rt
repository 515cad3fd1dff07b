//! A rate limiter by key behind squeues: which requests of a key pass is a function of that key's own requests.
//!
//! `limiter` is the part of a key, a bucket that fills with time and from which each request that passes takes a token; `deciding`
//! serves all keys from several threads, and hands out what passed.
#![tactic(auto)]

mod deciding;
mod limiter;

pub use deciding::decide;
pub use limiter::{Bucket, Level, Limit, Requests};
