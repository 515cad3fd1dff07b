//! Runs written out, for which all holds that the top calls promise: of `serve` with a move and with a call; of `squeue_run` where it ends
//! well, once plain and once with a call and with marks, and of the replay that reads those; of `sqmore` over a datagram; of the live servers
//! over frames of one connection; work with a call, work by key and a look, for parts of any kind; a place that is closed; and the statements of
//! two accounts. So none of these promises is an empty one.
//!
//! It stands at the end of what is proved, and nothing stands on it: histories, orders, blocks and bytes are given by hand, and the laws say
//! that they meet the clauses (`HasServed`, `HasRan`, `HasReplayed`, `HasMoreRan`, `AllEnded`, `HasFinished`, `HaveHadAll`,
//! `WasServedBy`, `HasSeen`). It never runs a thread.
#![tactic(auto)]

pub mod laws;
