//! What is to be done by a run, and what it leaves.
use perimeter_core::Feed;
use squeue_state::{Ended, Quota, Trace};

/// What the threads of a run have to do: how many connections there are; by squeue its resident, and how much each of its passes
/// may enter, the rings' first, then the application threads'; by ring the feeds that it brings, in order; and by application
/// thread the connection of each of its calls, in order.
#[derive(Drop)]
pub struct Work<R> {
    pub conns: u32,
    pub residents: Vec<R>,
    pub quotas: Vec<Vec<Quota>>,
    pub lists: Vec<Vec<Feed>>,
    pub calls: Vec<Vec<u32>>,
}

/// What is left of a squeue that has ended: its resident, its end, and the marks of its history, if they were kept.
#[derive(Drop)]
pub struct Left<R> {
    pub resident: R,
    pub end: Ended,
    pub trace: Trace,
}
