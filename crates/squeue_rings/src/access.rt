//! How a thread comes to the squeues of a run.
use perimeter_core::Resident;
use squeue_state::Squeue;
use std::alloc::Global;
use synch_enter::Hints;

/// The squeues of a run, by number, with what a thread needs to enter them: by what it waits, the memory that residents take, the
/// hook that is called before each feed, and the hints where blocks are.
#[derive(Drop)]
pub struct Access<'a, R: Resident, H, W> {
    pub rt: &'a W,
    pub alloc: Global,
    pub hook: &'a H,
    pub squeues: &'a [Squeue<R>],
    pub hints: &'a Hints,
}
