//! What the gate's table holds: the value in its slot, and the key that is fixed when it is made.

use std::snapshot::Snapshot;

/// The value, which is moved by its pointer, and the length of the history that it stands for.
#[derive(Drop)]
pub struct Kept<T> {
    pub value: Box<T>,
    pub count: u64,
}

/// The number of passes, and the value that the gate was made with. The second is for contracts alone.
#[derive(Drop)]
pub struct Made<T> {
    pub passes: u32,
    pub first: Snapshot<T>,
}
