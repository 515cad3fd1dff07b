//! What a seat at the gate's table knows. These types are for contracts alone, and no value of them is made.

use std::collections::LinkedList;

/// One step on the lock word, with the number that it found.
pub enum LockStep {
    /// A ticket was drawn.
    Draw(u64),
    /// The word was loaded.
    Load(u64),
    /// A compare-exchange was made: the number expected, and the one found.
    Exchange(u64, u64),
    /// The gate was released, and the next ticket is served.
    Serve(u64),
}

/// What the pass of one number knows.
pub struct Row<E> {
    pub number: u32,
    /// A beginning of the history.
    pub seen: LinkedList<E>,
    /// The elements in it that carry the number.
    pub mine: LinkedList<E>,
}

/// The view of a seat.
pub struct View<E> {
    /// One row for a pass. The seat that deals or gathers the passes has those of many, and a spent one has none.
    pub rows: LinkedList<Row<E>>,
    /// The ticket that the seat has drawn and that isn't served to its end.
    pub ticket: Option<u64>,
    /// The seat has the slot, and with it the value.
    pub has: bool,
    /// All its steps on the lock word.
    pub steps: LinkedList<LockStep>,
}
