//! A pass that a thread is lent.

use turn_gate::Pass;

/// A pass in a place of its own, which a thread gets by `&mut`. It is taken out for a turn and put back afterwards.
pub struct Job<E> {
    pub pass: Option<Pass<E>>,
}
