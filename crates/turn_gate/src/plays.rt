//! What each atomic step tells its caller. Each step on the lock word is noted in the view of the seat that makes it;
//! the rule can't demand it, so it is these definitions that do.

ghost use Rattle.turn_gate.specs.Rule.{tried, watched, drew, glanced, added, freed, dealt, dealt_one, joined, spent};

use crate::kept::Kept;
use crate::storied::{Names, Storied, Tells};
use crate::views::View;
use atomic_table::{Join, Play, Split};
use std::marker::PhantomData;

/// The compare-exchange of `try_hold`.
pub(crate) struct Try<T, G> {
    of: PhantomData<(T, G)>,
}

impl<T: Storied, G: Tells<T, T::Element>> Play<Option<Kept<T>>, View<T::Element>> for Try<T, G> {
    ghost then = { tried G.tells T.number };
}

/// A load by a seat that has a ticket.
pub(crate) struct Watch<T, G> {
    of: PhantomData<(T, G)>,
}

impl<T: Storied, G: Tells<T, T::Element>> Play<Option<Kept<T>>, View<T::Element>> for Watch<T, G> {
    ghost then = { watched G.tells T.number };
}

/// The fetch-add of 1 that draws a ticket.
pub(crate) struct Draw;

impl<T, E> Play<Option<Kept<T>>, View<E>> for Draw {
    ghost then = { drew };
}

/// The load of `try_hold`, by a seat without a ticket.
pub(crate) struct Glance;

impl<T, E> Play<Option<Kept<T>>, View<E>> for Glance {
    ghost then = { glanced };
}

/// The store of the count, at which the element joins the history.
pub(crate) struct Add<G> {
    of: PhantomData<G>,
}

impl<T, E, G: Names<E>> Play<Option<Kept<T>>, View<E>> for Add<G> {
    ghost then = { added G.elements };
}

/// The fetch-add of 255 that serves the next ticket.
pub(crate) struct Free;

impl<T, E> Play<Option<Kept<T>>, View<E>> for Free {
    ghost then = { freed };
}

/// The passes are dealt one by one, and gathered again.
pub(crate) struct Deal;

impl<E> Split<View<E>> for Deal {
    ghost left = { dealt };

    ghost right = { dealt_one };
}

impl<E> Join<View<E>> for Deal {
    ghost both = { joined };

    ghost spent = { spent };
}
