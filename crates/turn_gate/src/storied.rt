//! What a value behind a gate is to have, and the traits by which a contract names what no program makes.

ghost use Rattle.std.specs.Prelude.{ℕ, List, []};

use std::marker::Brand;

/// A value that stands for a history, which is a list of `Element`s.
pub trait Storied {
    /// What a marked release says at run time of the element that it adds.
    type Mark: Copy;

    /// An element of a history. No program makes one.
    type Element;

    // In a gate made with the first value, the second stands for this history.
    ghost stands: { Self → Self → List Self.Element → Type 0 };

    // The number of the pass that adds the element.
    ghost number: { Self.Element → ℕ };
}

/// The elements that a release adds, for contracts alone. A caller passes `Brand` and picks them.
pub trait Names<E> {
    ghost elements: { List E };
}

impl<E> Names<E> for Brand {
    ghost elements = { [] };
}

/// What a seat that takes the value learns of it, for contracts alone. A step's play can't read the table's key, where
/// the first value stands, so the meaning reaches it by this parameter.
pub(crate) trait Tells<T, E> {
    ghost tells: { T → List E → Type 0 };
}

impl<T, E> Tells<T, E> for Brand {
    ghost tells = { λ _ _. Unit {0} };
}
