//! What a server asks of each connection when the time comes to all.

/// What a server asks of each connection at a tick.
#[derive(Clone, Copy, Debug, PartialEq, Eq)]
pub struct Measures {
    /// Memory for text is tight: text behind a gap is forgotten.
    pub tight: bool,
    /// The server drains: the connection closes.
    pub draining: bool,
}
