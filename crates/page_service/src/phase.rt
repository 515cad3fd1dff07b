//! How far a connection's service has come.

/// How far a connection's service has come. A new connection's reads.
#[derive(Clone, Copy, Debug, PartialEq, Eq)]
pub enum Phase<A> {
    /// The next request is read, once it is whole.
    Reads,
    /// An answer is under way, of which so many bytes were offered.
    Answers {
        /// The answer.
        answer: A,
        /// How many of its bytes were offered.
        given: u64,
    },
    /// Nothing more is answered on this connection.
    Ends,
}
