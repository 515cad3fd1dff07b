//! What is sent to a datagram.

use sq_base::Octets;

/// An answer: when it is sent, in microseconds, and its IPv4 datagram.
#[derive(Debug, Drop)]
pub struct SentDatagram {
    pub at: u64,
    pub datagram: Octets,
}
