//! The control bits of a segment (RFC 9293, 3.1), as `specs/ControlBits.antt` has them.

/// No more data from the sender.
pub const FIN: u8 = 1;

/// Synchronize sequence numbers.
pub const SYN: u8 = 2;

/// Reset the connection.
pub const RST: u8 = 4;

/// Push: the text goes to the user at once.
pub const PSH: u8 = 8;

/// The acknowledgement number counts.
pub const ACK: u8 = 16;
