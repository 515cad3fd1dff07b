//! From a datagram to what a router says of one that was too long for it.

ghost use Rattle.std.specs.Prelude.{◌≡◌, ◌+◌, ◌≤◌, true, length};
ghost use Rattle.icmp_codec.specs.EchoRequest.{message_of};
ghost use Rattle.icmp_codec.specs.Limits.{quote_at, quoted_size};
ghost use Rattle.icmp_codec.specs.TooLong.{is_too_long, quoted_ends, too_long_in};

use crate::reading::{IP_HEADER, is_icmp, message_of, sum_holds};
use segment_codec::places::{long_at, word_at};
use sq_base::{Addr, Tuple};

/// The type of a message that a datagram didn't arrive.
pub(crate) const UNREACHABLE: u8 = 3;

/// Its code where that datagram may not be fragmented, and has to be.
pub(crate) const FRAGMENTATION_NEEDED: u8 = 4;

pub(crate) const TCP: u8 = 6;

/// Where the datagram that was dropped is quoted, and what stands behind its header.
pub(crate) const QUOTE: usize = 8;

pub(crate) const QUOTED_TEXT: usize = QUOTE + IP_HEADER;

/// The least bytes of such a message.
pub(crate) const LEAST_MESSAGE: usize = QUOTED_TEXT + 8;

/// What a router says of a segment that it dropped, since the next path takes no datagram of its length (RFC 1191).
#[derive(Clone, Copy, Debug, Drop, PartialEq, Eq)]
pub struct TooLong {
    /// Who says it.
    pub src: Addr,
    /// To whom.
    pub dst: Addr,
    /// The two ends of the segment's connection; its sender is the server.
    pub ends: Tuple,
    /// The segment's sequence number.
    pub seq: u32,
    /// How many bytes a datagram may have on the next path; 0 where the router doesn't say.
    pub mtu: u16,
}

/// What an IPv4 datagram says of a segment that was dropped as too long (RFC 792; RFC 1191, 4), or `None` where it is no such whole
/// message, or has options, or is a fragment, or one of its two checksums is wrong, or quotes another protocol than TCP.
#[tactic(auto, unfolding(crate::specs::TooLong::too_long_in, crate::specs::TooLong::told_in))]
pub fn too_long_in(body: &[u8]) -> Option<TooLong>
    ensures { result ≡ too_long_in body.now }
{
    if !is_icmp(body) {
        return None;
    }
    let message = message_of(body);
    if !is_too_long(message) {
        return None;
    }
    Some(TooLong {
        src: Addr(long_at(body, 12)),
        dst: Addr(long_at(body, 16)),
        ends: quoted_ends(message),
        seq: long_at(message, QUOTED_TEXT + 4),
        mtu: word_at(message, 6),
    })
}

/// A message that a segment was dropped as too long, whose checksum is right.
#[tactic(auto, unfolding(crate::specs::TooLong::is_too_long))]
fn is_too_long(message: &[u8]) -> bool
    ensures is { result ≡ is_too_long message.now }
    ensures whole { result ≡ true → quote_at + quoted_size ≤ length message.now }
{
    if message.len() < LEAST_MESSAGE {
        return false;
    }
    message[0] == UNREACHABLE
        && message[1] == FRAGMENTATION_NEEDED
        && message[QUOTE] == 0x45
        && message[QUOTE + 9] == TCP
        && sum_holds(message)
}

/// The two ends of the segment that is quoted.
pub(crate) fn quoted_ends(message: &[u8]) -> Tuple
    requires { quote_at + quoted_size ≤ length message.now }
    ensures { result ≡ quoted_ends message.now }
{
    Tuple {
        client: Addr(long_at(message, QUOTE + 16)),
        client_port: word_at(message, QUOTED_TEXT + 2),
        server: Addr(long_at(message, QUOTE + 12)),
        server_port: word_at(message, QUOTED_TEXT),
    }
}
