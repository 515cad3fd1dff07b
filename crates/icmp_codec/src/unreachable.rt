//! From a datagram to what a router says of one that didn't arrive.

ghost use Rattle.std.specs.Prelude.{◌≡◌, ◌+◌, ◌≤◌, true, length};
ghost use Rattle.icmp_codec.specs.Limits.{quote_at, quoted_size};
ghost use Rattle.icmp_codec.specs.Unreachable.{away_by, cause_by, quotes_segment, unreachable_in};

use crate::reading::{is_icmp, message_of, sum_holds};
use crate::too_long::{
    FRAGMENTATION_NEEDED, LEAST_MESSAGE, QUOTE, QUOTED_TEXT, TCP, UNREACHABLE, quoted_ends,
};
use segment_codec::places::long_at;
use sq_base::{Addr, Tuple};

/// The type of a message that a datagram passed too many hops, or waited too long for its other fragments.
const TIME_EXCEEDED: u8 = 11;

/// The type of a message that a field of a datagram's header is wrong.
const PARAMETER_PROBLEM: u8 = 12;

/// Why a datagram didn't arrive (RFC 792; RFC 1122, 3.2.2).
#[derive(Clone, Copy, Debug, Drop, PartialEq, Eq)]
pub enum Cause {
    /// Its network or host can't be reached: codes 0, 1, 5 to 8, 11 and 12 of type 3.
    Away,
    /// Its host has nobody for its protocol or port: codes 2 and 3.
    Port,
    /// Somebody doesn't let it pass: codes 9, 10 and 13.
    Prohibited,
    /// It passed too many hops, or waited too long for its other fragments: type 11.
    TimeExceeded,
    /// A field of its header is wrong: type 12.
    Parameter,
}

/// What a router says of a segment that didn't arrive.
#[derive(Clone, Copy, Debug, Drop, PartialEq, Eq)]
pub struct Unreachable {
    /// Who says it.
    pub src: Addr,
    /// To whom.
    pub dst: Addr,
    /// The two ends of the segment's connection; its sender is the server.
    pub ends: Tuple,
    /// The segment's sequence number.
    pub seq: u32,
    /// Why it didn't arrive.
    pub cause: Cause,
}

/// What an IPv4 datagram says of a segment that didn't arrive (RFC 792; RFC 1122, 3.2.2), or `None` where it is no such whole message, or has
/// options, or is a fragment, or one of its two checksums is wrong, or quotes another protocol than TCP. Where the segment was too long,
/// `too_long_in` tells it.
#[tactic(auto, unfolding(crate::specs::Unreachable::unreachable_in, crate::specs::Unreachable::reported_in))]
pub fn unreachable_in(body: &[u8]) -> Option<Unreachable>
    ensures { result ≡ unreachable_in body.now }
{
    if !is_icmp(body) {
        return None;
    }
    let message = message_of(body);
    if !quotes_segment(message) {
        return None;
    }
    match cause_by(message[0], message[1]) {
        Some(cause) => Some(Unreachable {
            src: Addr(long_at(body, 12)),
            dst: Addr(long_at(body, 16)),
            ends: quoted_ends(message),
            seq: long_at(message, QUOTED_TEXT + 4),
            cause,
        }),
        None => None,
    }
}

/// A message that quotes a segment, and whose checksum is right.
#[tactic(auto, unfolding(crate::specs::Unreachable::quotes_segment))]
fn quotes_segment(message: &[u8]) -> bool
    ensures is { result ≡ quotes_segment message.now }
    ensures whole { result ≡ true → quote_at + quoted_size ≤ length message.now }
{
    if message.len() < LEAST_MESSAGE {
        return false;
    }
    message[QUOTE] == 0x45 && message[QUOTE + 9] == TCP && sum_holds(message)
}

/// Why a datagram didn't arrive, by type and code.
#[tactic(auto, unfolding(crate::specs::Unreachable::cause_by))]
fn cause_by(kind: u8, code: u8) -> Option<Cause>
    ensures { result ≡ cause_by kind code }
{
    if kind == UNREACHABLE {
        away_by(code)
    } else if kind == TIME_EXCEEDED {
        Some(Cause::TimeExceeded)
    } else if kind == PARAMETER_PROBLEM {
        Some(Cause::Parameter)
    } else {
        None
    }
}

/// Why it can't be reached, by the code: `None` where it was too long.
#[tactic(auto, unfolding(crate::specs::Unreachable::away_by))]
fn away_by(code: u8) -> Option<Cause>
    ensures { result ≡ away_by code }
{
    if code == FRAGMENTATION_NEEDED || code > 13 {
        None
    } else if code == 2 || code == 3 {
        Some(Cause::Port)
    } else if code == 9 || code == 10 || code == 13 {
        Some(Cause::Prohibited)
    } else {
        Some(Cause::Away)
    }
}
