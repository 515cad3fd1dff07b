//! What is set in the header of each datagram that is sent: TTL and DSCP.

ghost use Rattle.std.specs.Prelude.{◌≡◌, ◌≤◌, IfOk, length};
ghost use Rattle.live_server.specs.Marking.{blank, hops, is_plain, marked_bytes, traffic, with_own_sum};

use sq_base::{Octets, inet_sum};
use std::alloc::{AllocError, Global};

/// The bytes of an IPv4 header without options, as each datagram has that is sent.
const HEADER: usize = 20;

/// The usual TTL.
const USUAL_HOPS: u8 = 64;

/// What is set in the header of each datagram that is sent.
#[derive(Clone, Copy, Debug, PartialEq, Eq)]
pub struct Marking {
    /// TTL, through so many routers a datagram may go (RFC 791, 3.1). 0, which none may have, stands for the usual 64.
    pub ttl: u8,
    /// DSCP, how routers are to treat it (RFC 2474, 3): 0 to 63, and modulo 64 beyond that.
    pub dscp: u8,
}

/// The usual one: TTL 64 and DSCP 0.
pub const USUAL_MARKING: Marking = Marking { ttl: 64, dscp: 0 };

impl Marking {
    fn hops(self) -> u8
        ensures { result ≡ hops self }
    {
        if self.ttl == 0 { USUAL_HOPS } else { self.ttl }
    }

    /// The second octet of the header. The two bits of ECN are 0.
    fn traffic(self) -> u8
        ensures { result ≡ traffic self }
    {
        self.dscp % 64 * 4
    }

    fn is_plain(self) -> bool
        ensures { result ≡ is_plain self }
    {
        self.hops() == USUAL_HOPS && self.traffic() == 0
    }
}

/// The same datagram with a marking. The usual one costs nothing. An error says that memory was missing.
#[tactic(auto, unfolding(crate::specs::Marking::marked_bytes))]
pub(crate) fn marked(
    alloc: Global,
    datagram: Octets,
    marking: Marking,
) -> Result<Octets, AllocError>
    ensures { IfOk result (λ o. o ≡ marked_bytes marking datagram) }
{
    if marking.is_plain() || datagram.as_slice().len() < HEADER {
        return Ok(datagram);
    }
    let mut bytes = Vec::from_slice(alloc, datagram.as_slice())?;
    mark(&mut bytes[..], marking);
    Ok(Octets::wrap(bytes))
}

/// Sets both in a header, and its sum.
fn mark(bytes: &mut [u8], marking: Marking)
    requires { 20 ≤ length bytes.old }
    ensures { bytes.new ≡ with_own_sum (blank marking bytes.old) }
{
    bytes[1] = marking.traffic();
    bytes[8] = marking.hops();
    bytes[10] = 0;
    bytes[11] = 0;
    let sum = 0xffff - inet_sum(0, &bytes[..HEADER]);
    bytes[10] = (sum / 256) as u8;
    bytes[11] = (sum % 256) as u8;
}
