//! What an echo request says.

ghost use Rattle.std.specs.Prelude.{◌≡◌};

use sq_base::Addr;
use std::marker::Model;

/// An echo request that was read (RFC 792). What stands behind its checksum lies in the datagram that it was read from.
#[derive(Drop)]
pub struct Ping<'d> {
    pub(crate) src: Addr,
    pub(crate) dst: Addr,
    pub(crate) rest: &'d [u8],
}

impl<'d> Model for Ping<'d> {
    ghost use Rattle.std.specs.Prelude.{◌≤◌, length};
    ghost use Rattle.icmp_codec.specs.Limits.{most_rest};
    ghost use Rattle.icmp_codec.specs.EchoRequest.{PingOf};

    ghost Value = { PingOf };

    ghost view = { λ p. record { src = p.src; dst = p.dst; rest = p.rest.now } };

    ghost invariant = { λ p. length p.rest.now ≤ most_rest };
}

impl<'d> Ping<'d> {
    /// Who asks.
    pub fn src(&self) -> Addr
        ensures { result ≡ self.now.src }
    {
        self.src
    }

    /// Who is asked.
    pub fn dst(&self) -> Addr
        ensures { result ≡ self.now.dst }
    {
        self.dst
    }

    /// Identifier, sequence number and data, as they came: at most 65,511 bytes.
    pub fn rest(&self) -> &'d [u8]
        ensures { result.now ≡ self.now.rest }
    {
        self.rest
    }
}
