//! What C says of a server that it makes.

ghost use Rattle.std.specs.Prelude.{◌≡◌};
ghost use Rattle.sqtcp_c.specs.Settings.{setting_of};

use live_server::{Marking, Ports, Secret, Setting};
use sq_base::Addr;

/// What a server is opened with, in host byte order. Port 0 says that a service isn't had.
#[repr(C)]
#[derive(Clone, Copy)]
pub struct SqtcpSetting {
    /// How long a connection from which nothing comes stays in a full table, in microseconds.
    pub idle: u64,
    /// How many bytes of text all connections may hold: what was received and not taken, and what is sent and not acknowledged.
    pub bytes: u64,
    /// How many connections are kept at once.
    pub places: u64,
    /// What nobody else is to know: it keys the initial sequence numbers (RFC 6528, 3).
    pub secret: [u8; 16],
    /// The IPv4 address that it answers for.
    pub address: u32,
    /// The broadcast address of its network, which is no host's.
    pub broadcast: u32,
    /// How many echo requests are answered from one tick to the next.
    pub pings: u32,
    /// The address of the host whose orders it obeys, or 0 for nobody.
    pub host: u32,
    /// How many bytes of text a segment has at most that is sent, or 64 where that is more.
    pub segment: u16,
    /// The port of echo (RFC 862).
    pub echo: u16,
    /// The port of discard (RFC 863).
    pub discard: u16,
    /// The port of daytime (RFC 867).
    pub daytime: u16,
    /// The port of the character generator (RFC 864).
    pub chargen: u16,
    /// TTL of each datagram that is sent, or 0 for 64.
    pub ttl: u8,
    /// DSCP (RFC 2474) of each: 0 to 63, and modulo 64 beyond that.
    pub dscp: u8,
}

impl SqtcpSetting {
    /// The server's setting. It has no pages.
    pub(crate) fn setting(&self) -> Setting
        ensures { result ≡ setting_of self.now }
    {
        Setting {
            address: Addr(self.address),
            broadcast: Addr(self.broadcast),
            places: self.places as usize,
            idle: self.idle,
            bytes: self.bytes,
            segment: self.segment,
            marking: Marking {
                ttl: self.ttl,
                dscp: self.dscp,
            },
            pings: self.pings,
            ports: Ports {
                echo: self.echo,
                discard: self.discard,
                daytime: self.daytime,
                chargen: self.chargen,
                web: 0,
            },
            site: None,
            host: match self.host {
                0 => None,
                host => Some(Addr(host)),
            },
        }
    }

    /// The server's secret.
    pub(crate) fn secret(&self) -> Secret
        ensures { result.0 ≡ self.now.secret }
    {
        Secret(self.secret)
    }
}
