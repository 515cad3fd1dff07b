//! The well-known ports of the services.

ghost use Rattle.std.specs.Prelude.{◌≡◌};
ghost use Rattle.sq_base.specs.Ports.{is_served_port, is_served_udp_port};

/// Echo, over TCP and UDP (RFC 862).
pub const ECHO_PORT: u16 = 7;

/// Discard, over TCP and UDP (RFC 863).
pub const DISCARD_PORT: u16 = 9;

/// The character generator, over TCP (RFC 864).
pub const CHARGEN_PORT: u16 = 19;

/// Whether a service over TCP has this port: echo or discard.
pub fn is_served(port: u16) -> bool
    ensures { result ≡ is_served_port port }
{
    port == ECHO_PORT || port == DISCARD_PORT
}

/// Whether a service over UDP has this port: echo or discard.
pub fn is_served_udp(port: u16) -> bool
    ensures { result ≡ is_served_udp_port port }
{
    port == ECHO_PORT || port == DISCARD_PORT
}
