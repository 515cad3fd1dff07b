//! What of a record is served, and of which stream it is.

ghost use Rattle.std.specs.Prelude.{◌≡◌, ◌<◌, ◌^◌, length};
ghost use Rattle.stream_plan.specs.Streams.{served_in, served_tcp, served_udp, tuple_of};

use crate::kinds::Found;
use segment_codec::{Packet, decode};
use sq_base::{CHARGEN_PORT, Link, Tuple, is_served_udp};
use udp_codec::{Udp, decode_udp};

/// What a record holds, where it is served.
pub fn served(link: Link, body: &[u8]) -> Option<Found>
    requires { length body.now < 2 ^ 32 }
    ensures { result ≡ served_in link body.now }
{
    match decode_udp(link, body) {
        Some(udp) => served_udp(udp),
        None => served_tcp(&decode(link, body, false)),
    }
}

fn served_udp(udp: Udp) -> Option<Found>
    ensures { result ≡ served_udp udp }
{
    if is_served_udp(udp.dst_port) {
        Some(Found::Datagram(udp))
    } else {
        None
    }
}

fn served_tcp(packet: &Packet) -> Option<Found>
    ensures { result ≡ served_tcp packet.now }
{
    match packet {
        Packet::Segment(seg) if seg.dst_port == CHARGEN_PORT => Some(Found::Segment(*seg)),
        _ => None,
    }
}

/// The stream: the source is the client, the destination the server.
pub fn tuple_of(found: &Found) -> Tuple
    ensures { result ≡ tuple_of found.now }
{
    match found {
        Found::Datagram(udp) => Tuple {
            client: udp.src,
            client_port: udp.src_port,
            server: udp.dst,
            server_port: udp.dst_port,
        },
        Found::Segment(seg) => Tuple {
            client: seg.src,
            client_port: seg.src_port,
            server: seg.dst,
            server_port: seg.dst_port,
        },
    }
}
