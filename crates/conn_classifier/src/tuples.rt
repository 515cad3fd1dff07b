//! Which segments are served.

ghost use Rattle.std.specs.Prelude.{◌≡◌};
ghost use Rattle.conn_classifier.specs.Connections.{served_in};

use crate::rules::Ports;
use segment_codec::{Packet, Seg};

/// The segment that a record holds, where it goes to a served port.
pub fn served(ports: Ports, packet: &Packet) -> Option<Seg>
    ensures { result ≡ served_in ports packet.now }
{
    match packet {
        Packet::Segment(seg) if ports.is_served(seg.dst_port) => Some(*seg),
        _ => None,
    }
}
