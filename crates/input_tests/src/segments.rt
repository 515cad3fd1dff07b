//! Where datagrams begin, and a reset behind other bytes. What bytes are read as and written stands as rows of `cases_library`.

use segment_codec::{Options, Packet, Seg, encode_into, ip_place, refusal, tuple_of};
use sq_base::{Addr, Link, Tuple};
use std::test::Fail;

const ENDS: Tuple = Tuple {
    client: Addr(0x0a00_0001),
    client_port: 4000,
    server: Addr(0x0a00_0002),
    server_port: 7,
};

/// A header of Ethernet with no tag.
const ETHERNET: [u8; 14] = [0, 0, 0, 0, 0, 0, 0, 0, 0, 0, 0, 0, 0x08, 0];

#[test]
fn places_of_datagrams(rt: HostRuntime) {
    let places = [
        (Link::Ethernet, ETHERNET.as_slice(), Ok(14)),
        (Link::Cooked, ETHERNET.as_slice(), Err(Packet::Cut)),
        (Link::RawIp, [0x60].as_slice(), Err(Packet::Other)),
    ];
    for (link, body, place) in places {
        assert_eq!(rt; ip_place(link, body), place);
    }
}

/// Two bytes, and the reset that answers a SYN, with sums that another implementation computed.
const BEHIND: [u8; 42] = [
    0x07, 0x09, 0x45, 0x00, 0x00, 0x28, 0x00, 0x00, 0x40, 0x00, 0x40, 0x06, 0x26, 0xce, 0x0a, 0x00,
    0x00, 0x02, 0x0a, 0x00, 0x00, 0x01, 0x00, 0x07, 0x0f, 0xa0, 0x00, 0x00, 0x00, 0x00, 0x00, 0x00,
    0x00, 0x65, 0x50, 0x14, 0x00, 0x00, 0x8b, 0xc2, 0x00, 0x00,
];

/// A reset behind bytes that stood in the buffer.
#[test]
fn encode_into_appends(rt: HostRuntime) -> Result<(), Fail> {
    let seg = Seg::plain(&ENDS, 2, 100, 0, 4096, 40, 0);
    let mut out = Vec::from_slice(rt.alloc(), &[7, 9])?;
    let reset = refusal(rt.alloc(), 0, &seg);
    if let Some(reset) = &reset {
        assert!(rt; reset.text.as_slice().is_empty() && reset.options == Options::none());
        encode_into(&mut out, &tuple_of(&seg), reset)?;
    }
    assert_eq!(rt; out.as_slice(), BEHIND.as_slice());
    Ok(())
}
