//! Which datagrams are for the server.

ghost use Rattle.std.specs.Prelude.{◌≡◌};
ghost use Rattle.live_server.specs.Addresses.{first_byte, is_for_us, is_no_host, is_to_us};

use crate::setting::Setting;
use segment_codec::Seg;
use sq_base::Addr;

/// Whether a segment is to the server's own address, from another host's (RFC 9293, 3.9.2.3).
pub(crate) fn is_for_us(setting: &Setting, seg: &Seg) -> bool
    ensures { result ≡ is_for_us setting.now seg.now }
{
    is_to_us(setting, seg.src, seg.dst)
}

/// Whether what goes between these addresses does.
pub(crate) fn is_to_us(setting: &Setting, src: Addr, dst: Addr) -> bool
    ensures { result ≡ is_to_us setting.now src dst }
{
    dst.0 == setting.address.0
        && !(is_no_host(src) || src.0 == setting.address.0 || src.0 == setting.broadcast.0)
}

/// Whether an address is no host's own (RFC 1122, 3.2.1.3).
fn is_no_host(address: Addr) -> bool
    ensures { result ≡ is_no_host address.0 }
{
    let first = first_byte(address);
    first == 0 || first == 127 || first >= 224
}

fn first_byte(address: Addr) -> u32
    ensures { result ≡ first_byte address.0 }
{
    address.0 / (1 << 24)
}
