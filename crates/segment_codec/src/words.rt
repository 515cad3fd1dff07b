//! Two words of 16 bits as one of 32, and the sums of such words (RFC 1071).

ghost use Rattle.std.specs.Prelude.{◌≡◌, ◌*◌, ◌≤◌, ◌++◌};
ghost use Rattle.byteorder.specs.Endian.{big_bytes};
ghost use Rattle.sq_base.specs.InternetSum.{word_sum, reduced};

/// Two words of 16 bits as one of 32.
pub fn joined(high: u16, low: u16) -> u32
    ensures { big_bytes 4 result ≡ big_bytes 2 high ++ big_bytes 2 low }
{
    u32::from(high) * 0x1_0000 + u32::from(low)
}

/// The sum of the two words of 16 bits.
pub fn halves(long: u32) -> u32
    ensures is { result ≡ word_sum (big_bytes 4 long) }
    ensures small { result ≤ 2 * 0xffff }
{
    (long >> 16) + (long & 0xffff)
}

/// The sum with its carries added at its end.
pub fn folded(sum: u32) -> u16
    ensures { result ≡ reduced sum }
{
    halves(halves(sum)) as u16
}
