//! Serial numbers of 32 bits, as TCP compares them (RFC 9293, 3.4). Of two that are 2^31 apart neither is before the other.

ghost use Rattle.std.specs.Prelude.{◌≡◌, ◌+◌, ◌%◌, ◌^◌, ◌↔◌, ◌⊎◌, IsTrue};
ghost use Rattle.sq_base.specs.SerialOrder.{dist, IsBefore};

/// The number `n` after `a`, modulo 2^32.
pub fn seq_add(a: u32, n: u32) -> u32
    ensures { result ≡ (a + n) % 2 ^ 32 }
{
    a.wrapping_add(n)
}

/// How far `b` is after `a`, modulo 2^32.
pub fn seq_dist(a: u32, b: u32) -> u32
    ensures { result ≡ dist a b }
{
    b.wrapping_sub(a)
}

/// Whether `b` is 1 to 2^31 - 1 after `a`.
pub fn seq_lt(a: u32, b: u32) -> bool
    ensures { IsTrue result ↔ IsBefore a b }
{
    let d = seq_dist(a, b);
    d != 0 && d < 0x8000_0000
}

/// Whether `a` is `b` or comes before it.
pub fn seq_le(a: u32, b: u32) -> bool
    ensures { IsTrue result ↔ ((a ≡ b) ⊎ IsBefore a b) }
{
    a == b || seq_lt(a, b)
}
