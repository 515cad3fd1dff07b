//! The pattern.

ghost use Rattle.std.specs.Prelude.{◌≡◌, length, IfOk};
ghost use Rattle.echo_services.specs.Chargen.{pattern, pattern_from};

use std::alloc::{AllocError, Global};

/// Byte `i` of the pattern: the printable characters of ASCII, from the space to the tilde, again and again (RFC 864).
pub fn pattern(i: u64) -> u8
    ensures { result ≡ pattern i }
{
    32 + (i % 95) as u8
}

/// The next `n` bytes of the pattern, from number `from` on.
#[tactic(auto, using(crate::proofs::PatternLemmas::pattern_length))]
pub(crate) fn pattern_text(alloc: Global, from: u16, n: u16) -> Result<Vec<u8>, AllocError>
    ensures text { IfOk result (λ text. text.items ≡ pattern_from from n) }
    ensures len { IfOk result (λ text. length text.items ≡ n) }
{
    let mut text = Vec::with_capacity(alloc, usize::from(n))?;
    for i in 0..n {
        text.push(pattern(u64::from(from) + u64::from(i)))?;
    }
    Ok(text)
}
