//! The initial sequence number of a connection (RFC 6528).

ghost use Rattle.std.specs.Prelude.{◌≡◌};
ghost use Rattle.live_server.specs.Initial.{ends_hash, initial_number};

use byteorder::{BigEndian, ByteOrder};
use sha2::{Digest, Sha256};
use sq_base::Tuple;

/// What nobody else is to know, 16 bytes: it keys the initial sequence numbers (RFC 6528, 3).
#[derive(Clone, Copy)]
pub struct Secret(pub [u8; 16]);

/// The initial sequence number of a connection that is opened at a time in microseconds (RFC 6528, 3): a clock of four
/// microseconds, and a hash of the two ends under the secret.
#[tactic(auto, unfolding(crate::specs::Initial::initial_number), using(crate::proofs::NumberLemmas::low_sum))]
pub fn initial_number(secret: &Secret, now: u64, tuple: &Tuple) -> u32
    ensures { result ≡ initial_number secret.now.0 now tuple.now }
{
    ((now / 4 % (1 << 32)) as u32).wrapping_add(ends_hash(secret, tuple))
}

/// A hash of the two ends under the secret: the front of a SHA-256.
#[tactic(auto, unfolding(crate::specs::Initial::ends_hash))]
fn ends_hash(secret: &Secret, tuple: &Tuple) -> u32
    ensures { result ≡ ends_hash secret.now.0 tuple.now }
{
    let mut hasher = Sha256::new();
    hasher.update(&secret.0);
    hasher.update(&tuple.server.0.to_be_bytes());
    hasher.update(&tuple.server_port.to_be_bytes());
    hasher.update(&tuple.client.0.to_be_bytes());
    hasher.update(&tuple.client_port.to_be_bytes());
    BigEndian::read_u32(&hasher.finalize())
}
