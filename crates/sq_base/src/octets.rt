//! A list of bytes that stays as it was made.

ghost use Rattle.std.specs.Prelude.{◌≡◌, IfOk};

use smallvec::SmallVec;
use std::alloc::{AllocError, Global};
use std::marker::Model;

/// How many bytes take no memory of their own.
const SHORT: usize = 16;

/// A list of bytes that stays as it was made. Up to sixteen of them lie in the value itself.
#[derive(Debug, Drop)]
pub struct Octets {
    bytes: SmallVec<u8, SHORT>,
}

impl Model for Octets {
    ghost use Rattle.std.specs.Prelude.{ℕ, List};

    ghost Value = { List ℕ };

    ghost view = { λ o. o.bytes.items };
}

impl Octets {
    /// A copy of the bytes. An error says that memory for it was missing.
    pub fn of(alloc: Global, bytes: &[u8]) -> Result<Octets, AllocError>
        ensures { IfOk result (λ o. o ≡ bytes.now) }
    {
        let bytes = SmallVec::from_slice(alloc, bytes)?;
        Ok(Octets { bytes })
    }

    /// The vector's bytes. This takes no memory.
    pub fn wrap(bytes: Vec<u8>) -> Octets
        ensures { result ≡ bytes.items }
    {
        Octets {
            bytes: SmallVec::from_vec(bytes),
        }
    }

    /// The bytes, in their order.
    pub fn as_slice(&self) -> &[u8]
        ensures { result.now ≡ self.now }
    {
        self.bytes.as_slice()
    }
}
