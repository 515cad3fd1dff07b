//! An example of what rings share: bytes are written behind one another.
ghost use Rattle.std.specs.Prelude.{◌≡◌, []};

use crate::shared::Shared;
use std::alloc::Global;

/// Bytes of several rings, those of a parcel behind one another. A parcel goes back empty where it was written, and as it came where memory
/// was missing.
#[derive(Drop)]
pub struct Written {
    out: Vec<u8>,
}

impl Written {
    ghost use Rattle.shards.specs.Writing.{IsWritten, bytes_of};

    /// Nothing was written.
    pub fn nothing(alloc: Global) -> Written
        ensures { IsWritten [] result }
    {
        Written {
            out: Vec::new(alloc),
        }
    }

    /// The bytes, oldest first.
    pub fn bytes(&self) -> &[u8]
        ensures { result.now ≡ bytes_of self.now }
    {
        self.out.as_slice()
    }
}

impl Shared for Written {
    ghost use Rattle.shards.specs.Writing.{IsWritten};

    type Parcel = Vec<u8>;

    type Origin = ();

    ghost origin = { λ w. tt };

    ghost is_made = { IsWritten };

    fn take(&mut self, _alloc: Global, _ring: u32, parcel: &mut Vec<u8>) {
        if self.out.extend_from_slice(parcel.as_slice()).is_ok() {
            parcel.clear();
        }
    }
}
