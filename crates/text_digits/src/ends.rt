//! Where a text goes.

use crate::digits_in;
use std::alloc::AllocError;

/// The end of a text of bytes, which grows there.
pub trait TextEnd {
    ghost use Rattle.std.specs.Prelude.{◌≡◌, ℕ, ◌+◌, ◌*◌, ◌≤◌, IsOk, OnOk, if◌then◌else◌, is_ok, length};
    ghost use Rattle.hex.specs.Hex.{encode_lower};
    ghost use Rattle.text_digits.specs.Told.{Told, more};

    /// Why a text doesn't grow.
    type Fault;

    /// The text so far, and where it goes.
    ghost told: { Self → Told };

    /// That so many bytes more can't fail.
    ghost has_room: { Self → ℕ → Type 0 };

    /// Makes room for so many bytes. The text stays as it is.
    fn reserve(&mut self, more: usize) -> Result<(), Self::Fault>
        ensures told { told self.new ≡ told self.old }
        ensures ok { OnOk result (has_room self.new more) }
        ensures succeeds { has_room self.old more → IsOk result };

    /// Appends these bytes. After an error the text is as it was.
    fn put(&mut self, bytes: &[u8]) -> Result<(), Self::Fault>
        ensures told { told self.new ≡ (if is_ok result then more (told self.old) bytes.now else told self.old) }
        ensures succeeds { has_room self.old (length bytes.now) → IsOk result }
        ensures left { (n : ℕ) → has_room self.old (length bytes.now + n) → OnOk result (has_room self.new n) };

    /// Appends each of at most 64 bytes as two hexadecimal digits, in lower case. After an error the text is as it was.
    fn put_hex(&mut self, bytes: &[u8]) -> Result<(), Self::Fault>
        requires { length bytes.now ≤ 64 }
        ensures told { told self.new ≡ (if is_ok result then more (told self.old) (encode_lower bytes.now) else told self.old) }
        ensures succeeds { has_room self.old (2 * length bytes.now) → IsOk result }
        ensures left { (n : ℕ) → has_room self.old (2 * length bytes.now + n) → OnOk result (has_room self.new n) }
    {
        let mut room = [0u8; 128];
        self.put(digits_in(&mut room, bytes))
    }

    /// Where there is room, there is room for less.
    ghost less: { (s : Self) (n m : ℕ) → has_room s (n + m) → has_room s n };
}

/// A text that grows in memory, and fails for want of it.
impl TextEnd for Vec<u8> {
    ghost use Rattle.std.specs.Prelude.{◌≤◌, ◌+◌, None, vec_capacity, vec_len};

    type Fault = AllocError;

    ghost told = { λ v. record { place = 0; was = None; faults = 0; text = v.items } };

    ghost has_room = { λ v n. vec_len v + n ≤ vec_capacity v };

    fn reserve(&mut self, more: usize) -> Result<(), AllocError> {
        Vec::reserve(self, more)
    }

    #[tactic(auto, unfolding(crate::specs::Told::more))]
    fn put(&mut self, bytes: &[u8]) -> Result<(), AllocError> {
        self.extend_from_slice(bytes)
    }

    ghost use Rattle.std.proofs.Common.{arith};

    ghost less = { λ v n m h. omega (arith, h) };
}
