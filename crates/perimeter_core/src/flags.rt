//! Short lists of flags without memory of their own, for tests of the machine.
ghost use Rattle.std.specs.Prelude.{◌≡◌, ◌<◌, ◌≤◌, length, replicate, slice_index_or, slice_set, false};

use std::marker::Model;

/// At most 64 flags. Contracts see it as their list.
#[derive(Drop)]
pub struct Flags {
    flags: [bool; 64],
    len: usize,
}

impl Model for Flags {
    ghost use Rattle.std.specs.Prelude.{List, Bool, take, ◌≤◌};

    ghost Value = { List Bool };

    ghost view = { λ f. take f.len f.flags };

    ghost invariant = { λ f. f.len ≤ 64 };
}

impl Flags {
    /// `len` flags, each with this value.
    pub fn all(len: u32, value: bool) -> Flags
        requires { len ≤ 64 }
        ensures { result ≡ replicate len value }
    {
        Flags {
            flags: [value; 64],
            len: len as usize,
        }
    }

    /// How many flags there are.
    pub fn len(&self) -> usize
        ensures same { result ≡ length self.now }
        ensures few { result ≤ 64 }
    {
        self.len
    }

    /// The flag at `i`.
    pub fn get(&self, i: u32) -> bool
        requires { i < length self.now }
        ensures { result ≡ slice_index_or self.now i false }
    {
        self.flags[i as usize]
    }

    /// The same flags.
    pub fn same(&self) -> Flags
        ensures { result ≡ self.now }
    {
        Flags {
            flags: self.flags,
            len: self.len,
        }
    }

    /// The flags with this value at `i`.
    pub fn with(&self, i: u32, value: bool) -> Flags
        requires { i < length self.now }
        ensures { result ≡ slice_set self.now i value }
    {
        let mut flags = self.flags;
        flags[i as usize] = value;
        Flags {
            flags,
            len: self.len,
        }
    }
}
