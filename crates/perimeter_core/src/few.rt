//! Short lists of entries without memory of their own, for tests of the machine.
ghost use Rattle.std.specs.Prelude.{◌≡◌, ◌+◌, ◌≤◌, ◌++◌, length, take};
ghost use Rattle.perimeter_core.specs.Perimeter.{is_ask, has_ask, ends_with_ask};

use crate::entries::Entry;
use std::marker::Model;

/// At most 32 entries. Contracts see it as their list.
#[derive(Drop)]
pub struct Few {
    entries: [Entry; 32],
    len: usize,
}

impl Model for Few {
    ghost use Rattle.std.specs.Prelude.{List, take, ◌≤◌};
    ghost use Rattle.perimeter_core.specs.declared.entries.Entry.{Entry};

    ghost Value = { List Entry };

    ghost view = { λ f. take f.len f.entries };

    ghost invariant = { λ f. f.len ≤ 32 };
}

impl Few {
    /// The entries of the slice.
    pub fn of(entries: &[Entry]) -> Few
        requires { length entries.now ≤ 32 }
        ensures { result ≡ entries.now }
    {
        Few::joined(&[], entries)
    }

    /// The entries of the one slice, and then those of the other.
    pub fn joined(first: &[Entry], rest: &[Entry]) -> Few
        requires { length first.now + length rest.now ≤ 32 }
        ensures { result ≡ first.now ++ rest.now }
    {
        let mut entries = [Entry::Ask { p: 0 }; 32];
        copy_to(&mut entries, 0, first);
        copy_to(&mut entries, first.len(), rest);
        Few {
            entries,
            len: first.len() + rest.len(),
        }
    }

    /// The entries as a slice.
    pub fn as_slice(&self) -> &[Entry]
        ensures same { result.now ≡ self.now }
        ensures few { length self.now ≤ 32 }
    {
        &self.entries[..self.len]
    }
}

// Writes the list behind the first `at` entries.
fn copy_to(entries: &mut [Entry], at: usize, list: &[Entry])
    requires { at + length list.now ≤ length entries.old }
    ensures { take (at + length list.now) entries.new ≡ take at entries.old ++ list.now }
{
    for (i, e) in list.iter().enumerate() {
        entries[at + i] = *e;
    }
}

// Whether the entry is an `Ask` of the pass.
fn is_ask(entry: &Entry, p: u32) -> bool
    ensures { result ≡ is_ask p entry.now }
{
    match entry {
        Entry::Feed { .. } => false,
        Entry::Ask { p: q } => *q == p,
    }
}

/// Whether an `Ask` of the pass stands in the list.
pub fn has_ask(entries: &[Entry], p: u32) -> bool
    ensures { result ≡ has_ask p entries.now }
{
    let mut found = false;
    for e in entries {
        found = found || is_ask(e, p);
    }
    found
}

/// Whether the list ends with an `Ask` of the pass.
pub fn ends_with_ask(entries: &[Entry], p: u32) -> bool
    ensures { result ≡ ends_with_ask p entries.now }
{
    let mut ends = false;
    for e in entries {
        ends = is_ask(e, p);
    }
    ends
}
