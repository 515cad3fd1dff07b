//! A list of marks, and the entries that they entered.
ghost use Rattle.perimeter_core.specs.declared.entries.Feed.{Feed};
ghost use Rattle.std.specs.Prelude.{◌≡◌, ℕ, List, ◌+◌, ◌<◌, ◌≤◌, [], ◌∷◌, ◌++◌, length, slice_index_or, IfOk};
ghost use Rattle.perimeter_core.specs.declared.entries.Entry.{Entry};
ghost use Rattle.perimeter_core.specs.Deeds.{entries, entries_of};
ghost use Rattle.squeue_state.specs.declared.trace.TraceMark.{TraceMark};
ghost use Rattle.perimeter_core.specs.Kinds.{fast_entry, mark_by};
ghost use Rattle.squeue_state.specs.Told.{marks_of, mark_of, noted_entries, IsBare, Within};

use perimeter_core::{Entry, Feed, Kind, SynchAct};
use std::alloc::{AllocError, Global};
use std::marker::Model;

/// One mark of a history. The first number is the pass that makes it; `first` and `len` name a part of the trace's entries.
#[derive(Clone, Copy, Debug, PartialEq, Eq)]
pub enum TraceMark {
    /// Entries were queued.
    Fill { p: u32, first: u64, len: u64 },
    /// One entry was taken at once.
    Fast { p: u32, first: u64 },
    /// Entries were queued, and the whole queue was taken.
    Claim { p: u32, first: u64, len: u64 },
    /// The owner took the queue.
    Take { p: u32 },
    /// The owner left with so many entries unprocessed, and with what it did.
    Leave { p: u32, rest: u64, act: SynchAct },
    /// The pass waits for its turn as owner.
    Ask { p: u32 },
    /// The owner handed the perimeter to pass `j`, with so many entries unprocessed.
    Grant { p: u32, j: u32, rest: u64 },
    /// The pass to which the perimeter was granted is owner.
    Accept { j: u32 },
    /// The worker took the queue.
    Work { p: u32 },
    /// The pass enters no more.
    Close { p: u32 },
}

/// Marks in the order in which they were made. Contracts see the marks, the entries that they name, and the room. A squeue
/// made without `trace` gives an empty one.
#[derive(Drop)]
pub struct Trace {
    marks: Vec<TraceMark>,
    entries: Vec<Entry>,
}

impl Model for Trace {
    ghost use Rattle.std.specs.Prelude.{length, vec_capacity};
    ghost use Rattle.squeue_state.specs.Told.{Traced, AllWithin};

    ghost Value = { Traced };

    ghost view = { λ t. record { marks = t.marks.items; entries = t.entries.items; mark_room = vec_capacity t.marks; entry_room = vec_capacity t.entries } };

    ghost invariant = { λ t. AllWithin (length t.entries.items) t.marks.items };
}

impl Trace {
    /// An empty trace with room for so many marks and entries. Fails only for want of memory.
    pub fn with_room(alloc: Global, marks: usize, entries: usize) -> Result<Trace, AllocError>
        ensures empty { IfOk result (λ t. (t.marks ≡ []) × (t.entries ≡ [])) }
        ensures room { IfOk result (λ t. (t.mark_room ≡ marks) × (t.entry_room ≡ entries)) }
    {
        let marks = Vec::with_capacity(alloc, marks)?;
        let entries = Vec::with_capacity(alloc, entries)?;
        Ok(Trace { marks, entries })
    }

    /// How many marks there are.
    pub fn len(&self) -> u64
        ensures { result ≡ length self.now.marks }
    {
        self.marks.len() as u64
    }

    /// The mark at `i`, counted from 0. The places that it names are there.
    pub fn mark(&self, i: u64) -> TraceMark
        requires { i < length self.now.marks }
        ensures mark { (d : TraceMark) → result ≡ slice_index_or self.now.marks i d }
        ensures places { Within (length self.now.entries) result }
    {
        self.marks[i as usize]
    }

    /// The entry at a place that a mark names.
    pub fn entry(&self, i: u64) -> Entry
        requires { i < length self.now.entries }
        ensures { (d : Entry) → result ≡ slice_index_or self.now.entries i d }
    {
        self.entries[i as usize]
    }

    // Keeps one more entry.
    fn enter(&mut self, e: Entry)
        requires { length self.old.entries < self.old.entry_room }
        ensures entries { self.new.entries ≡ self.old.entries ++ e ∷ [] }
        ensures told { marks_of self.new ≡ marks_of self.old }
        ensures same { (self.new.marks ≡ self.old.marks) × (self.new.mark_room ≡ self.old.mark_room) × (self.new.entry_room ≡ self.old.entry_room) }
    {
        self.entries.push_reserved(e);
    }

    // Keeps the feeds as entries.
    fn enter_feeds(&mut self, es: &[Feed])
        requires { length self.old.entries + length es.now ≤ self.old.entry_room }
        ensures entries { self.new.entries ≡ self.old.entries ++ entries es.now }
        ensures told { marks_of self.new ≡ marks_of self.old }
        ensures same { (self.new.marks ≡ self.old.marks) × (self.new.mark_room ≡ self.old.mark_room) × (self.new.entry_room ≡ self.old.entry_room) }
    {
        for f in es {
            self.enter(Entry::Feed { c: f.c, n: f.n });
        }
    }

    // Enters what a mark enters, and gives the mark.
    fn told(&mut self, p: u32, kind: Kind, es: &[Feed]) -> TraceMark
        requires { length self.old.entries + length (entries_of (mark_by p kind es.now)) ≤ self.old.entry_room }
        ensures mark { mark_of self.new.entries result ≡ mark_by p kind es.now }
        ensures places { Within (length self.new.entries) result }
        ensures entries { self.new.entries ≡ self.old.entries ++ noted_entries kind (mark_by p kind es.now) }
        ensures told { marks_of self.new ≡ marks_of self.old }
        ensures same { (self.new.marks ≡ self.old.marks) × (self.new.mark_room ≡ self.old.mark_room) × (self.new.entry_room ≡ self.old.entry_room) }
    {
        let first = self.entries.len() as u64;
        let len = es.len() as u64;
        match kind {
            Kind::Fill => {
                self.enter_feeds(es);
                TraceMark::Fill { p, first, len }
            }
            Kind::Fast => {
                self.enter(fast_entry(p, es));
                TraceMark::Fast { p, first }
            }
            Kind::Claim => {
                self.enter_feeds(es);
                TraceMark::Claim { p, first, len }
            }
            Kind::ClaimAsk => {
                self.enter(Entry::Ask { p });
                TraceMark::Claim { p, first, len: 1 }
            }
            _ => bare(p, kind),
        }
    }

    /// Notes a mark of the pass, by its kind and the feeds that it enters, in room that was taken before.
    pub fn note(&mut self, p: u32, kind: Kind, es: &[Feed])
        requires marks { length self.old.marks < self.old.mark_room }
        requires entries { length self.old.entries + length (entries_of (mark_by p kind es.now)) ≤ self.old.entry_room }
        ensures noted { marks_of self.new ≡ marks_of self.old ++ mark_by p kind es.now ∷ [] }
        ensures entered { length self.new.entries ≤ length self.old.entries + length (entries_of (mark_by p kind es.now)) }
        ensures room { (self.new.mark_room ≡ self.old.mark_room) × (self.new.entry_room ≡ self.old.entry_room) }
    {
        let mark = self.told(p, kind, es);
        self.marks.push_reserved(mark);
    }
}

// The one entry of a Fast.
fn fast_entry(p: u32, es: &[Feed]) -> Entry
    ensures { result ≡ fast_entry p es.now }
{
    match es {
        [f, ..] => Entry::Feed { c: f.c, n: f.n },
        [] => Entry::Ask { p },
    }
}

// A mark that names no entry.
fn bare(p: u32, kind: Kind) -> TraceMark
    requires { IsBare kind }
    ensures mark { (es : List Entry) (fs : List Feed) → mark_of es result ≡ mark_by p kind fs }
    ensures places { (n : ℕ) → Within n result }
    ensures none { (fs : List Feed) → noted_entries kind (mark_by p kind fs) ≡ [] }
{
    match kind {
        Kind::Take => TraceMark::Take { p },
        Kind::Leave { rest, act } => TraceMark::Leave { p, rest, act },
        Kind::Ask => TraceMark::Ask { p },
        Kind::Grant { j, rest } => TraceMark::Grant { p, j, rest },
        Kind::Accept => TraceMark::Accept { j: p },
        Kind::Work => TraceMark::Work { p },
        Kind::Close => TraceMark::Close { p },
        _ => unreachable!(),
    }
}
