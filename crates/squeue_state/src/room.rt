//! The room that a squeue takes when it is made, and buffers that never grow.
ghost use Rattle.std.specs.Prelude.{◌≡◌, ℕ, ◌+◌, ◌*◌, ◌≤◌, ◌++◌, length, drop};
ghost use Rattle.std.specs.Prelude.{replicate, false, slice_index_or, is_some, vec_len, vec_capacity, IfOk};
ghost use Rattle.perimeter_core.specs.Deeds.{entries};
ghost use Rattle.perimeter_core.specs.History.{all_quotas, feed_quotas};
ghost use Rattle.perimeter_core.specs.Blocks.{Blocks};
ghost use Rattle.histories.specs.Limits.{most_asks, most_feeds, most_quotas};
ghost use Rattle.squeue_state.specs.Behind.{ever, room_of};
ghost use Rattle.histories.specs.Quotas.{pairs, ask_quotas};

use crate::guarded::Life;
use histories::Quota;
use perimeter_core::{Entry, Feed, Resident};
use std::alloc::{AllocError, Global};

/// Queues feeds, in room that was made before.
pub(crate) fn queue_feeds(chain: &mut Vec<Entry>, es: &[Feed])
    requires { vec_len chain.old + length es.now ≤ vec_capacity chain.old }
    ensures items { chain.new.items ≡ chain.old.items ++ entries es.now }
    ensures room { vec_capacity chain.new ≡ vec_capacity chain.old }
{
    for f in es {
        chain.push_reserved(Entry::Feed { c: f.c, n: f.n });
    }
}

/// Appends entries, in room that was made before.
pub(crate) fn append(chain: &mut Vec<Entry>, es: &[Entry])
    requires { vec_len chain.old + length es.now ≤ vec_capacity chain.old }
    ensures items { chain.new.items ≡ chain.old.items ++ es.now }
    ensures room { vec_capacity chain.new ≡ vec_capacity chain.old }
{
    for e in es {
        chain.push_reserved(*e);
    }
}

/// What is left of the hand from `at` on, and then the chain.
pub(crate) fn put_back(entries: Vec<Entry>, at: usize, chain: &[Entry]) -> Vec<Entry>
    requires at { at ≤ vec_len entries }
    requires room { length (drop at entries.items) + length chain.now ≤ vec_capacity entries }
    ensures queue { result.items ≡ drop at entries.items ++ chain.now }
    ensures room { vec_capacity result ≡ vec_capacity entries }
{
    let mut queue = entries;
    if at == queue.len() {
        queue.clear();
    } else {
        queue.drain(..at);
    }
    append(&mut queue, chain);
    queue
}

/// How much may come: the entries that may be queued at once, and all marks and all entries of a history.
#[derive(Clone, Copy)]
pub(crate) struct Room {
    pub queue: usize,
    pub marks: usize,
    pub entries: usize,
}

/// The room that these quotas need.
pub(crate) fn room_for(quotas: &[Quota]) -> Room
    requires few { length quotas.now ≤ most_quotas }
    requires feeds { feed_quotas (pairs quotas.now) ≤ most_feeds }
    requires asks { ask_quotas (pairs quotas.now) ≤ most_asks }
    ensures queue { result.queue ≡ room_of (pairs quotas.now) }
    ensures marks { result.marks ≡ 8 * all_quotas (pairs quotas.now) + 4 * (length quotas.now + 1) }
    ensures entries { result.entries ≡ all_quotas (pairs quotas.now) }
{
    let mut feeds = 0;
    let mut asks = 0;
    for quota in quotas {
        feeds += quota.feeds as usize;
        asks += quota.asks as usize;
    }
    let passes = quotas.len() + 1;
    Room {
        queue: feeds + passes,
        marks: 8 * (feeds + asks) + 4 * passes,
        entries: feeds + asks,
    }
}

/// The quotas as lives.
pub(crate) fn lives_of(alloc: Global, quotas: &[Quota]) -> Result<Vec<Life>, AllocError>
    ensures { IfOk result (λ v. ever v.items ≡ pairs quotas.now) }
{
    let mut lives = Vec::with_capacity(alloc, quotas.len())?;
    for quota in quotas {
        lives.push_reserved(Life {
            feeds: u64::from(quota.feeds),
            asks: quota.asks,
        });
    }
    Ok(lives)
}

/// Flags, none of them set.
pub(crate) fn flags(alloc: Global, n: usize) -> Result<Vec<bool>, AllocError>
    ensures { IfOk result (λ v. v.items ≡ replicate n false) }
{
    let mut flags = Vec::with_capacity(alloc, n)?;
    for _k in 0..n {
        flags.push_reserved(false);
    }
    Ok(flags)
}

/// For each connection, whether its block is here.
pub(crate) fn here_flags<R: Resident>(alloc: Global, resident: &R) -> Result<Vec<bool>, AllocError>
    ensures length { IfOk result (λ v. length v.items ≡ R.size resident.now) }
    ensures here { IfOk result (λ v. (blocks : Blocks) (c : ℕ) → R.stands resident.now blocks → slice_index_or v.items c false ≡ is_some (blocks c)) }
{
    let conns = resident.conns();
    let mut flags = Vec::with_capacity(alloc, conns as usize)?;
    for c in 0..conns {
        flags.push_reserved(resident.is_here(c));
    }
    Ok(flags)
}
