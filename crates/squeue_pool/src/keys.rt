//! How many feeds there are, the lists of the rings, and the quotas of the squeues, where each connection has so many feeds, nobody moves, and nobody calls.
ghost use Rattle.std.specs.Prelude.{◌≡◌, ◌<◌, ◌≤◌, ◌^◌, ◌++◌, All, IfOk, OnOk, length, map};
ghost use Rattle.histories.specs.Quotas.{pairs};
ghost use Rattle.histories.specs.Runs.{count, is_at};
ghost use Rattle.histories.specs.Lists.{items_of, list_of};
ghost use Rattle.squeue_pool.specs.Keys.{key_lists, key_quotas, quotas_at};

use perimeter_core::Feed;
use squeue_state::Quota;
use std::alloc::{AllocError, Global};

/// How many items each row has. Fails only for want of memory.
pub fn lengths<T>(alloc: Global, rows: &[Vec<T>]) -> Result<Vec<u32>, AllocError>
    requires { All (λ row. length row.items < 2 ^ 32) rows.now }
    ensures { IfOk result (λ v. v.items ≡ map (λ row. length row.items) rows.now) }
{
    let mut counts = Vec::new(alloc);
    for row in rows {
        counts.push(row.len() as u32)?;
    }
    Ok(counts)
}

/// For each of so many rings the feeds of its connections, one connection after another. Connection `c` is ring `c % rings`'s.
/// Fails only for want of memory.
pub fn key_lists(alloc: Global, counts: &[u32], rings: u32) -> Result<Vec<Vec<Feed>>, AllocError>
    requires rings { 1 ≤ rings }
    requires few { length counts.now < 2 ^ 32 }
    ensures { IfOk result (λ v. map (λ list. list.items) v.items ≡ key_lists rings counts.now) }
{
    let mut lists = Vec::new(alloc);
    for ring in 0..rings {
        lists.push(key_list(alloc, counts, rings, ring)?)?;
    }
    Ok(lists)
}

// The feeds of one ring's connections.
fn key_list(alloc: Global, counts: &[u32], rings: u32, ring: u32) -> Result<Vec<Feed>, AllocError>
    requires rings { 1 ≤ rings }
    requires few { length counts.now < 2 ^ 32 }
    ensures { IfOk result (λ v. v.items ≡ list_of rings ring 0 counts.now) }
{
    let mut list = Vec::new(alloc);
    for c in 0..counts.len() {
        if c as u32 % rings == ring {
            push_items(&mut list, c as u32, counts[c])?;
        }
    }
    Ok(list)
}

// Adds the feeds of one connection.
fn push_items(list: &mut Vec<Feed>, c: u32, count: u32) -> Result<(), AllocError>
    ensures { OnOk result (list.new.items ≡ list.old.items ++ items_of c 0 count) }
{
    for n in 0..count {
        list.push(Feed { c, n })?;
    }
    Ok(())
}

/// For each of so many squeues what each ring may enter there: the feeds of its list that are at home there. Fails only for want of
/// memory.
pub fn key_quotas(
    alloc: Global,
    lists: &[Vec<Feed>],
    squeues: u32,
) -> Result<Vec<Vec<Quota>>, AllocError>
    requires { All (λ list. length list.items < 2 ^ 32) lists.now }
    ensures { IfOk result (λ v. map (λ quotas. pairs quotas.items) v.items ≡ key_quotas squeues (map (λ list. list.items) lists.now)) }
{
    let mut quotas = Vec::new(alloc);
    for q in 0..squeues {
        quotas.push(quotas_at(alloc, lists, squeues, q)?)?;
    }
    Ok(quotas)
}

// What each ring may enter at squeue `q`.
fn quotas_at(
    alloc: Global,
    lists: &[Vec<Feed>],
    squeues: u32,
    q: u32,
) -> Result<Vec<Quota>, AllocError>
    requires squeue { q < squeues }
    requires few { All (λ list. length list.items < 2 ^ 32) lists.now }
    ensures { IfOk result (λ v. pairs v.items ≡ quotas_at squeues (map (λ list. list.items) lists.now) q) }
{
    let mut quotas = Vec::new(alloc);
    for list in lists {
        let feeds = feeds_at(list, squeues, q);
        quotas.push(Quota { feeds, asks: 0 })?;
    }
    Ok(quotas)
}

// How many of these feeds are at home at squeue `q`.
fn feeds_at(list: &[Feed], squeues: u32, q: u32) -> u32
    requires squeue { q < squeues }
    requires few { length list.now < 2 ^ 32 }
    ensures { result ≡ count (is_at squeues 0 q) list.now }
{
    let mut feeds = 0;
    for feed in list {
        if feed.c % squeues == q {
            feeds += 1;
        }
    }
    feeds
}
