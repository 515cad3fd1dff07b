//! What is dealt to groups, each of which one squeue serves, and what is left of all groups, by number.

ghost use Rattle.std.specs.Prelude.{◌≡◌, ◌≤◌, ◌+◌, ◌-◌, ◌/◌, ◌++◌, [], All, IfOk, length, min, reverse, vec_capacity};
ghost use Rattle.ring_groups.specs.Groups.{AreGroups, HaveEnded, IsEven, MayServe, many_in};

use std::alloc::{AllocError, Global};

/// What one squeue serves: before it is served, and when all of it has ended, with what is left of the squeue. `Short` is where memory was
/// missing for the squeue.
#[derive(Drop)]
pub enum Group<B, A, Z> {
    Before(Vec<B>),
    After(Vec<A>, Z),
    Short,
}

/// Deals these to so many groups, or to fewer where there are fewer of them: in order, and as evenly as may be.
pub fn deal<B: Drop, A: Drop, Z: Drop>(
    alloc: Global,
    all: Vec<B>,
    squeues: u32,
) -> Result<Vec<Group<B, A, Z>>, AllocError>
    requires { length all.items ≤ 63 }
    ensures groups { IfOk result (λ v. AreGroups all.items v.items) }
    ensures may { IfOk result (λ v. All MayServe v.items) }
    ensures even { 1 ≤ squeues → IfOk result (λ v. All (IsEven (length all.items / min squeues (length all.items))) v.items) }
    ensures many { 1 ≤ squeues → IfOk result (λ v. length v.items ≡ min squeues (length all.items)) }
{
    let mut all = all;
    let mut groups = Vec::with_capacity(alloc, all.len())?;
    let mut left = squeues as usize;
    all.reverse();
    'groups: while !all.is_empty() {
        let size = share(all.len(), left);
        let front = take_front(alloc, &mut all, size)?;
        groups.push_reserved(Group::Before(front));
        left = left.saturating_sub(1);
    }
    Ok(groups)
}

// How many of so many the next group gets, where so many groups are left.
fn share(count: usize, groups: usize) -> usize
    requires { 1 ≤ count }
    ensures fits { (1 ≤ result) × (result ≤ count) }
    ensures leaves { 1 ≤ groups → groups ≤ count → result + groups ≤ count + 1 }
    ensures few { count ≤ groups → result ≡ 1 }
    ensures last { groups ≤ 1 → result ≡ count }
    ensures value { 1 ≤ groups → result ≡ (count - 1) / groups + 1 }
{
    if groups <= 1 {
        count
    } else {
        (count - 1) / groups + 1
    }
}

// Takes so many, the first of which stands last.
fn take_front<B: Drop>(alloc: Global, all: &mut Vec<B>, size: usize) -> Result<Vec<B>, AllocError>
    requires { size ≤ length all.old.items }
    ensures taken { IfOk result (λ front. reverse all.old.items ≡ front.items ++ reverse all.new.items) }
    ensures size { IfOk result (λ front. length front.items ≡ size) }
{
    let mut front = Vec::with_capacity(alloc, size)?;
    for _n in 0..size {
        let Some(next) = all.pop() else {
            unreachable!()
        };
        front.push_reserved(next);
    }
    Ok(front)
}

/// What is left of all groups, and of their squeues, by number.
pub fn gather_all<B: Drop, A: Drop, Z: Drop>(
    groups: Vec<Group<B, A, Z>>,
    room: Vec<A>,
    squeues: Vec<Z>,
) -> Result<(Vec<A>, Vec<Z>), AllocError>
    requires room { (room.items ≡ []) × (many_in groups.items ≤ vec_capacity room) }
    requires squeues { (squeues.items ≡ []) × (length groups.items ≤ vec_capacity squeues) }
    ensures { IfOk result (λ r. HaveEnded groups.items r.0.items r.1.items) }
{
    let mut groups = groups;
    let mut all = room;
    let mut ends = squeues;
    'groups: while let Some(group) = groups.pop() {
        let Group::After(ended, end) = group else {
            return Err(AllocError);
        };
        add_all(&mut all, ended);
        ends.push_reserved(end);
    }
    all.reverse();
    ends.reverse();
    Ok((all, ends))
}

// Adds what is left of a group, the last first.
fn add_all<A: Drop>(all: &mut Vec<A>, ended: Vec<A>)
    requires { length all.old.items + length ended.items ≤ vec_capacity all.old }
    ensures added { all.new.items ≡ all.old.items ++ reverse ended.items }
    ensures room { vec_capacity all.new ≡ vec_capacity all.old }
{
    let mut ended = ended;
    'ended: while let Some(last) = ended.pop() {
        all.push_reserved(last);
    }
}
