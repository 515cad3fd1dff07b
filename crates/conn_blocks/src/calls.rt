//! The calls that the application threads make.

ghost use Rattle.std.specs.Prelude.{◌≡◌, ℕ, ◌<◌, ◌≤◌, [], ◌∷◌, ◌++◌, length, map, set, Some, IfOk, OnOk, OnErr};
ghost use Rattle.conn_blocks.specs.CallLists.{AreConnsOf, calls_of, call_at, call_count, conns_called};
ghost use Rattle.conn_blocks.specs.Holding.{calls_on};
ghost use Rattle.conn_blocks.specs.Limits.{callers, most_calls};
ghost use Rattle.conn_blocks.specs.Orders.{numbers_from};

use crate::limits::MOST_CALLS;
use std::alloc::{AllocError, Global};
use std::marker::Model;
use tcb_machine::Call;

/// The calls of the four application threads, each thread's in the order in which it makes them. At most 1,024 in all.
///
/// # Example
///
/// ```
/// let mut calls = Calls::make(alloc);
/// calls.push(0, 0, Call::Status)?;
/// calls.push(0, 0, Call::Close)?;
/// calls.push(1, 0, Call::Status)?;
/// ```
#[derive(Drop)]
pub struct Calls {
    first: Vec<(u32, Call)>,
    second: Vec<(u32, Call)>,
    third: Vec<(u32, Call)>,
    fourth: Vec<(u32, Call)>,
}

impl Model for Calls {
    ghost use Rattle.std.specs.Prelude.{◌≤◌, [], ◌∷◌};
    ghost use Rattle.conn_blocks.specs.CallLists.{CallLists, call_count};
    ghost use Rattle.conn_blocks.specs.Limits.{most_calls};

    ghost Value = { CallLists };

    ghost view = { λ c. c.first.items ∷ c.second.items ∷ c.third.items ∷ c.fourth.items ∷ [] };

    ghost invariant = { λ c. call_count (c.first.items ∷ c.second.items ∷ c.third.items ∷ c.fourth.items ∷ []) ≤ most_calls };
}

/// How many of a thread's calls are on connection `c`.
fn count_of(thread: &[(u32, Call)], c: u32) -> usize
    ensures value { result ≡ length (numbers_from 0 c thread.now) }
    ensures most { result ≤ length thread.now }
{
    let mut count = 0;
    for call in thread {
        if call.0 == c {
            count += 1;
        }
    }
    count
}

/// The connection of each of a thread's calls.
fn conns_in(alloc: Global, thread: &[(u32, Call)]) -> Result<Vec<u32>, AllocError>
    ensures { IfOk result (λ v. v.items ≡ map (λ x. x.0) thread.now) }
{
    let mut conns = Vec::with_capacity(alloc, thread.len())?;
    for call in thread {
        conns.push_reserved(call.0);
    }
    Ok(conns)
}

impl Calls {
    /// No calls. Takes no memory.
    pub fn make(alloc: Global) -> Calls
        ensures { result ≡ [] ∷ [] ∷ [] ∷ [] ∷ [] }
    {
        Calls {
            first: Vec::new(alloc),
            second: Vec::new(alloc),
            third: Vec::new(alloc),
            fourth: Vec::new(alloc),
        }
    }

    /// One more call of thread `j`, on connection `c`. Unchanged after NoMemory.
    pub fn push(&mut self, j: u32, c: u32, call: Call) -> Result<(), AllocError>
        requires thread { j < callers }
        requires few { call_count self.old < most_calls }
        ensures ok { OnOk result (self.new ≡ set self.old j (calls_of self.old j ++ (c, call) ∷ [])) }
        ensures err { OnErr result (self.new ≡ self.old) }
    {
        match j {
            0 => self.first.push((c, call))?,
            1 => self.second.push((c, call))?,
            2 => self.third.push((c, call))?,
            _ => self.fourth.push((c, call))?,
        }
        Ok(())
    }

    /// How many calls thread `j` makes.
    pub fn len(&self, j: u32) -> u32
        requires { j < callers }
        ensures value { result ≡ length (calls_of self.now j) }
        ensures most { result ≤ most_calls }
        ensures threads { length self.now ≡ callers }
    {
        self.thread(j).len() as u32
    }

    /// Call `k` of thread `j`: the connection that it is on, and what is asked of it.
    pub fn get(&self, j: u32, k: u32) -> (u32, Call)
        requires thread { j < callers }
        requires call { k < length (calls_of self.now j) }
        ensures { call_at self.now j k ≡ Some result }
    {
        self.thread(j)[k as usize]
    }

    /// The calls of thread `j`.
    fn thread(&self, j: u32) -> &[(u32, Call)]
        requires { j < callers }
        ensures value { result.now ≡ calls_of self.now j }
        ensures most { length result.now ≤ most_calls }
        ensures threads { length self.now ≡ callers }
    {
        match j {
            0 => self.first.as_slice(),
            1 => self.second.as_slice(),
            2 => self.third.as_slice(),
            _ => self.fourth.as_slice(),
        }
    }

    /// The connection of each call, by thread. Fails only for want of memory.
    pub fn conns(&self, alloc: Global) -> Result<Vec<Vec<u32>>, AllocError>
        ensures { IfOk result (λ v. AreConnsOf self.now (map (λ row. row.items) v.items)) }
    {
        let first = self.conns_of(alloc, 0)?;
        let second = self.conns_of(alloc, 1)?;
        let third = self.conns_of(alloc, 2)?;
        let fourth = self.conns_of(alloc, 3)?;
        Ok(Vec::from_array(alloc, [first, second, third, fourth])?)
    }

    /// The connections of the calls of thread `j`.
    fn conns_of(&self, alloc: Global, j: u32) -> Result<Vec<u32>, AllocError>
        requires { j < callers }
        ensures conns { IfOk result (λ v. v.items ≡ conns_called self.now j) }
        ensures few { IfOk result (λ v. length v.items ≤ most_calls) }
        ensures threads { length self.now ≡ callers }
    {
        conns_in(alloc, self.thread(j))
    }

    /// How many calls are on connection `c`.
    pub fn count_on(&self, c: u32) -> usize
        ensures value { result ≡ calls_on self.now c }
        ensures most { result ≤ most_calls }
        ensures threads { length self.now ≡ callers }
    {
        count_of(self.first.as_slice(), c)
            + count_of(self.second.as_slice(), c)
            + count_of(self.third.as_slice(), c)
            + count_of(self.fourth.as_slice(), c)
    }

    /// The most calls that a thread makes.
    pub(crate) fn longest(&self) -> u32
        ensures longest { (j : ℕ) → j < callers → length (calls_of self.now j) ≤ result }
        ensures most { result ≤ most_calls }
    {
        self.len(0)
            .max(self.len(1))
            .max(self.len(2))
            .max(self.len(3))
    }
}
