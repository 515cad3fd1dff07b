//! From deposits and transfers to the statements of all accounts.
ghost use Rattle.std.specs.Prelude.{◌≡◌, ◌+◌, ◌^◌, ◌<◌, ◌≤◌, All, IfOk, length, map, sum, sum_by};
ghost use Rattle.squeue.specs.Works.{IsInRange};
ghost use Rattle.moving_bank.specs.Settling.{statements_of};

use crate::accounts::{Bank, Statement, Transfer};
use squeue::{Pool, calls_for, lengths, serve_called};
use std::alloc::{AllocError, Global};
use std::sync::Wait;
use std::thread::Threads;

/// The statement of each account after all its deposits and all transfers, each list of which is made by a thread of its own, in order.
/// Money is neither made nor lost. Fails only for want of memory.
///
/// # Example
///
/// ```
/// let mut pool = Pool::of(squeues, 2, mode, 64);
/// pool.pace.homes.spread = spread;
/// let statements = settle(rt, alloc, deposits, transfers, &pool)?;
/// ```
pub fn settle<W: Threads + Wait + Sync>(
    rt: &W,
    alloc: Global,
    deposits: &[Vec<u32>],
    transfers: &[Vec<Transfer>],
    pool: &Pool,
) -> Result<Vec<Statement>, AllocError>
    requires pool { IsInRange pool.now (length transfers.now) }
    requires accounts { length deposits.now < 2 ^ 32 }
    requires deposits { sum (map (λ row. length row.items) deposits.now) ≤ 2 ^ 20 }
    requires transfers { All (λ row. length row.items ≤ 2 ^ 11) transfers.now }
    requires named { All (λ row. All (λ t. (t.from < length deposits.now) × (t.to < length deposits.now)) row.items) transfers.now }
    ensures statements { IfOk result (λ v. v.items ≡ statements_of (map (λ row. row.items) deposits.now) (map (λ row. row.items) transfers.now)) }
    ensures kept { IfOk result (λ v. sum_by (λ s. s.credit) v.items
        ≡ sum_by (λ row. sum row.items) deposits.now + sum_by (λ s. s.debit) v.items) }
{
    let counts = lengths(alloc, deposits)?;
    let calls = calls_for(alloc, transfers)?;
    let bank = Bank {
        deposits,
        transfers,
    };
    let finished = serve_called(rt, alloc, pool, bank, &counts, calls)?;
    let mut statements = Vec::new(alloc);
    for c in 0..counts.len() as u32 {
        statements.push(finished.part_there(c).sums)?;
    }
    Ok(statements)
}
