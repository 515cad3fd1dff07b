ghost use Rattle.std.specs.Prelude.{◌≡◌, ◌^◌, ◌<◌, ◌≤◌, All, length, map, sum};

use moving_bank::{Transfer, settle};
use squeue::{Mode, Pool};
use std::alloc::{AllocError, Global};
use std::sync::Wait;
use std::test::*;
use std::thread::Threads;

// So much from one account to another.
fn transfer(from: u32, to: u32, amount: u32) -> Transfer
    ensures { result ≡ record { from = from; to = to; amount = amount } }
{
    Transfer { from, to, amount }
}

// The two sums of each account, for several squeues and modes: with a spread, accounts move.
fn settled_each_way<W: Threads + Wait + Sync>(
    rt: &W,
    alloc: Global,
    deposits: &[Vec<u32>],
    transfers: &[Vec<Transfer>],
) -> Result<Vec<Vec<(u64, u64)>>, AllocError>
    requires threads { length transfers.now < 10 }
    requires accounts { length deposits.now < 2 ^ 32 }
    requires deposits { sum (map (λ row. length row.items) deposits.now) ≤ 2 ^ 20 }
    requires transfers { All (λ row. length row.items ≤ 2 ^ 11) transfers.now }
    requires named { All (λ row. All (λ t. (t.from < length deposits.now) × (t.to < length deposits.now)) row.items) transfers.now }
{
    let mut all = Vec::new(alloc);
    for (squeues, spread, mode) in [
        (1, 0, Mode::Process),
        (3, 1, Mode::Process),
        (2, 1, Mode::Fill),
        (4, 2, Mode::NoDrain),
    ] {
        let mut pool = Pool::of(squeues, 2, mode, 64);
        pool.pace.homes.spread = spread;
        let statements = settle(rt, alloc, deposits, transfers, &pool)?;
        all.push(
            statements
                .iter()
                .map(|s| (s.credit, s.debit))
                .collect(alloc)?,
        )?;
    }
    Ok(all)
}

// The wanted sums were added up by hand.
#[test]
fn accounts_move_while_threads_transfer(rt: HostRuntime) -> Result<(), Fail> {
    let alloc = rt.alloc();
    let deposits = [
        [100, 20, 3].to_vec(alloc)?,
        Vec::new(alloc),
        [u32::MAX, u32::MAX, 1, 1].to_vec(alloc)?,
    ];
    let transfers = [
        [transfer(0, 1, 50), transfer(1, 2, 70), transfer(2, 2, 5)].to_vec(alloc)?,
        Vec::new(alloc),
        [transfer(2, 0, 1_000_000), transfer(1, 0, 9)].to_vec(alloc)?,
    ];
    let wanted = [
        (123 + 1_000_009, 50),
        (50, 79),
        (8_589_934_592 + 75, 1_000_005),
    ];
    for sums in settled_each_way(&rt, alloc, &deposits, &transfers)?.iter() {
        assert_eq!(rt; sums.as_slice(), wanted.as_slice());
    }
    Ok(())
}
