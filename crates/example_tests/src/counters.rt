ghost use Rattle.std.specs.Prelude.{◌≡◌, ◌<◌, IfOk, length};

use key_counters::{count, last_reading, new_counters, totals_of};
use squeue::{Mode, Pool, Resident};
use std::alloc::{AllocError, Global};
use std::test::*;

// So many amounts, the first of them given, each one more than that before it.
fn rising(alloc: Global, first: u32, len: u32) -> Result<Vec<u32>, AllocError>
    ensures { IfOk result (λ v. length v.items ≡ len) }
{
    let mut row = Vec::new(alloc);
    for i in 0..len {
        row.push(first.saturating_add(i))?;
    }
    Ok(row)
}

// What a plain loop adds up.
fn summed(row: &[u32]) -> u64 {
    let mut sum: u64 = 0;
    for amount in row {
        sum = sum.saturating_add(u64::from(*amount));
    }
    sum
}

#[test]
fn totals_are_sums(rt: HostRuntime) -> Result<(), Fail> {
    let alloc = rt.alloc();
    let rows = [
        [1, 2, 3].to_vec(alloc)?,
        Vec::new(alloc),
        [u32::MAX, u32::MAX, 1].to_vec(alloc)?,
        rising(alloc, 5, 200)?,
        [7].to_vec(alloc)?,
        rising(alloc, 1_000_000, 70)?,
    ];
    let wanted = [6, 0, 8_589_934_591, summed(&rows[3]), 7, summed(&rows[5])];
    let ways = [
        (Mode::Process, 64),
        (Mode::Process, 1),
        (Mode::NoDrain, 64),
        (Mode::Fill, 64),
    ];
    for (squeues, rings) in [(1, 1), (1, 9), (2, 2), (4, 4), (9, 3)] {
        for (mode, budget) in ways {
            let pool = Pool::of(squeues, rings, mode, budget);
            let totals = count(&rt, alloc, &rows, &pool)?;
            assert_eq!(rt;
                totals.as_slice(),
                wanted.as_slice(),
                "{squeues} squeues, {rings} rings, budget {budget}"
            );
        }
    }
    Ok(())
}

#[test]
fn no_keys(rt: HostRuntime) -> Result<(), Fail> {
    let totals = count(&rt, rt.alloc(), &[], &Pool::of(2, 2, Mode::Process, 64))?;
    assert!(rt; totals.is_empty());
    Ok(())
}

#[test]
fn a_counter_leaves_and_comes_back(rt: HostRuntime) -> Result<(), Fail> {
    let alloc = rt.alloc();
    let rows = [[5, 6].to_vec(alloc)?, [7].to_vec(alloc)?];
    let readings: &[(u32, u32, u32)] = &[(0, 0, 0)];
    let mut counters = new_counters(alloc, &rows, readings)?;
    assert_eq!(rt; counters.conns(), 2);
    counters.feed(alloc, 0, 0);
    counters.feed(alloc, 1, 0);
    assert_eq!(rt; totals_of(&counters, alloc)?.as_slice(), [5, 7].as_slice());
    let part = counters.take_out(0);
    assert_eq!(rt; (counters.is_here(0), counters.is_here(1)), (false, true));
    assert_eq!(rt; totals_of(&counters, alloc)?.as_slice(), [0, 7].as_slice());
    assert_eq!(rt; last_reading(&counters, 0), None);
    counters.put_in(0, part);
    assert_eq!(rt; last_reading(&counters, 0), Some(0));
    counters.call(alloc, 0, 0, 0);
    counters.feed(alloc, 0, 1);
    assert_eq!(rt; totals_of(&counters, alloc)?.as_slice(), [11, 7].as_slice());
    assert_eq!(rt;
        (last_reading(&counters, 0), last_reading(&counters, 1)),
        (Some(5), Some(0))
    );
    Ok(())
}
