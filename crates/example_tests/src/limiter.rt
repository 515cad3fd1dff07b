ghost use Rattle.std.specs.Prelude.{◌^◌, ◌<◌, ◌≤◌, length, map, sum};

use key_limiter::{Limit, decide};
use squeue::{Mode, Pool};
use std::alloc::{AllocError, Global};
use std::sync::Wait;
use std::test::*;
use std::thread::Threads;

// What passed, by key, with two rings, whose requests are entered in another way each time.
fn passed_each_way<W: Threads + Wait + Sync>(
    rt: &W,
    alloc: Global,
    rows: &[Vec<u32>],
    token: u32,
    most: u32,
) -> Result<Vec<Vec<Vec<bool>>>, AllocError>
    requires keys { length rows.now < 2 ^ 32 }
    requires items { sum (map (λ row. length row.items) rows.now) ≤ 2 ^ 30 }
{
    let mut all = Vec::new(alloc);
    for (squeues, mode, budget) in [
        (1, Mode::Process, 64),
        (2, Mode::NoDrain, 1),
        (3, Mode::Fill, 64),
    ] {
        let pool = Pool::of(squeues, 2, mode, budget);
        let limit = Limit { token, most };
        let passed = decide(rt, alloc, rows, limit, &pool)?;
        all.push(passed)?;
    }
    Ok(all)
}

// The wanted values are those of a model outside of the library, which counts in fractions of a token.
#[test]
fn each_key_by_its_own_requests(rt: HostRuntime) -> Result<(), Fail> {
    let alloc = rt.alloc();
    let rows = [
        [0, 1, 2, 3, 10, 12, 100].to_vec(alloc)?,
        Vec::new(alloc),
        [5, 5, 5, 5, 50, 51, 52, 53].to_vec(alloc)?,
        [7].to_vec(alloc)?,
    ];
    let wanted = [
        [true, true, true, false, true, false, true].to_vec(alloc)?,
        Vec::new(alloc),
        [true, true, true, false, true, true, true, false].to_vec(alloc)?,
        [true].to_vec(alloc)?,
    ];
    for passed in passed_each_way(&rt, alloc, &rows, 10, 30)?.iter() {
        assert_eq!(rt; passed.as_slice(), wanted.as_slice());
    }
    Ok(())
}

#[test]
fn a_bucket_that_holds_no_whole_token(rt: HostRuntime) -> Result<(), Fail> {
    let alloc = rt.alloc();
    let rows = [[0, 10, 1000].to_vec(alloc)?];
    let wanted = [[false, false, false].to_vec(alloc)?];
    for passed in passed_each_way(&rt, alloc, &rows, 10, 9)?.iter() {
        assert_eq!(rt; passed.as_slice(), wanted.as_slice());
    }
    Ok(())
}

#[test]
fn times_that_go_back_and_great_ones(rt: HostRuntime) -> Result<(), Fail> {
    let alloc = rt.alloc();
    let back = [[0, 0, 0, 3, 5, 6, 6, 30, 20, 31, 31, 31].to_vec(alloc)?];
    let wanted = [[
        true, true, false, true, true, false, false, true, true, false, false, false,
    ]
    .to_vec(alloc)?];
    for passed in passed_each_way(&rt, alloc, &back, 3, 7)?.iter() {
        assert_eq!(rt; passed.as_slice(), wanted.as_slice());
    }
    let great = [[0, u32::MAX - 1, u32::MAX, u32::MAX].to_vec(alloc)?];
    let wanted = [[true, false, true, false].to_vec(alloc)?];
    for passed in passed_each_way(&rt, alloc, &great, u32::MAX, u32::MAX)?.iter() {
        assert_eq!(rt; passed.as_slice(), wanted.as_slice());
    }
    Ok(())
}
