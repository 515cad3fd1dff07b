ghost use Rattle.std.specs.Prelude.{◌≡◌, ◌≤◌, ◌<◌, ◌^◌};
ghost use Rattle.turn_gate.specs.Gates.{gate_id};
ghost use Rattle.turn_gate.specs.Passes.{IsPassOf, number};
ghost use Rattle.gate_trial.specs.Diary.{writer};

use gate_trial::{Diary, Line, Unshared, count_all, lend, take_back, write_all};
use std::alloc::Global;
use std::cell::Cell;
use std::process::Abort;
use std::sync::Wait;
use std::test::*;
use std::thread::Threads;
use turn_gate::{Gate, Missed, Pass};

#[test]
fn gate_taken_and_ticket_numbers(rt: HostRuntime) -> Result<(), Fail> {
    let diary = Diary::with_room(rt.alloc(), 1)?;
    let (gate, mut passes) = Gate::make(rt.alloc(), diary, 2)?;
    let Some(one) = passes.pop() else {
        unreachable!()
    };
    let Some(zero) = passes.pop() else {
        unreachable!()
    };
    let held = gate.hold(&rt, zero);
    assert_eq!(rt; (held.count(), held.number()), (0, 0));
    let one = misses(&rt, &gate, one, 0, 1);
    let zero = Diary::write(&gate, held, 7);
    let held = gate.hold(&rt, zero);
    assert_eq!(rt; held.count(), 1);
    let one = misses(&rt, &gate, one, 256, 257);
    let zero = gate.release_plain(held);
    let held = match gate.try_hold(one) {
        Ok(held) => held,
        Err(_) => panic!(rt; "nobody holds the gate"),
    };
    assert_eq!(rt; (held.count(), held.number()), (1, 1));
    let one = gate.release_plain(held);
    assert_eq!(rt; (zero.number(), one.number()), (0, 1));
    passes.push_reserved(zero);
    passes.push_reserved(one);
    let diary = gate.close(passes);
    let [line] = diary.lines() else {
        panic!(rt; "one line was written")
    };
    assert_eq!(rt; (line.by, line.nth), (0, 7));
    Ok(())
}

// The gate is held, and `try_hold` shows these two numbers.
fn misses<R: Abort>(
    rt: &R,
    gate: &Gate<Diary>,
    pass: Pass<Line>,
    free: u64,
    taken: u64,
) -> Pass<Line>
    requires { IsPassOf writer (gate_id gate.now) pass }
    ensures { IsPassOf writer (gate_id gate.now) result × (number result ≡ number pass) }
{
    match gate.try_hold(pass) {
        Ok(_) => panic!(rt; "the gate is held"),
        Err(
            Missed {
                pass,
                expected,
                found,
            },
        ) => {
            assert_eq!(rt; (expected, found), (free, taken));
            pass
        }
    }
}

#[test]
fn try_hold_finds_the_gate_free(rt: HostRuntime) -> Result<(), Fail> {
    let diary = Diary::with_room(rt.alloc(), 1)?;
    let (gate, mut passes) = Gate::make(rt.alloc(), diary, 2)?;
    let Some(one) = passes.pop() else {
        unreachable!()
    };
    let Some(zero) = passes.pop() else {
        unreachable!()
    };
    let held = gate.hold(&rt, zero);
    let one = misses(&rt, &gate, one, 0, 1);
    let zero = Diary::write(&gate, held, 7);
    let one = finds(&rt, &gate, one, 1);
    let zero = finds(&rt, &gate, zero, 1);
    passes.push_reserved(zero);
    passes.push_reserved(one);
    assert_eq!(rt; gate.close(passes).lines().len(), 1);
    Ok(())
}

// The gate is free, and `try_hold` takes it behind so many marks; it is released without one.
fn finds<R: Abort>(rt: &R, gate: &Gate<Diary>, pass: Pass<Line>, count: u64) -> Pass<Line>
    requires { IsPassOf writer (gate_id gate.now) pass }
    ensures { IsPassOf writer (gate_id gate.now) result × (number result ≡ number pass) }
{
    match gate.try_hold(pass) {
        Ok(held) => {
            assert_eq!(rt; held.count(), count);
            gate.release_plain(held)
        }
        Err(_) => panic!(rt; "nobody holds the gate"),
    }
}

#[test]
fn each_thread_finds_its_lines_in_order(rt: HostRuntime) -> Result<(), Fail> {
    // passes, threads, turns of each pass, rounds of spinning in a turn; the last is a gate that is mostly held
    for (passes, threads, turns, pause) in [(2, 2, 400, 0), (4, 4, 200, 10), (64, 8, 20, 400)] {
        let diary = diary_of(&rt, rt.alloc(), passes, threads, turns, pause);
        assert_eq!(rt; diary.lines().len(), passes as usize * turns as usize);
        for by in 0..passes {
            let mut next = 0;
            for line in diary.lines() {
                if line.by == by {
                    assert_eq!(rt; line.nth, next);
                    next = line.nth.saturating_add(1);
                }
            }
            assert_eq!(rt; next, turns);
        }
    }
    Ok(())
}

// The diary that so many passes write on so many threads.
fn diary_of<R: Threads + Wait + Sync + Abort>(
    rt: &R,
    alloc: Global,
    passes: u32,
    threads: usize,
    turns: u32,
    pause: u32,
) -> Diary
    requires passes { (1 ≤ passes) × (passes ≤ 64) }
    requires threads { 0 < threads }
    requires turns { turns < 2 ^ 16 }
{
    let mut jobs = Vec::with_capacity(alloc, passes as usize).expect(rt, "memory");
    let diary = Diary::with_room(alloc, (passes * turns) as usize).expect(rt, "memory");
    let (gate, mut all) = Gate::make(alloc, diary, passes).expect(rt, "memory");
    lend(&gate, &mut all, &mut jobs);
    write_all(rt, &gate, &mut jobs, threads, turns, pause);
    take_back(&gate, &mut jobs, &mut all);
    jobs.destroy_empty();
    gate.close(all)
}

#[test]
fn value_need_only_be_send(rt: HostRuntime) -> Result<(), Fail> {
    let value = Unshared {
        count: Cell::new(0),
    };
    let mut jobs = Vec::with_capacity(rt.alloc(), 2).expect(&rt, "memory");
    let (gate, mut passes) = Gate::make(rt.alloc(), value, 2).expect(&rt, "memory");
    lend(&gate, &mut passes, &mut jobs);
    count_all(&rt, &gate, &mut jobs, 2);
    take_back(&gate, &mut jobs, &mut passes);
    jobs.destroy_empty();
    assert_eq!(rt; gate.close(passes).count.get(), 2);
    Ok(())
}
