ghost use Rattle.std.specs.Prelude.{◌≤◌};
ghost use Rattle.squeue_arrivals.specs.Pooling.{IsInRange};

use squeue_answers::{Kept, KeyAnswers, serve_answering};
use squeue_arrivals::{ArrivalPool, Listed, SPAN};
use squeue_enter::Mode;
use std::alloc::{AllocError, Global};
use std::test::*;

// Each amount is answered the sum of its key so far, with the amount.
#[derive(Drop, Clone, Copy)]
struct Running;

impl KeyAnswers for Running {
    type Item = u32;

    type State = u64;

    type Answer = (u32, u64);

    ghost begins = { λ _ _. Unit {0} };

    ghost step = { λ _ _ _ _ _. Unit {0} };

    fn begin(&self, _alloc: Global) -> Result<u64, AllocError> {
        Ok(0)
    }

    fn take(&self, _alloc: Global, total: &mut u64, amount: u32) -> (u32, u64) {
        *total = total.wrapping_add(u64::from(amount));
        (amount, *total)
    }
}

fn pool_by(squeues: u32, mode: Mode, span: u32) -> ArrivalPool
    requires { 1 ≤ squeues }
    ensures { IsInRange result }
{
    ArrivalPool {
        squeues,
        places: 3,
        room: 16,
        mode,
        budget: 4,
        span,
    }
}

fn pool_of(squeues: u32, mode: Mode) -> ArrivalPool
    requires { 1 ≤ squeues }
    ensures { IsInRange result }
{
    pool_by(squeues, mode, SPAN)
}

// Each amount of two sources is answered in order, in each mode and by each number of squeues, and where places are opened anew.
#[test]
fn sums_are_answered(rt: HostRuntime) -> Result<(), Fail> {
    let alloc = rt.alloc();
    for (squeues, mode, span) in [
        (1, Mode::Process, SPAN),
        (2, Mode::Process, SPAN),
        (1, Mode::Fill, SPAN),
        (1, Mode::NoDrain, SPAN),
        (1, Mode::Process, 1),
        (2, Mode::NoDrain, 5),
        (1, Mode::Fill, 100),
    ] {
        let mut first = Vec::new(alloc);
        for n in 0..1_000 {
            first.push((u64::from(n % 3), n))?;
        }
        let second = [(7, 1), (9, 5), (7, 2), (1 << 40, 9), (7, 3)].to_vec(alloc)?;
        let sources = vec![in alloc;
            (Listed::of(first), Kept::none(alloc)),
            (Listed::of(second), Kept::none(alloc)),
        ]?;
        let pool = pool_by(squeues, mode, span);
        let served = serve_answering(&rt, alloc, &pool, 8, Running, sources)?.sources;
        assert_eq!(rt; served.len(), 2);
        let answers = served[0].sink.answers();
        assert!(rt; served[0].sink.is_whole());
        assert_eq!(rt; answers.len(), 1_000);
        for n in 0..1_000u32 {
            let m = u64::from(n / 3);
            let sum = 3 * m * (m + 1) / 2 + u64::from(n % 3) * (m + 1);
            assert_eq!(rt; answers[n as usize], (n, sum));
        }
        assert_eq!(rt;
            served[1].sink.answers(),
            [(1, 1), (5, 5), (2, 3), (9, 9), (3, 6)].as_slice()
        );
        assert_eq!(rt; served[1].parts.len(), 3);
        assert_eq!(rt; (served[1].parts[0].key, served[1].parts[0].state), (7, 6));
    }
    Ok(())
}

// An item whose key finds no place has no answer; what came before it has.
#[test]
fn refused_item_has_no_answer(rt: HostRuntime) -> Result<(), Fail> {
    let alloc = rt.alloc();
    let items = [(5, 1), (6, 2), (5, 3), (7, 4), (8, 9), (5, 5)].to_vec(alloc)?;
    let sources = vec![in alloc; (Listed::of(items), Kept::none(alloc))]?;
    let pool = pool_of(1, Mode::Process);
    let served = serve_answering(&rt, alloc, &pool, 1, Running, sources)?.sources;
    assert_eq!(rt;
        served[0].sink.answers(),
        [(1, 1), (2, 2), (3, 4), (4, 4)].as_slice()
    );
    assert!(rt; served[0].refused.is_some());
    Ok(())
}
