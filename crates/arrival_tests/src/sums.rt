use arriving_counters::count;
use squeue_arrivals::{Arrival, ArrivalPool, Arrivals, Cause, Listed, SPAN, ServedSource};
use squeue_enter::Mode;
use std::alloc::{AllocError, Global};
use std::test::*;

// The parts of a source: key and total.
fn told(
    alloc: Global,
    served: &ServedSource<Listed<u32>, u32, u64>,
) -> Result<Vec<(u64, u64)>, AllocError> {
    let mut all = Vec::new(alloc);
    for part in served.parts.iter() {
        all.push((part.key, part.state))?;
    }
    Ok(all)
}

// Two sources, served in each mode by so many squeues; with places that stay open to the end, and that are opened anew before each item, or
// behind a few of them.
#[test]
fn sums_arrive(rt: HostRuntime) -> Result<(), Fail> {
    let alloc = rt.alloc();
    for (squeues, mode, span) in [
        (1, Mode::Process, SPAN),
        (2, Mode::Process, SPAN),
        (1, Mode::Fill, SPAN),
        (1, Mode::NoDrain, SPAN),
        (1, Mode::Process, 1),
        (2, Mode::Process, 7),
        (1, Mode::Fill, 100),
        (1, Mode::NoDrain, 0),
    ] {
        let pool = ArrivalPool {
            squeues,
            places: 3,
            room: 16,
            mode,
            budget: 4,
            span,
        };
        let mut first = Vec::new(alloc);
        for n in 0..1_000 {
            first.push((u64::from(n % 3) + 7, n))?;
        }
        let second = [(7, 1), (9, 5), (7, 2), (1 << 40, 9)].to_vec(alloc)?;
        let sources = vec![in alloc; Listed::of(first), Listed::of(second)]?;
        let served = count(&rt, alloc, &pool, sources)?.sources;
        assert_eq!(rt; served.len(), 2);
        assert_eq!(rt;
            told(alloc, &served[0])?.as_slice(),
            [(7, 166_833), (8, 166_167), (9, 166_500)].as_slice()
        );
        assert_eq!(rt;
            told(alloc, &served[1])?.as_slice(),
            [(7, 3), (9, 5), (1 << 40, 9)].as_slice()
        );
    }
    Ok(())
}

// A ring with two places refuses the first item of a third key, and what came before stays served. The source is handed back behind it.
#[test]
fn third_key_is_refused(rt: HostRuntime) -> Result<(), Fail> {
    let alloc = rt.alloc();
    let pool = ArrivalPool {
        squeues: 1,
        places: 2,
        room: 8,
        mode: Mode::Process,
        budget: 4,
        span: SPAN,
    };
    let items = [(5, 1), (6, 2), (5, 3), (7, 4), (5, 5)].to_vec(alloc)?;
    let sources = vec![in alloc; Listed::of(items)]?;
    let mut served = count(&rt, alloc, &pool, sources)?.sources;
    let first = served.pop().expect(&rt, "one source");
    assert_eq!(rt;
        told(alloc, &first)?.as_slice(),
        [(5, 4), (6, 2)].as_slice()
    );
    let ServedSource {
        mut source,
        parts: _,
        refused,
        pass: _,
    } = first;
    let refused = refused.expect(&rt, "one item too many");
    assert_eq!(rt; (refused.key, refused.item), (7, 4));
    assert!(rt; matches!(refused.cause, Cause::NoPlace));
    let next = source.next();
    assert!(rt; matches!(next, Arrival::Item(5, 5)));
    Ok(())
}

// No sources are served at once.
#[test]
fn nothing_arrives(rt: HostRuntime) -> Result<(), Fail> {
    let alloc = rt.alloc();
    let pool = ArrivalPool {
        squeues: 3,
        places: 1,
        room: 1,
        mode: Mode::Fill,
        budget: 1,
        span: SPAN,
    };
    let none: Vec<Listed<u32>> = Vec::new(alloc);
    let served = count(&rt, alloc, &pool, none)?;
    assert!(rt; served.sources.is_empty());
    assert!(rt; served.squeues.is_empty());
    let empty = vec![in alloc; Listed::of(Vec::new(alloc))]?;
    let served = count(&rt, alloc, &pool, empty)?.sources;
    assert_eq!(rt; served.len(), 1);
    assert!(rt; served[0].parts.is_empty());
    Ok(())
}
