use arriving_limiter::limit_requests;
use crossbeam_channel::{Sender, bounded};
use key_limiter::Limit;
use squeue_answers::Kept;
use squeue_arrivals::{ArrivalPool, SPAN};
use squeue_enter::Mode;
use std::sync::Wait;
use std::test::*;
use std::thread::join;

// A request's key, its time, and whether it passes.
type Row = (u64, u32, bool);

// Sends requests.
fn send<W: Wait>(rt: &W, output: Sender<(u64, u32)>, rows: &[Row]) {
    for row in rows {
        let (key, time, _passes) = *row;
        if output.send(rt, (key, time)).is_err() {
            return;
        }
    }
}

// Whether a sink got what these requests are answered.
fn are_answers(sink: &Kept<bool>, rows: &[Row]) -> bool {
    let answers = sink.answers();
    if !sink.is_whole() || answers.len() != rows.len() {
        return false;
    }
    for n in 0..rows.len() {
        let (_key, _time, passes) = rows[n];
        if answers[n] != passes {
            return false;
        }
    }
    true
}

// Requests for a bucket that holds 25 microseconds at most, of which a request takes 10: two pass at once, and a time before one that was seen
// fills nothing.
const FIRST: [Row; 15] = [
    (1, 0, true),
    (2, 2, true),
    (1, 0, true),
    (1, 0, false),
    (2, 2, true),
    (1, 4, false),
    (2, 8, true),
    (1, 5, true),
    (1, 3, false),
    (2, 9, false),
    (1, 14, false),
    (1, 15, true),
    (1, 100, true),
    (1, 100, true),
    (1, 100, false),
];

const SECOND: [Row; 5] = [
    (1, 1, true),
    (1, 1, true),
    (9, 1, true),
    (1, 6, true),
    (1, 6, false),
];

// Two channels, in each mode and by each number of squeues. Key 1 has a bucket of its own in each channel.
#[test]
fn requests_are_limited(rt: HostRuntime) -> Result<(), Fail> {
    let alloc = rt.alloc();
    let limit = Limit {
        token: 10,
        most: 25,
    };
    for (squeues, mode) in [
        (1, Mode::Process),
        (2, Mode::Process),
        (1, Mode::Fill),
        (1, Mode::NoDrain),
    ] {
        let pool = ArrivalPool {
            squeues,
            places: 2,
            room: 16,
            mode,
            budget: 4,
            span: SPAN,
        };
        let (to_first, from_first) = bounded(alloc, 4)?;
        let (to_second, from_second) = bounded(alloc, 4)?;
        let channels = vec![in alloc; from_first, from_second]?;
        let (limited, ()) = join(
            &rt,
            || limit_requests(&rt, alloc, &pool, limit, channels),
            || {
                send(&rt, to_second, SECOND.as_slice());
                send(&rt, to_first, FIRST.as_slice());
            },
        );
        let sources = limited?.sources;
        assert_eq!(rt; sources.len(), 2);
        assert!(rt; are_answers(&sources[0].sink, FIRST.as_slice()));
        assert!(rt; are_answers(&sources[1].sink, SECOND.as_slice()));
    }
    Ok(())
}
