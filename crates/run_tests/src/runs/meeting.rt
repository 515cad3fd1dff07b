//! Rings, workers and application threads that meet. What is reported of a call follows from where it stands among the feeds.

use crate::runs::{Ended, Ends, FIVE, ends_over, in_turn, is_made_of, words_of};
use perimeter_core::Hook;
use sq_base::{MemSink, MemSource, Status};
use squeue_run::run_with;
use std::alloc::{AllocError, Global};
use std::process::Abort;
use std::sync::Wait;
use std::sync::atomic::{AtomicBool, Ordering};
use std::test::Fail;
use std::thread::{Threads, yield_now};

/// What begins the report of the session from each of two ports, segment by segment in turn, up to the order of the first.
const BEGIN: &str = concat!(
    "report 1\n",
    "records 10 tail 0 served 10 nofit 0 server 0 other 0 fragment 0 cut 0 malformed 0 badsum 0 connections 2\n",
    "conn 0 10.0.0.1:4000 10.0.0.2:7 echo\n",
);

/// What ends it: the second connection, which has no call.
const END: &str = concat!(
    "conn 1 10.0.0.1:4001 10.0.0.2:7 echo\n",
    "order f0-5\n",
    "reply 0 4500002c00004000400626ca0a0000020a00000100070fa1000001f4000000656012ffff72130000020405b4\n",
    "reply 2000 4500002d00004000400626c90a0000020a00000100070fa1000001f50000006a5018ffff45ec000068656c6c6f\n",
    "reply 3000 4500002800004000400626ce0a0000020a00000100070fa1000001fa0000006b5011ffff89c40000\n",
    "end LISTEN\n",
    "done\n",
);

/// What the first session gives with or without a close: the answers, a line for each number of feeds before a call, and what is reported.
#[derive(Clone, Copy, Drop)]
struct Course<'a> {
    statuses: &'a str,
    closes: &'a str,
    replies: &'a str,
    end: &'a str,
}

/// No close was taken so far.
const UNCLOSED: Course = Course {
    statuses: concat!(
        "LISTEN 0 0 0\n",
        "SYN-RECEIVED 0 0 0\n",
        "ESTABLISHED 0 0 0\n",
        "ESTABLISHED 5 5 5\n",
        "LAST-ACK 5 5 0\n",
        "LISTEN 0 0 0\n",
        "LISTEN 0 0 0\n",
    ),
    closes: concat!(
        "notopen\n",
        "notopen\n",
        "ok\n",
        "ok\n",
        "already\n",
        "notopen\n",
        "notopen\n",
    ),
    replies: concat!(
        "reply 0 4500002c00004000400626ca0a0000020a00000100070fa0000001f4000000656012ffff72140000020405b4\n",
        "reply 2000 4500002d00004000400626c90a0000020a00000100070fa0000001f50000006a5018ffff45ed000068656c6c6f\n",
        "reply 3000 4500002800004000400626ce0a0000020a00000100070fa0000001fa0000006b5011ffff89c50000\n",
    ),
    end: "end LISTEN\n",
};

/// A close was taken after two feeds, before the text came.
const CLOSED_BEFORE_TEXT: Course = Course {
    statuses: concat!(
        "\n",
        "\n",
        "FIN-WAIT-1 0 0 0\n",
        "FIN-WAIT-1 5 0 0\n",
        "FIN-WAIT-1 5 0 0\n",
        "FIN-WAIT-1 5 0 0\n",
        "FIN-WAIT-1 5 0 0\n",
    ),
    closes: concat!(
        "\n",
        "\n",
        "already\n",
        "already\n",
        "already\n",
        "already\n",
        "already\n",
    ),
    replies: concat!(
        "reply 0 4500002c00004000400626ca0a0000020a00000100070fa0000001f4000000656012ffff72140000020405b4\n",
        "reply 1000 4500002800004000400626ce0a0000020a00000100070fa0000001f5000000655011ffff89d00000\n",
        "reply 2000 4500002800004000400626ce0a0000020a00000100070fa0000001f60000006a5010ffff89cb0000\n",
        "reply 3000 4500002800004000400626ce0a0000020a00000100070fa0000001f60000006a5010ffff89cb0000\n",
        "reply 4000 4500002800004000400626ce0a0000020a00000100070fa0000001f60000006a5010ffff89cb0000\n",
    ),
    end: "end FIN-WAIT-1\n",
};

/// A close was taken after three feeds, when the text was echoed.
const CLOSED_AFTER_TEXT: Course = Course {
    statuses: concat!(
        "\n",
        "\n",
        "\n",
        "FIN-WAIT-1 5 5 5\n",
        "CLOSING 5 5 0\n",
        "TIME-WAIT 5 5 0\n",
        "TIME-WAIT 5 5 0\n",
    ),
    closes: concat!(
        "\n",
        "\n",
        "\n",
        "already\n",
        "already\n",
        "already\n",
        "already\n",
    ),
    replies: concat!(
        "reply 0 4500002c00004000400626ca0a0000020a00000100070fa0000001f4000000656012ffff72140000020405b4\n",
        "reply 2000 4500002d00004000400626c90a0000020a00000100070fa0000001f50000006a5018ffff45ed000068656c6c6f\n",
        "reply 2000 4500002800004000400626ce0a0000020a00000100070fa0000001fa0000006a5011ffff89c60000\n",
        "reply 3000 4500002800004000400626ce0a0000020a00000100070fa0000001fb0000006b5010ffff89c50000\n",
    ),
    end: "end TIME-WAIT\n",
};

/// Whether a close was taken, and when.
#[derive(Clone, Copy, Drop)]
enum Closed {
    No,
    BeforeText,
    AfterText,
}

impl Closed {
    fn course(self) -> Course<'static> {
        match self {
            Closed::No => UNCLOSED,
            Closed::BeforeText => CLOSED_BEFORE_TEXT,
            Closed::AfterText => CLOSED_AFTER_TEXT,
        }
    }

    /// What a close or a status answers after so many feeds.
    fn answer(self, is_close: bool, feeds: usize) -> &'static str {
        let Course {
            statuses,
            closes,
            ..
        } = self.course();
        let answers = if is_close { closes } else { statuses };
        answers.lines().nth(feeds).unwrap_or("")
    }
}

/// The calls of four threads on the first connection.
const CALLS: &str =
    "0:0:status|0:0:close|0:0:close|1:0:close|1:0:status|1:0:close|2:0:status|2:0:status|2:0:status|3:0:status|3:0:status|3:0:close";

/// Which of them are closes: the others ask for the status.
const CLOSES: [[bool; 3]; 4] = [
    [false, true, true],
    [true, false, true],
    [false, false, false],
    [false, false, true],
];

/// What stands in an order so far: how many feeds, and how many calls of each thread; and whether a close was taken.
#[derive(Clone, Copy, Drop)]
struct Walk {
    feeds: usize,
    made: [usize; 4],
    closed: Closed,
}

fn number(digit: &u8) -> usize {
    usize::from(digit.wrapping_sub(b'0'))
}

fn odd_call(rt: &impl Abort, thread: usize, call: usize, feeds: usize) {
    assert!(rt; false, "call {call} of thread {thread} after {feeds} feeds");
}

impl Walk {
    /// The feeds from one number to another, which are the next ones.
    fn feed(&mut self, rt: &impl Abort, first: usize, last: usize) {
        assert_eq!(rt; first, self.feeds, "the next feed");
        assert!(rt; first <= last, "the last feed of a run");
        self.feeds = last.saturating_add(1);
    }

    /// What a call answers, which is its thread's next one.
    fn call(&mut self, rt: &impl Abort, j: usize, k: usize) -> &'static str {
        let feeds = self.feeds;
        if j >= 4 || k >= 3 || feeds >= 7 || self.made[j] != k {
            odd_call(rt, j, k, feeds);
            return "";
        }
        self.made[j] = k + 1;
        let answer = self.closed.answer(CLOSES[j][k], feeds);
        if answer == "ok" {
            self.closed = if feeds == 2 {
                Closed::BeforeText
            } else {
                Closed::AfterText
            };
        }
        answer
    }

    /// A call, and the line of its answer.
    fn answer(
        &mut self,
        rt: &impl Abort,
        alloc: Global,
        answers: &mut String,
        j: usize,
        k: usize,
    ) -> Result<(), AllocError> {
        let answer = self.call(rt, j, k);
        let line = format!(in alloc; "answer {j} {k} {answer}\n")?;
        answers.push_str(line.as_str())
    }

    /// An entry of the order line.
    fn entry(
        &mut self,
        rt: &impl Abort,
        alloc: Global,
        answers: &mut String,
        entry: &str,
    ) -> Result<(), AllocError> {
        match entry.as_bytes() {
            [b'f', only] => self.feed(rt, number(only), number(only)),
            [b'f', first, b'-', last] => self.feed(rt, number(first), number(last)),
            [b'c', thread, b'.', call] => {
                return self.answer(rt, alloc, answers, number(thread), number(call));
            }
            _ => assert!(rt; false, "entry {entry}"),
        }
        Ok(())
    }
}

/// Goes through the entries of an order, and adds what its calls answer.
fn walked(
    rt: &impl Abort,
    alloc: Global,
    answers: &mut String,
    entries: &str,
) -> Result<Walk, AllocError> {
    let mut walk = Walk {
        feeds: 0,
        made: [0; 4],
        closed: Closed::No,
    };
    for entry in entries.split(' ') {
        walk.entry(rt, alloc, answers, entry)?;
    }
    Ok(walk)
}

/// The entries of the first connection's order.
fn entries_of(report: &str) -> Option<&str> {
    report.lines().nth(3)?.strip_prefix("order ")
}

/// Whether a report has these entries, replies and answers, and this end of the first connection.
fn has<'a>(
    report: &[u8],
    entries: &'a str,
    replies: &'a str,
    answers: &'a str,
    end: &'a str,
) -> bool {
    let parts = [BEGIN, "order ", entries, "\n", replies, answers, end, END];
    is_made_of(report, &parts)
}

/// The report is the one that belongs to these entries, among which each feed and each call stands once: so many of each thread.
fn expect_order(
    rt: &impl Abort,
    alloc: Global,
    report: &str,
    entries: &str,
    calls: usize,
) -> Result<(), AllocError> {
    let mut answers = String::new(alloc);
    let walk = walked(rt, alloc, &mut answers, entries)?;
    let made = walk.made;
    assert_eq!(rt; walk.feeds, 6, "{entries}");
    assert_eq!(rt; made, [calls; 4], "{entries}");
    let Course { replies, end, .. } = walk.closed.course();
    assert!(rt;
        has(report.as_bytes(), entries, replies, answers.as_str(), end),
        "{report}"
    );
    Ok(())
}

/// A run with a hook over these ends: its status, and whether it handed back what was served.
fn outcome<H: Hook + Sync>(
    rt: &(impl Threads + Wait + Sync),
    alloc: Global,
    words: &[String],
    src: &mut MemSource,
    out: &mut MemSink,
    err: &mut MemSink,
    hook: &H,
) -> (Status, bool) {
    let ran = run_with(rt, alloc, words, src, out, err, hook);
    (ran.status, ran.served.is_some())
}

/// A run with a hook over these ends, with the words of a line.
fn run<H: Hook + Sync>(
    rt: &(impl Threads + Wait + Sync),
    alloc: Global,
    line: &str,
    mut ends: Ends,
    hook: &H,
) -> Result<Ended, AllocError> {
    let words = words_of(alloc, line)?;
    let Ends { src, out, err } = &mut ends;
    let ran = outcome(rt, alloc, words.as_slice(), src, out, err, hook);
    Ok(Ended { ran, ends })
}

/// The run ended well, and its report belongs to the order that it tells, with so many calls of each thread.
fn expect_report(
    rt: &impl Abort,
    alloc: Global,
    words: &str,
    ended: &Ended,
    calls: usize,
) -> Result<(), Fail> {
    assert_eq!(rt; ended.ran, (Status::Ok, true), "{words}");
    let report = str::from_utf8(ended.ends.out.bytes())?;
    let entries = entries_of(report).expect(rt, "an order");
    expect_order(rt, alloc, report, entries, calls)?;
    Ok(())
}

/// A run with a hook over the two sessions, in which each thread has so many calls, ends well, and its report belongs to the order that it tells.
fn expect_run<H: Hook + Sync>(
    rt: &(impl Abort + Threads + Wait + Sync),
    alloc: Global,
    input: &[u8],
    words: &str,
    hook: &H,
    calls: usize,
) -> Result<(), Fail> {
    let ended = run(rt, alloc, words, ends_over(alloc, input)?, hook)?;
    expect_report(rt, alloc, words, &ended, calls)
}

/// Lets others run before each feed, so many times.
#[derive(Drop)]
struct Slow {
    turns: u32,
}

impl Hook for Slow {
    fn before(&self, _squeue: u32, _c: u32, _n: u32) {
        for _ in 0..self.turns {
            yield_now();
        }
    }
}

/// Four threads call one connection over this setup.
fn expect_calls(
    rt: &(impl Abort + Threads + Wait + Sync),
    alloc: Global,
    input: &[u8],
    setup: &str,
) -> Result<(), Fail> {
    let words = format!(in alloc; "{setup}|{CALLS}")?;
    for turns in 0..25 {
        expect_run(rt, alloc, input, words.as_str(), &Slow { turns }, 3)?;
    }
    Ok(())
}

/// Four threads call one connection, which moves before each feed.
#[test]
fn calls_and_moves(rt: HostRuntime) -> Result<(), Fail> {
    let plain = "--squeues|3|--rings|2|--spread|1";
    let fill = "--squeues|3|--rings|2|--spread|1|--mode|fill|--budget|1";
    let input = in_turn(rt.alloc(), &FIVE, 4000, 2)?;
    expect_calls(&rt, rt.alloc(), input.as_slice(), plain)?;
    expect_calls(&rt, rt.alloc(), input.as_slice(), fill)
}

/// How often one looks for the other before it gives up.
const TURNS: u32 = 1 << 26;

/// Holds the first feed of each of the two connections until that of the other has come, too.
#[derive(Drop)]
struct Meeting {
    first: AtomicBool,
    second: AtomicBool,
    in_vain: AtomicBool,
}

impl Hook for Meeting {
    fn before(&self, _squeue: u32, c: u32, n: u32) {
        if n > 0 {
            return;
        }
        let (own, other) = if c == 0 {
            (&self.first, &self.second)
        } else {
            (&self.second, &self.first)
        };
        own.store(true, Ordering::SeqCst);
        for _ in 0..TURNS {
            if other.load(Ordering::SeqCst) {
                return;
            }
            yield_now();
        }
        self.in_vain.store(true, Ordering::SeqCst);
    }
}

/// A run with this hook over two sessions, in which nobody waits in vain.
fn expect_meeting(
    rt: &(impl Abort + Threads + Wait + Sync),
    alloc: Global,
    input: &[u8],
    meeting: &Meeting,
) -> Result<(), Fail> {
    expect_run(rt, alloc, input, "--squeues|2|--rings|2", meeting, 0)?;
    assert!(rt; meeting.first.load(Ordering::SeqCst));
    assert!(rt; meeting.second.load(Ordering::SeqCst));
    assert!(rt;
        !meeting.in_vain.load(Ordering::SeqCst),
        "nobody waits in vain"
    );
    Ok(())
}

/// Two rings are inside two squeues at once.
#[test]
fn rings_beside_each_other(rt: HostRuntime) -> Result<(), Fail> {
    let meeting = Meeting {
        first: AtomicBool::new(false),
        second: AtomicBool::new(false),
        in_vain: AtomicBool::new(false),
    };
    let input = in_turn(rt.alloc(), &FIVE, 4000, 2)?;
    expect_meeting(&rt, rt.alloc(), input.as_slice(), &meeting)
}
