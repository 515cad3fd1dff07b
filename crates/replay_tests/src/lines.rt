use conn_classifier::Rules;
use perimeter_core::Kind;
use squeue_enter::Mode;
use squeue_replay::ReadMark;
use std::test::Fail;
use tcb_machine::Call;
use trace_lines::{calls, histories, read_mark, setup_line};

/// Texts, and whether a mark's line stands at their front.
const MARKS: [(&str, bool); 13] = [
    ("fast 0 1.2\n", true),
    ("fast 0 1.2 1.3\n", false),
    ("fill 0 1.2 1.3\n", true),
    ("fill 0\n", false),
    ("claim 3 ask\n", true),
    ("take 0", false),
    ("take 00\n", false),
    ("take 4294967295\n", true),
    ("take 4294967296\n", false),
    ("leave 3 18446744073709551615 call 1 2 3\n", true),
    ("leave 3 18446744073709551616 none\n", false),
    ("grant 3 4 100000000000000000000000000000\n", false),
    ("drop 0\n", false),
];

/// Texts, and whether a setup stands at their front.
const SETUPS: [(&str, bool); 5] = [
    (
        "setup squeues 1 rings 1 mode process budget 64 spread 0 verify 0\n",
        true,
    ),
    (
        "setup squeues 17 rings 1 mode process budget 64 spread 0 verify 0\n",
        false,
    ),
    (
        "setup squeues 1 rings 1 mode fill budget 65536 spread 0 verify 0\n",
        false,
    ),
    (
        "setup squeues 1 rings 1 mode process budget 64 spread 0 verify 2\n",
        false,
    ),
    (
        "setup squeues 1 rings 1 mode drain budget 64 spread 0 verify 0\n",
        false,
    ),
];

/// Texts, and whether they begin with calls on two connections.
const CALLS: [(&str, bool); 6] = [
    ("squeue 0 marks 0\n", true),
    ("call 0:1:close\ncall 3:0:buffer=65535\n", true),
    ("call 1:0:status\ncall 0:0:status\n", false),
    ("call 4:0:status\n", false),
    ("call 0:2:status\n", false),
    ("call 0:0:buffer=65536\n", false),
];

#[test]
fn which_texts_are_read(rt: HostRuntime) -> Result<(), Fail> {
    let mut mark = ReadMark::make(rt.alloc());
    for (text, reads) in &MARKS {
        let rest = read_mark(&mut mark, text.as_bytes())?;
        assert_eq!(rt; rest.is_some(), *reads);
    }
    for (text, reads) in &SETUPS {
        assert_eq!(rt; setup_line(text.as_bytes()).is_some(), *reads);
    }
    for (text, reads) in &CALLS {
        let found = calls(rt.alloc(), text.as_bytes(), 2)?;
        assert_eq!(rt; found.is_some(), *reads);
    }
    Ok(())
}

#[test]
fn a_mark_with_two_feeds(rt: HostRuntime) -> Result<(), Fail> {
    let mut mark = ReadMark::make(rt.alloc());
    let Some(rest) = read_mark(&mut mark, b"fill 5 7.0 8.1\ndone\n")? else {
        panic!(rt; "the mark isn't read")
    };
    assert!(rt; rest == b"done\n".as_slice());
    assert_eq!(rt; (mark.p, mark.kind), (5, Kind::Fill));
    let [first, second] = mark.feeds.as_slice() else {
        panic!(rt; "the mark hasn't two feeds")
    };
    assert_eq!(rt; (first.c, first.n), (7, 0));
    assert_eq!(rt; (second.c, second.n), (8, 1));
    Ok(())
}

#[test]
fn a_setup(rt: HostRuntime) -> Result<(), Fail> {
    let text = b"setup squeues 2 rings 3 mode nodrain budget 64 spread 5 verify 1\ncall";
    let Some((setup, rules, rest)) = setup_line(text) else {
        panic!(rt; "the setup isn't read")
    };
    assert_eq!(rt; (setup.squeues, setup.rings), (2, 3));
    assert_eq!(rt; setup.mode, Mode::NoDrain);
    assert_eq!(rt; (setup.budget, setup.spread), (64, 5));
    assert!(rt; setup.trace);
    assert_eq!(rt; rules, Rules::usual(true));
    assert!(rt; rest == b"call".as_slice());
    Ok(())
}

#[test]
fn calls_of_two_threads(rt: HostRuntime) -> Result<(), Fail> {
    let text = b"call 1:0:close\ncall 1:1:status\ncall 3:0:buffer=9\ndone\n";
    let Some((found, rest)) = calls(rt.alloc(), text, 2)? else {
        panic!(rt; "the calls aren't read")
    };
    assert!(rt; rest == b"done\n".as_slice());
    assert_eq!(rt; (found.len(0), found.len(2)), (0, 0));
    assert_eq!(rt; (found.len(1), found.len(3)), (2, 1));
    assert_eq!(rt; found.get(1, 0), (0, Call::Close));
    assert_eq!(rt; found.get(1, 1), (1, Call::Status));
    assert_eq!(rt; found.get(3, 0), (0, Call::Buffer(9)));
    Ok(())
}

#[test]
fn marks_of_two_squeues(rt: HostRuntime) -> Result<(), Fail> {
    let text = b"squeue 0 marks 1\nclose 0\nsqueue 1 marks 0\ndone\n";
    let Some(found) = histories(rt.alloc(), text, 2)? else {
        panic!(rt; "the marks aren't read")
    };
    let [first, second] = found.as_slice() else {
        panic!(rt; "these aren't two squeues")
    };
    assert!(rt; *first == b"close 0\n".as_slice());
    assert!(rt; second.is_empty());
    assert!(rt; histories(rt.alloc(), text, 1)?.is_none());
    Ok(())
}
