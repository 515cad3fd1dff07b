//! One file of rows, and files that are broken.

use case_rows::{BadLine, Broken, expect_lines, rows_of};
use std::test::Fail;

const FILE: &str = concat!(
    "# two rows\n",
    "part session\n",
    "    0 S 100 0 4096\n",
    "    1000 A 101 501 4096\n",
    "\n",
    "row the first one\n",
    "words --rings 2\n",
    "input\n",
    "    pcap\n",
    "    @session\n",
    "row the second one\n",
    "status 2\n",
);

#[test]
fn a_file_of_two_rows(rt: HostRuntime) -> Result<(), Fail> {
    let Ok(rows) = rows_of(rt.alloc(), FILE) else {
        panic!(rt; "the file isn't read")
    };
    let [first, second] = rows.as_slice() else {
        panic!(rt; "these aren't two rows")
    };
    assert_eq!(rt; (first.name, first.at), ("the first one", 6));
    assert_eq!(rt; (second.name, second.at), ("the second one", 11));
    assert!(rt; first.lines("words") == ["--rings 2"].as_slice());
    assert!(rt;
        first.lines("input") == ["pcap", "0 S 100 0 4096", "1000 A 101 501 4096"].as_slice()
    );
    assert!(rt; second.lines("input").is_empty() && !second.has("input"));
    Ok(())
}

/// Files, and which line is wrong.
const BROKEN: [(&str, usize, BadLine); 8] = [
    ("    no row\n", 1, BadLine::Nowhere),
    ("words 1\n", 1, BadLine::Nowhere),
    ("row a\n    b\n", 2, BadLine::Nowhere),
    ("row a\nwords\n  b\n", 3, BadLine::Indented),
    ("row\n", 1, BadLine::NoName),
    ("row a\nrow a\n", 2, BadLine::Again),
    ("row a\nwords b\nwords c\n", 3, BadLine::Again),
    ("row a\nwords @b\n", 2, BadLine::NoPart),
];

#[test]
fn broken_files(rt: HostRuntime) {
    for (text, line, wrong) in BROKEN {
        let broken = rows_of(rt.alloc(), text).err();
        assert_eq!(rt; broken, Some(Broken::Line(line, wrong)), "{text}");
    }
}

/// What came beside two wanted lines, and whether it is the same.
const CAME: [(&str, bool); 6] = [
    ("a\nb\n", true),
    ("a\nb", false),
    ("a\n", false),
    ("a\nb\nc\n", false),
    ("ab\n", false),
    ("", false),
];

#[test]
fn lines_beside_lines(rt: HostRuntime) {
    for (came, same) in CAME {
        let compared = expect_lines(rt.alloc(), "out", &["a", "b"], came.as_bytes());
        assert_eq!(rt; compared.is_ok(), same, "{came}");
    }
}
