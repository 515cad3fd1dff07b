//! The words of a command line, by a table of two options.

use shell::{NoCall, OptionRow, Table, Takes, WordFault, words_asked};
use std::alloc::Global;
use std::test::Fail;

const TABLE: Table = Table {
    program: "served",
    options: &[
        OptionRow {
            name: "rings",
            takes: Takes::Number {
                least: 1,
                most: 8,
                default: Some(1),
            },
        },
        OptionRow {
            name: "mode",
            takes: Takes::Text {
                shown: "process|fill",
                default: None,
            },
        },
    ],
    most_calls: 0,
};

// What these words ask for: how many rings, and which mode.
fn asked_of<'a>(
    alloc: Global,
    words: &'a Vec<String>,
) -> Result<(Option<u32>, Option<&'a str>), WordFault> {
    Ok({
        let asked = words_asked::<NoCall>(alloc, &TABLE, words.as_slice())?;
        (asked.number("rings"), asked.text("mode"))
    })
}

/// Both options, each in one of its two forms; neither; and a number beyond its limits.
#[test]
fn words_by_a_table(rt: HostRuntime) -> Result<(), Fail> {
    let alloc = rt.alloc();
    let mut words = Vec::new(alloc);
    words.push(String::from_str(alloc, "--rings")?)?;
    words.push(String::from_str(alloc, "8")?)?;
    words.push(String::from_str(alloc, "--mode=fill")?)?;
    assert_eq!(rt; asked_of(alloc, &words)?, (Some(8), Some("fill")));
    assert_eq!(rt; asked_of(alloc, &Vec::new(alloc))?, (Some(1), None));
    words[1] = String::from_str(alloc, "9")?;
    assert!(rt; matches!(asked_of(alloc, &words), Err(WordFault::Usage)));
    Ok(())
}
