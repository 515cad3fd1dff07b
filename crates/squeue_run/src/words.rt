//! The words of the command line: the table of the options, and what they and the CALLs ask for.

ghost use Rattle.std.specs.Prelude.{◌≡◌, None, Some, Err, IfOk, length, map};
ghost use Rattle.std.specs.String.{string_bytes};
ghost use Rattle.shell.specs.Asked.{givens_of};
ghost use Rattle.squeue_run.specs.Asked.{asked, go_together, setup_of};

use crate::calls::CallWord;
use conn_blocks::MOST_CALLS;
use histories::{MODE_WORDS, Mode};
use ring_quotas::{MOST_BUDGET, MOST_RINGS, MOST_SPREAD, MOST_SQUEUES, Setup};
use shell::{Asked, OptionRow, Table, Takes, WordFault, words_asked};
use std::alloc::Global;

/// The name that the program calls itself by.
pub const SQRUN: &str = "sqrun";

/// The words that it takes.
pub const TABLE: Table = Table {
    program: SQRUN,
    options: &[
        OptionRow {
            name: "squeues",
            takes: Takes::Number {
                least: 1,
                most: MOST_SQUEUES,
                default: Some(1),
            },
        },
        OptionRow {
            name: "rings",
            takes: Takes::Number {
                least: 1,
                most: MOST_RINGS,
                default: Some(1),
            },
        },
        OptionRow {
            name: "mode",
            takes: Takes::Text {
                shown: MODE_WORDS,
                default: Some("process"),
            },
        },
        OptionRow {
            name: "budget",
            takes: Takes::Number {
                least: 1,
                most: MOST_BUDGET,
                default: Some(64),
            },
        },
        OptionRow {
            name: "spread",
            takes: Takes::Number {
                least: 0,
                most: MOST_SPREAD,
                default: Some(0),
            },
        },
        OptionRow {
            name: "verify",
            takes: Takes::Nothing,
        },
        OptionRow {
            name: "trace",
            takes: Takes::Nothing,
        },
        OptionRow {
            name: "gen",
            takes: Takes::Number {
                least: 0,
                most: u32::MAX,
                default: None,
            },
        },
    ],
    most_calls: MOST_CALLS,
};

/// What the words ask for: the setup, whether checksums decide, the number of a generated input, and the CALLs in word order.
#[derive(Debug, Drop)]
pub struct AskedWords {
    pub setup: Setup,
    pub verify: bool,
    pub number: Option<u32>,
    pub calls: Vec<CallWord>,
}

/// What the words of the command line, without the program's name, ask for. `Usage` comes only where they are refused.
pub fn asked_in(alloc: Global, words: &[String]) -> Result<AskedWords, WordFault>
    ensures ok { IfOk result (λ w. asked (map (λ s. string_bytes s) words.now)
        ≡ Some (record { setup = w.setup; verify = w.verify; number = w.number; calls = w.calls.items })) }
    ensures usage { result ≡ Err WordFault.Usage → asked (map (λ s. string_bytes s) words.now) ≡ None }
{
    let asked = words_asked::<CallWord>(alloc, &TABLE, words)?;
    let Some(setup) = setup_in(&asked) else {
        return Err(WordFault::Usage);
    };
    let number = asked.number("gen");
    if !go_together(number, setup.trace, &asked.calls) {
        return Err(WordFault::Usage);
    }
    Ok(AskedWords {
        setup,
        verify: asked.is_set("verify"),
        number,
        calls: asked.calls,
    })
}

/// The setup that the options name.
fn setup_in(asked: &Asked<'_, CallWord>) -> Option<Setup>
    ensures { result ≡ setup_of (givens_of asked.now.givens.items) }
{
    Some(Setup {
        squeues: asked.number("squeues")?,
        rings: asked.number("rings")?,
        mode: Mode::of(asked.text("mode")?)?,
        budget: asked.number("budget")?,
        spread: asked.number("spread")?,
        trace: asked.is_set("trace"),
    })
}

/// Whether neither a CALL nor a trace stands beside a generated input.
fn go_together(number: Option<u32>, trace: bool, calls: &[CallWord]) -> bool
    ensures { result ≡ go_together number trace (length calls.now) }
{
    !(number.is_some() && (trace || !calls.is_empty()))
}
