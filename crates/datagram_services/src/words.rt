//! The words of the command line: the table of the options, and the setup that they name.

ghost use Rattle.std.specs.Prelude.{◌≡◌, false, Err, None, Some, IfOk, map, string_bytes};
ghost use Rattle.ring_quotas.specs.Quotas.{IsInRange};
ghost use Rattle.shell.specs.Asked.{givens_of};
ghost use Rattle.datagram_services.specs.MoreWords.{more_setup, setup_of};

use histories::{MODE_WORDS, Mode};
use ring_quotas::{MOST_BUDGET, MOST_RINGS, MOST_SQUEUES, Setup};
use shell::{Asked, NoCall, OptionRow, Table, Takes, WordFault, words_asked};
use std::alloc::Global;

/// The words that the program takes. Streams don't move, so there is no spread.
pub const TABLE: Table = Table {
    program: "sqmore",
    options: &[
        OptionRow {
            name: "squeues",
            takes: Takes::Number {
                least: 1,
                most: MOST_SQUEUES,
                default: Some(1),
            },
        },
        OptionRow {
            name: "rings",
            takes: Takes::Number {
                least: 1,
                most: MOST_RINGS,
                default: Some(1),
            },
        },
        OptionRow {
            name: "mode",
            takes: Takes::Text {
                shown: MODE_WORDS,
                default: Some("process"),
            },
        },
        OptionRow {
            name: "budget",
            takes: Takes::Number {
                least: 1,
                most: MOST_BUDGET,
                default: Some(64),
            },
        },
    ],
    most_calls: 0,
};

/// The setup that the words name. `Usage` comes only where they are refused.
#[tactic(auto, unfolding(crate::specs::MoreWords::more_setup))]
pub fn setup_words(alloc: Global, words: &[String]) -> Result<Setup, WordFault>
    ensures ok { IfOk result (λ s. more_setup (map (λ w. string_bytes w) words.now) ≡ Some s) }
    ensures range { IfOk result (λ s. IsInRange s) }
    ensures spread { IfOk result (λ s. s.spread ≡ 0) }
    ensures trace { IfOk result (λ s. s.trace ≡ false) }
    ensures usage { result ≡ Err WordFault.Usage → more_setup (map (λ w. string_bytes w) words.now) ≡ None }
{
    let asked = words_asked::<NoCall>(alloc, &TABLE, words)?;
    match setup_in(&asked) {
        Some(setup) => Ok(setup),
        None => Err(WordFault::Usage),
    }
}

/// The setup that the options name.
fn setup_in(asked: &Asked<'_, NoCall>) -> Option<Setup>
    ensures { result ≡ setup_of (givens_of asked.now.givens.items) }
{
    Some(Setup {
        squeues: asked.number("squeues")?,
        rings: asked.number("rings")?,
        mode: Mode::of(asked.text("mode")?)?,
        budget: asked.number("budget")?,
        spread: 0,
        trace: false,
    })
}
