//! The words of the command line, as the program goes on with them.

ghost use Rattle.std.specs.Prelude.{◌≡◌, ◌<◌, ◌≤◌, None, Some, Err, IfOk, map, length};
ghost use Rattle.std.specs.List.{AllByRecursion};
ghost use Rattle.std.specs.String.{string_bytes};
ghost use Rattle.conn_blocks.specs.Limits.{callers, most_calls};
ghost use Rattle.ring_quotas.specs.Quotas.{IsInRange};
ghost use Rattle.squeue_run.specs.Asked.{asked, asked_by_words, rules_of};
ghost use Rattle.squeue_run.specs.CallWords.{lists_of};

use crate::calls::CallWord;
use crate::words::asked_in;
use conn_blocks::Calls;
use conn_classifier::Rules;
use ring_quotas::Setup;
use shell::WordFault;
use std::alloc::{AllocError, Global};

/// What the words ask for.
#[derive(Drop)]
pub struct Words {
    pub setup: Setup,
    /// Whether checksums decide.
    pub verify: bool,
    /// Whether the report has the marks of each squeue's history; the setup says the same.
    pub trace: bool,
    /// The number of a generated input, where one is asked for.
    pub number: Option<u32>,
    /// The CALLs by thread.
    pub calls: Calls,
    /// The CALLs in word order.
    pub named: Vec<CallWord>,
}

impl Words {
    /// By what the plan is made, beside the capture.
    pub fn rules(&self) -> Rules
        ensures { result ≡ rules_of (asked_by_words self.now) }
    {
        Rules::usual(self.verify)
    }
}

/// What the words of the command line, without the program's name, ask for. `Usage` comes only where they are refused.
pub fn read_words(alloc: Global, words: &[String]) -> Result<Words, WordFault>
    ensures ok { IfOk result (λ w. asked (map (λ s. string_bytes s) words.now) ≡ Some (asked_by_words w)) }
    ensures setup { IfOk result (λ w. IsInRange w.setup) }
    ensures trace { IfOk result (λ w. w.trace ≡ w.setup.trace) }
    ensures calls { IfOk result (λ w. w.calls ≡ lists_of w.named.items) }
    ensures usage { result ≡ Err WordFault.Usage → asked (map (λ s. string_bytes s) words.now) ≡ None }
{
    let given = match asked_in(alloc, words) {
        Ok(given) => given,
        Err(fault) => return Err(fault),
    };
    match lists_in(alloc, &given.calls) {
        Ok(calls) => Ok(Words {
            setup: given.setup,
            verify: given.verify,
            trace: given.setup.trace,
            number: given.number,
            calls,
            named: given.calls,
        }),
        Err(_) => Err(WordFault::NoMemory),
    }
}

/// The CALLs by thread.
fn lists_in(alloc: Global, named: &[CallWord]) -> Result<Calls, AllocError>
    requires few { length named.now ≤ most_calls }
    requires threads { AllByRecursion (λ w. w.thread < callers) named.now }
    ensures { IfOk result (λ calls. calls ≡ lists_of named.now) }
{
    let mut calls = Calls::make(alloc);
    for word in named {
        calls.push(word.thread, word.connection, word.call)?;
    }
    Ok(calls)
}
