//! The words of the command line.

ghost use Rattle.std.specs.Prelude.{◌≡◌, ◌≤◌, ◌+◌, ◌*◌, true, length, map, IfSome};
ghost use Rattle.std.specs.String.{string_bytes};
ghost use Rattle.live_rings.specs.Words.{AreFew, are_in_range, asked, asked_behind, most_rings, secret_in, with_servers};

use live_run::{Medium, ServerWords, asked_in};
use live_server::{Secret, Setting};
use shell::numeral;
use squeue_enter::Mode;
use squeue_streams::SourcePace;

/// How a run is set up: its squeues, how rings enter, what each stream's server is started with, and whether a ring goes on where
/// memory is missing, which then costs a connection.
#[derive(Drop)]
pub struct Layout {
    pub squeues: u32,
    pub mode: Mode,
    pub budget: u32,
    pub setting: Setting,
    pub secret: Secret,
    pub goes_on: bool,
}

impl Layout {
    /// How rings enter.
    pub fn pace(&self) -> SourcePace
        requires { 1 ≤ self.now.budget }
        ensures { (result.mode ≡ self.now.mode) × (result.budget ≡ self.now.budget) }
    {
        SourcePace {
            mode: self.mode,
            budget: self.budget,
        }
    }
}

/// What is asked for: how many rings and squeues, how rings enter, what the servers are started with, and whether their secret is given.
#[derive(Drop)]
pub struct RingWords {
    pub rings: u32,
    pub squeues: u32,
    pub mode: Mode,
    pub budget: u32,
    pub setting: Setting,
    pub secret: Option<Secret>,
}

/// The most rings, one for each quota that a squeue may have, and the most squeues.
pub const MOST_RINGS: u32 = 63;

/// What the words behind the program's name ask for, where they do, and how many of them there are before the files' names.
pub fn rings_asked(words: &[String]) -> Option<(RingWords, usize)>
    ensures asked { result ≡ asked (map (λ s. string_bytes s) words.now) }
    ensures few { IfSome result (λ r. AreFew r.0) }
    ensures files { IfSome result (λ r. r.1 + 2 * r.0.rings ≡ length words.now) }
{
    let [a, rings, b, squeues, c, mode, d, budget, rest @ ..] = words else {
        return None;
    };
    if a.as_str() != "--rings"
        || b.as_str() != "--squeues"
        || c.as_str() != "--mode"
        || d.as_str() != "--budget"
    {
        return None;
    }
    asked_behind(
        numeral(rings.as_str())?,
        numeral(squeues.as_str())?,
        Mode::of(mode.as_str())?,
        numeral(budget.as_str())?,
        rest,
    )
}

fn asked_behind(
    rings: u32,
    squeues: u32,
    mode: Mode,
    budget: u32,
    rest: &[String],
) -> Option<(RingWords, usize)>
    ensures asked { result ≡ asked_behind rings squeues mode budget (map (λ s. string_bytes s) rest.now) }
    ensures few { IfSome result (λ r. AreFew r.0) }
    ensures files { IfSome result (λ r. r.1 + 2 * r.0.rings ≡ 8 + length rest.now) }
{
    let files = 2 * rings as usize;
    if !are_in_range(rings, squeues, budget) || rest.len() < files {
        return None;
    }
    let (own, _) = rest.split_at(rest.len() - files);
    let asked = asked_in(own)?;
    let words = with_servers(rings, squeues, mode, budget, asked);
    Some((words, 8 + own.len()))
}

fn are_in_range(rings: u32, squeues: u32, budget: u32) -> bool
    ensures is { result ≡ are_in_range rings squeues budget }
    ensures range { result ≡ true → (rings ≤ most_rings) × (1 ≤ squeues) × (1 ≤ budget) }
{
    rings >= 1 && rings <= MOST_RINGS && squeues >= 1 && squeues <= MOST_RINGS && budget >= 1
}

fn with_servers(rings: u32, squeues: u32, mode: Mode, budget: u32, asked: ServerWords) -> RingWords
    ensures { result ≡ with_servers rings squeues mode budget asked }
{
    RingWords {
        rings,
        squeues,
        mode,
        budget,
        setting: asked.setting,
        secret: secret_in(asked.mode),
    }
}

fn secret_in(ends: Medium) -> Option<Secret>
    ensures { result ≡ secret_in ends }
{
    match ends {
        Medium::Frames(secret) => Some(secret),
        Medium::Device => None,
    }
}
