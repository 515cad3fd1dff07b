//! The words that set TTL and DSCP.

ghost use Rattle.std.specs.Prelude.{◌≡◌, ◌≤◌, IfSome, map, option_map};
ghost use Rattle.std.specs.String.{string_bytes};
ghost use Rattle.live_run.specs.MarkingWords.{marking_in, number_in};

use live_server::{Marking, USUAL_MARKING};
use shell::number_between;

/// What `--ttl N`, 1 to 255, and then `--dscp N`, 0 to 63, set where they stand first, and the words behind them.
pub fn marking_in(words: &[String]) -> Option<(Marking, &[String])>
    ensures { option_map (λ r. (r.0, map (λ s. string_bytes s) r.1.now)) result ≡ marking_in (map (λ s. string_bytes s) words.now) }
{
    let (ttl, rest) = number_in(words, "--ttl", 1, 255, u32::from(USUAL_MARKING.ttl))?;
    let (dscp, rest) = number_in(rest, "--dscp", 0, 63, u32::from(USUAL_MARKING.dscp))?;
    let marking = Marking {
        ttl: ttl as u8,
        dscp: dscp as u8,
    };
    Some((marking, rest))
}

/// The number behind a word that stands first, and what stands behind it; the usual one where the word doesn't.
fn number_in<'a>(
    words: &'a [String],
    word: &str,
    least: u32,
    most: u32,
    usual: u32,
) -> Option<(u32, &'a [String])>
    requires { usual ≤ most }
    ensures is { option_map (λ r. (r.0, map (λ s. string_bytes s) r.1.now)) result ≡ number_in word.now least most usual (map (λ s. string_bytes s) words.now) }
    ensures range { IfSome result (λ r. r.0 ≤ most) }
{
    match words {
        [first, number, rest @ ..] if first.as_str() == word => {
            let number = number_between(number.as_str(), least, most)?;
            Some((number, rest))
        }
        _ => Some((usual, words)),
    }
}
