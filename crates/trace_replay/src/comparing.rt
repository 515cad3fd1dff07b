//! The lines on connections, held against those of the report of what was served.

ghost use Rattle.std.specs.Prelude.{◌≡◌, ℕ, ◌<◌, ◌≤◌, List, ◌++◌, MatchOption, codes, get_or, length, take};
ghost use Rattle.trace_replay.specs.Reasons.{DifferAt, lines_in};

/// The first lines of a report, with marks and without, and the last one.
const FIRST: &[u8] = b"report 2\n";

const PLAIN_FIRST: &[u8] = b"report 1\n";

const LAST: &[u8] = b"done\n";

/// The first line, from 1, at which the lines before the setup differ from those of the report without marks but for its first and
/// last line, where there is one.
pub fn first_wrong(found: &[u8], report: &[u8]) -> Option<u64>
    requires { (middle : List ℕ) × (report.now ≡ codes "report 1\n" ++ (middle ++ codes "done\n")) }
    ensures { MatchOption result
        ((middle : List ℕ) → report.now ≡ codes "report 1\n" ++ (middle ++ codes "done\n") → found.now ≡ codes "report 2\n" ++ middle)
        (λ n. (middle : List ℕ) → report.now ≡ codes "report 1\n" ++ (middle ++ codes "done\n") → DifferAt n found.now (codes "report 2\n" ++ middle)) }
{
    let Some(found) = found.strip_prefix(FIRST) else {
        return Some(1);
    };
    let right = body(report);
    let same = front_shared(found, right);
    if same == found.len() && same == right.len() {
        None
    } else {
        Some(lines_in(&right[..same]) + 2)
    }
}

/// The lines of a report without its first and its last one.
fn body(report: &[u8]) -> &[u8]
    requires { (middle : List ℕ) × (report.now ≡ codes "report 1\n" ++ (middle ++ codes "done\n")) }
    ensures { (middle : List ℕ) → report.now ≡ codes "report 1\n" ++ (middle ++ codes "done\n") → result.now ≡ middle }
{
    &report[PLAIN_FIRST.len()..report.len() - LAST.len()]
}

/// How many bytes two texts have in common at their front.
fn front_shared(one: &[u8], other: &[u8]) -> usize
    ensures within { (result ≤ length one.now) × (result ≤ length other.now) }
    ensures same { take result one.now ≡ take result other.now }
    ensures longest { result < length one.now → result < length other.now → get_or one.now result 0 ≡ get_or other.now result 0 → ⊥ }
{
    let most = one.len().min(other.len());
    for i in 0..most {
        if one[i] != other[i] {
            return i;
        }
    }
    most
}

/// How many lines end in the text.
fn lines_in(text: &[u8]) -> u64
    ensures count { result ≡ lines_in text.now }
    ensures few { result ≤ length text.now }
{
    let mut count = 0;
    for byte in text {
        if *byte == b'\n' {
            count += 1;
        }
    }
    count
}
