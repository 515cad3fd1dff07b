//! Parts of a text: words, lines, and the elements of a list.

ghost use Rattle.std.specs.Prelude.{◌≡◌, ◌≢◌, ◌<◌, ◌==◌, ◌∷◌, [], ℕ, IfSome, IfNone, MatchOption, length, reverse, slice_index};
ghost use Rattle.std.specs.List.{before_first, after_first};
ghost use Rattle.httparse.specs.Grammar.{skip_ows, trim_ows};
ghost use Rattle.http_pages.specs.Heads.{lines, without_cr};
ghost use Rattle.http_pages.specs.Requests.{list_elements};

use httparse::is_space_or_tab;

/// Where the first byte of this value stands.
pub fn place_of(bytes: &[u8], at: u8) -> Option<usize>
    ensures { MatchOption result
        ((k : ℕ) → k < length bytes.now → slice_index bytes.now k ≢ at)
        (λ n. (n < length bytes.now) × (slice_index bytes.now n ≡ at) × ((k : ℕ) → k < n → slice_index bytes.now k ≢ at)) }
{
    bytes.iter().position(|b| *b == at)
}

/// What stands before the first byte of this value, or all, and what stands behind it, or nothing.
pub fn cut(bytes: &[u8], at: u8) -> (&[u8], &[u8])
    ensures before { result.0.now ≡ before_first (λ b. b == at) bytes.now }
    ensures behind { result.1.now ≡ after_first (λ b. b == at) bytes.now }
{
    match place_of(bytes, at) {
        Some(n) => (bytes.split_at(n).0, bytes.split_at(n + 1).1),
        None => (bytes, &[]),
    }
}

/// A line without the CR at its end.
#[tactic(auto, unfolding(crate::specs::Heads::without_cr))]
fn without_cr(line: &[u8]) -> &[u8]
    ensures { result.now ≡ without_cr line.now }
{
    match line {
        [front @ .., last] if *last == b'\r' => front,
        _ => line,
    }
}

/// The next line that isn't empty, without its end, and what stands behind it.
#[tactic(auto, using(crate::proofs::Pieces::lines_next, crate::proofs::Pieces::lines_skip, crate::proofs::Pieces::lines_none, crate::proofs::Pieces::after_less))]
pub fn next_line(mut bytes: &[u8]) -> Option<(&[u8], &[u8])>
    ensures none { IfNone result (lines bytes.now ≡ []) }
    ensures next { IfSome result (λ r. lines bytes.now ≡ r.0.now ∷ lines r.1.now) }
    ensures less { IfSome result (λ r. length r.1.now < length bytes.now) }
{
    while !bytes.is_empty() {
        let (line, rest) = cut(bytes, b'\n');
        let line = without_cr(line);
        if !line.is_empty() {
            return Some((line, rest));
        }
        bytes = rest;
    }
    None
}

/// The next element of a list that isn't empty, and what stands behind it.
#[tactic(auto, using(crate::proofs::Pieces::elements_next, crate::proofs::Pieces::elements_skip, crate::proofs::Pieces::elements_none, crate::proofs::Pieces::after_less))]
pub fn next_element(mut bytes: &[u8]) -> Option<(&[u8], &[u8])>
    ensures none { IfNone result (list_elements bytes.now ≡ []) }
    ensures next { IfSome result (λ r. list_elements bytes.now ≡ r.0.now ∷ list_elements r.1.now) }
    ensures less { IfSome result (λ r. length r.1.now < length bytes.now) }
{
    while !bytes.is_empty() {
        let (element, rest) = cut(bytes, b',');
        let element = trimmed(element);
        if !element.is_empty() {
            return Some((element, rest));
        }
        bytes = rest;
    }
    None
}

fn from_text(mut bytes: &[u8]) -> &[u8]
    ensures { result.now ≡ skip_ows bytes.now }
{
    while let [first, rest @ ..] = bytes
        && is_space_or_tab(*first)
    {
        bytes = rest;
    }
    bytes
}

fn up_to_text(mut bytes: &[u8]) -> &[u8]
    ensures { result.now ≡ reverse (skip_ows (reverse bytes.now)) }
{
    while let [rest @ .., last] = bytes
        && is_space_or_tab(*last)
    {
        bytes = rest;
    }
    bytes
}

/// A text without the white space around it.
#[tactic(auto, unfolding(httparse::specs::Grammar::trim_ows))]
pub fn trimmed(bytes: &[u8]) -> &[u8]
    ensures { result.now ≡ trim_ows bytes.now }
{
    up_to_text(from_text(bytes))
}
