//! Where a request's head begins and ends.

ghost use Rattle.std.specs.Prelude.{◌≡◌, ◌<◌, ◌≤◌, IfSome, length};
ghost use Rattle.std.specs.Option.{option_copied};
ghost use Rattle.http_pages.specs.Heads.{begins_badly, behind_empty_line, behind_head, from_request_line, head_length};

use httparse::is_method_token;

/// What stands behind an empty line at the front.
fn behind_empty_line(bytes: &[u8]) -> Option<&[u8]>
    ensures is { option_copied result ≡ behind_empty_line bytes.now }
    ensures less { IfSome result (λ r. length r.now < length bytes.now) }
{
    match bytes {
        [b'\n', rest @ ..] => Some(rest),
        [b'\r', b'\n', rest @ ..] => Some(rest),
        _ => None,
    }
}

/// What came, from the request line on.
#[tactic(auto, using(crate::proofs::HeadLemmas::empty_skipped, crate::proofs::HeadLemmas::full_stays))]
pub fn from_request_line(mut bytes: &[u8]) -> &[u8]
    ensures is { result.now ≡ from_request_line bytes.now }
    ensures less { length result.now ≤ length bytes.now }
{
    while let Some(rest) = behind_empty_line(bytes) {
        bytes = rest;
    }
    bytes
}

/// What stands behind the first empty line, from within a line on.
#[tactic(auto, unfolding(crate::specs::Heads::behind_head))]
fn behind_head(mut bytes: &[u8]) -> Option<&[u8]>
    ensures is { option_copied result ≡ behind_head bytes.now }
    ensures less { IfSome result (λ r. length r.now < length bytes.now) }
{
    while let [first, rest @ ..] = bytes {
        if *first == b'\n'
            && let Some(behind) = behind_empty_line(rest)
        {
            return Some(behind);
        }
        bytes = rest;
    }
    None
}

/// How many bytes the head takes, with the empty lines before it, once its empty line has come.
pub fn head_length(bytes: &[u8]) -> Option<usize>
    ensures is { result ≡ head_length bytes.now }
    ensures within { IfSome result (λ n. n ≤ length bytes.now) }
{
    let rest = behind_head(from_request_line(bytes))?;
    Some(bytes.len() - rest.len())
}

/// Whether a byte that can't begin a method stands there.
pub fn begins_badly(bytes: &[u8]) -> bool
    ensures { result ≡ begins_badly bytes.now }
{
    match bytes {
        [first, ..] => !is_method_token(*first) && *first != b'\r',
        [] => false,
    }
}
