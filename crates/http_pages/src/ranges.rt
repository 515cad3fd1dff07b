//! The part of a page that a request wants.

ghost use Rattle.std.specs.Prelude.{◌≡◌, ◌^◌, ◌-◌, ◌<◌, codes, min, option_map};
ghost use Rattle.http_pages.specs.Heads.{lines};
ghost use Rattle.http_pages.specs.Ranges.{by_ranges, int_range, is_unchanged, number, range_set, range_spec, ranges_specifier, suffix_range, wanted_part};
ghost use Rattle.http_pages.specs.Requests.{values_of};

use crate::cuts::cut;
use crate::requests::next_value;
use http1::text::eq_ignore_case;

/// What a request wants of a page (RFC 9110, 14.1.2 and 14.2).
#[derive(Clone, Copy, Debug, PartialEq, Eq)]
pub enum Wanted {
    /// All of it.
    Whole,
    /// The bytes from one place up to another.
    Part { from: usize, to: usize },
    /// Bytes that it hasn't.
    Nothing,
}

/// The number that digits write, or the greatest `usize` where it is larger.
fn number(text: &[u8]) -> Option<usize>
    ensures { result ≡ option_map (λ n. min n (2 ^ 64 - 1)) (number text.now) }
{
    if text.is_empty() {
        return None;
    }
    let mut n: usize = 0;
    for b in text {
        if !b.is_ascii_digit() {
            return None;
        }
        n = n.saturating_mul(10).saturating_add(usize::from(*b - b'0'));
    }
    Some(n)
}

fn int_range(size: usize, first: usize, last: usize) -> Wanted
    ensures { result ≡ int_range size first last }
{
    if size <= first {
        Wanted::Nothing
    } else if last < first {
        Wanted::Whole
    } else {
        Wanted::Part {
            from: first,
            to: last.min(size - 1) + 1,
        }
    }
}

fn suffix_range(size: usize, count: usize) -> Wanted
    ensures { result ≡ suffix_range size count }
{
    if count == 0 {
        Wanted::Nothing
    } else if size == 0 {
        Wanted::Whole
    } else {
        Wanted::Part {
            from: size.saturating_sub(count),
            to: size,
        }
    }
}

/// By what stands on both sides of the hyphen.
fn range_spec(size: usize, before: &[u8], behind: &[u8]) -> Wanted
    requires { size < 2 ^ 64 - 1 }
    ensures { result ≡ range_spec size before.now behind.now }
{
    if before.is_empty() {
        return match number(behind) {
            Some(count) => suffix_range(size, count),
            None => Wanted::Whole,
        };
    }
    let last = if behind.is_empty() {
        Some(size)
    } else {
        number(behind)
    };
    match (number(before), last) {
        (Some(first), Some(last)) => int_range(size, first, last),
        _ => Wanted::Whole,
    }
}

fn range_set(size: usize, set: &[u8]) -> Wanted
    requires { size < 2 ^ 64 - 1 }
    ensures { result ≡ range_set size set.now }
{
    if set.contains(&b'-') {
        let (before, behind) = cut(set, b'-');
        range_spec(size, before, behind)
    } else {
        Wanted::Whole
    }
}

fn ranges_specifier(size: usize, value: &[u8]) -> Wanted
    requires { size < 2 ^ 64 - 1 }
    ensures { result ≡ ranges_specifier size value.now }
{
    let (unit, set) = cut(value, b'=');
    if eq_ignore_case(unit, b"bytes") {
        range_set(size, set)
    } else {
        Wanted::Whole
    }
}

fn by_ranges(size: usize, fields: &[u8]) -> Wanted
    requires { size < 2 ^ 64 - 1 }
    ensures { result ≡ by_ranges size (values_of (codes "range") (lines fields.now)) }
{
    match next_value(fields, b"range") {
        Some((value, rest)) if next_value(rest, b"range").is_none() => {
            ranges_specifier(size, value)
        }
        _ => Wanted::Whole,
    }
}

/// Whether the page is still the one of which the client has a part (RFC 9110, 13.1.5).
fn is_unchanged(tag: &[u8], fields: &[u8]) -> bool
    ensures { result ≡ is_unchanged tag.now (values_of (codes "if-range") (lines fields.now)) }
{
    match next_value(fields, b"if-range") {
        Some((value, rest)) => value == tag && next_value(rest, b"if-range").is_none(),
        None => true,
    }
}

/// What a request with these fields wants of a page with this tag and so many bytes.
pub fn wanted_part(tag: &[u8], size: usize, fields: &[u8]) -> Wanted
    requires { size < 2 ^ 64 - 1 }
    ensures { result ≡ wanted_part tag.now size (lines fields.now) }
{
    if is_unchanged(tag, fields) {
        by_ranges(size, fields)
    } else {
        Wanted::Whole
    }
}
