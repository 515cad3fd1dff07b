//! What a request's head says.

ghost use Rattle.std.specs.Prelude.{◌≡◌, ◌∷◌, [], IfNone, IfSome};
ghost use Rattle.std.specs.List.{list_all, list_any};
ghost use Rattle.httparse.specs.Grammar.{is_uri_byte};
ghost use Rattle.http1.specs.Framing.{method_kind, request_framing};
ghost use Rattle.http_pages.specs.Choosing.{is_same};
ghost use Rattle.http_pages.specs.Heads.{lines};
ghost use Rattle.http_pages.specs.Requests.{fault_of, framing_fault, framing_of, has_content, has_field, has_host, has_tag};
ghost use Rattle.http_pages.specs.Requests.{is_content, is_field_line, is_major_one, is_request_line, is_version, keeps, known_of, names_host, names_tag};
ghost use Rattle.http_pages.specs.Requests.{list_elements, method_of, minor_of, name_of, target_of, value_of, values_of, version_of};

use crate::answer::Status;
use crate::cuts::{cut, next_element, next_line, trimmed};
use crate::hosts::is_host;
use http1::fields::KnownFields;
use http1::framing::{Framing, FramingError, MethodKind, request_framing};
use http1::text::eq_ignore_case;
use httparse::{is_header_value, is_token, is_uri_token};

/// The words of a request line (RFC 9112, 3): its method, its target and its version.
pub fn words_of(line: &[u8]) -> (&[u8], &[u8], &[u8])
    ensures method { result.0.now ≡ method_of line.now }
    ensures target { result.1.now ≡ target_of line.now }
    ensures version { result.2.now ≡ version_of line.now }
{
    let (method, rest) = cut(line, b' ');
    let (target, version) = cut(rest, b' ');
    (method, target, version)
}

fn is_version(version: &[u8]) -> bool
    ensures { result ≡ is_version version.now }
{
    version.len() == 8
        && version.split_at(5).0 == b"HTTP/".as_slice()
        && version[5].is_ascii_digit()
        && version[6] == b'.'
        && version[7].is_ascii_digit()
}

fn has_uri_bytes(target: &[u8]) -> bool
    ensures { result ≡ list_all is_uri_byte target.now }
{
    target.iter().all(|b| is_uri_token(*b))
}

fn is_request_line(line: &[u8]) -> bool
    ensures { result ≡ is_request_line line.now }
{
    let (method, target, version) = words_of(line);
    is_token(method) && !target.is_empty() && has_uri_bytes(target) && is_version(version)
}

fn is_major_one(version: &[u8]) -> bool
    ensures { result ≡ is_major_one version.now }
{
    match version {
        [_, _, _, _, _, major, ..] => *major == b'1',
        _ => false,
    }
}

/// The minor version that is spoken: 0 or 1.
pub fn minor_of(version: &[u8]) -> u8
    ensures { result ≡ minor_of version.now }
{
    match version {
        [_, _, _, _, _, _, _, b'0', ..] => 0,
        _ => 1,
    }
}

fn is_field_line(line: &[u8]) -> bool
    ensures { result ≡ is_field_line line.now }
{
    let (name, value) = cut(line, b':');
    is_token(name) && line.contains(&b':') && is_header_value(value)
}

fn are_field_lines(mut fields: &[u8]) -> bool
    ensures { result ≡ list_all is_field_line (lines fields.now) }
{
    while let Some((line, rest)) = next_line(fields) {
        if !is_field_line(line) {
            return false;
        }
        fields = rest;
    }
    true
}

/// A field's name and its value (RFC 9112, 5).
fn header_of(line: &[u8]) -> (&[u8], &[u8])
    ensures name { result.0.now ≡ name_of line.now }
    ensures value { result.1.now ≡ value_of line.now }
{
    let (name, value) = cut(line, b':');
    (name, trimmed(value))
}

/// What the field lines say of host, content and connection.
pub fn known_in(mut fields: &[u8]) -> KnownFields
    ensures { result ≡ known_of (lines fields.now) }
{
    let mut known = KnownFields::new();
    while let Some((line, rest)) = next_line(fields) {
        let (name, value) = header_of(line);
        known.add(name, value);
        fields = rest;
    }
    known
}

/// Whether there is a field of this name.
pub fn has_field(mut fields: &[u8], name: &[u8]) -> bool
    ensures { result ≡ has_field name.now (lines fields.now) }
{
    while let Some((line, rest)) = next_line(fields) {
        if eq_ignore_case(header_of(line).0, name) {
            return true;
        }
        fields = rest;
    }
    false
}

/// The value of the next field of this name, and the fields behind it.
#[tactic(auto, unfolding(crate::specs::Requests::values_of))]
pub fn next_value<'a>(mut fields: &'a [u8], name: &[u8]) -> Option<(&'a [u8], &'a [u8])>
    ensures none { IfNone result (values_of name.now (lines fields.now) ≡ []) }
    ensures next { IfSome result (λ r. values_of name.now (lines fields.now) ≡ r.0.now ∷ values_of name.now (lines r.1.now)) }
{
    while let Some((line, rest)) = next_line(fields) {
        let (named, value) = header_of(line);
        if eq_ignore_case(named, name) {
            return Some((value, rest));
        }
        fields = rest;
    }
    None
}

/// Whether an element of a field's list is this tag: by the weak comparison, or by the strong one (RFC 9110, 8.8.3.2).
fn is_same(element: &[u8], tag: &[u8], weak: bool) -> bool
    ensures { result ≡ is_same weak tag.now element.now }
{
    element == tag
        || (weak
            && element.len() >= 2
            && element.split_at(2).0 == b"W/".as_slice()
            && element.split_at(2).1 == tag)
}

fn names_in(mut value: &[u8], tag: &[u8], weak: bool) -> bool
    ensures { result ≡ list_any (is_same weak tag.now) (list_elements value.now) }
{
    while let Some((element, rest)) = next_element(value) {
        if is_same(element, tag, weak) {
            return true;
        }
        value = rest;
    }
    false
}

fn has_tag(value: &[u8], tag: &[u8], weak: bool) -> bool
    ensures { result ≡ has_tag (is_same weak tag.now) value.now }
{
    value == b"*".as_slice() || names_in(value, tag, weak)
}

/// Whether a field of this name has the tag, or is a star.
pub fn names_tag(mut fields: &[u8], name: &[u8], tag: &[u8], weak: bool) -> bool
    ensures { result ≡ names_tag name.now (is_same weak tag.now) (lines fields.now) }
{
    while let Some((line, rest)) = next_line(fields) {
        let (named, value) = header_of(line);
        if eq_ignore_case(named, name) && has_tag(value, tag, weak) {
            return true;
        }
        fields = rest;
    }
    false
}

fn name_hosts(mut fields: &[u8]) -> bool
    ensures { result ≡ list_all names_host (lines fields.now) }
{
    while let Some((line, rest)) = next_line(fields) {
        let (name, value) = header_of(line);
        if eq_ignore_case(name, b"host") && !is_host(value) {
            return false;
        }
        fields = rest;
    }
    true
}

fn has_host(minor: u8, fields: &[u8], known: &KnownFields) -> bool
    requires { known.now ≡ known_of (lines fields.now) }
    ensures { result ≡ has_host minor (lines fields.now) }
{
    (known.hosts == 1 || (minor == 0 && known.hosts == 0)) && name_hosts(fields)
}

fn framing_of(line: &[u8], known: &KnownFields) -> Result<Framing, FramingError>
    ensures { result ≡ request_framing (method_kind (method_of line.now)) (minor_of (version_of line.now)) known.now }
{
    let (method, _, version) = words_of(line);
    request_framing(MethodKind::of(method), minor_of(version), known)
}

fn is_content(framing: Framing) -> bool
    ensures { result ≡ is_content framing }
{
    match framing {
        Framing::NoBody => false,
        Framing::Length(n) => n > 0,
        Framing::Chunked | Framing::UntilClose => true,
    }
}

/// Whether content comes behind the head (RFC 9112, 6).
pub fn has_content(line: &[u8], fields: &[u8], known: &KnownFields) -> bool
    requires { known.now ≡ known_of (lines fields.now) }
    ensures { result ≡ has_content line.now (lines fields.now) }
{
    match framing_of(line, known) {
        Ok(framing) => is_content(framing),
        Err(_) => true,
    }
}

fn framing_fault(line: &[u8], fields: &[u8], known: &KnownFields) -> Option<Status>
    requires { known.now ≡ known_of (lines fields.now) }
    ensures { result ≡ framing_fault (known_of (lines fields.now)).other_coding (framing_of line.now (lines fields.now)) }
{
    match framing_of(line, known) {
        Ok(_) if known.other_coding => Some(Status::NotImplemented),
        Ok(_) => None,
        Err(_) => Some(Status::BadRequest),
    }
}

/// Why a head is refused, whatever it asks for.
pub fn fault_of(line: &[u8], fields: &[u8], known: &KnownFields) -> Option<Status>
    requires { known.now ≡ known_of (lines fields.now) }
    ensures { result ≡ fault_of line.now (lines fields.now) }
{
    let version = words_of(line).2;
    if !is_request_line(line) {
        Some(Status::BadRequest)
    } else if !is_major_one(version) {
        Some(Status::VersionNotSupported)
    } else if !are_field_lines(fields) || !has_host(minor_of(version), fields, known) {
        Some(Status::BadRequest)
    } else {
        framing_fault(line, fields, known)
    }
}

/// Whether the connection stays behind this request (RFC 9112, 9.3).
pub fn keeps(line: &[u8], fields: &[u8], known: &KnownFields) -> bool
    requires { known.now ≡ known_of (lines fields.now) }
    ensures { result ≡ keeps line.now (lines fields.now) }
{
    let version = words_of(line).2;
    !known.close
        && !has_content(line, fields, known)
        && (minor_of(version) != 0 || known.keep_alive)
}
