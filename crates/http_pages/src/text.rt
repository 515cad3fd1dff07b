//! The bytes of an answer.

ghost use Rattle.std.specs.Prelude.{◌≡◌, ◌++◌, IfOk, OnOk, codes};
ghost use Rattle.std.specs.Fmt.{decimal};
ghost use Rattle.http_pages.specs.AnswerText.{answer_body, answer_head, connection, content, escaped, escaped_byte, field, fields_by, is_path_byte, no_range, part_of, part_range, reason, sized};
ghost use Rattle.http_pages.specs.Choosing.{nth_page};

use crate::answer::{Answer, Status};
use crate::dates::date_at;
use crate::pages::Pages;
use percent_encoding::percent_encode_byte;
use std::alloc::{AllocError, Global};

/// A status with its phrase, on a line (RFC 9110, 15; RFC 6585, 5).
fn reason(status: Status) -> &'static [u8]
    ensures { result.now ≡ reason status }
{
    match status {
        Status::Ok => b"200 OK\r\n",
        Status::PartialContent => b"206 Partial Content\r\n",
        Status::MovedPermanently => b"301 Moved Permanently\r\n",
        Status::NotModified => b"304 Not Modified\r\n",
        Status::BadRequest => b"400 Bad Request\r\n",
        Status::NotFound => b"404 Not Found\r\n",
        Status::MethodNotAllowed => b"405 Method Not Allowed\r\n",
        Status::PreconditionFailed => b"412 Precondition Failed\r\n",
        Status::ContentTooLarge => b"413 Content Too Large\r\n",
        Status::UriTooLong => b"414 URI Too Long\r\n",
        Status::RangeNotSatisfiable => b"416 Range Not Satisfiable\r\n",
        Status::HeadTooLarge => b"431 Request Header Fields Too Large\r\n",
        Status::NotImplemented => b"501 Not Implemented\r\n",
        Status::VersionNotSupported => b"505 HTTP Version Not Supported\r\n",
    }
}

/// The part of a page's body that is sent.
fn part_of(body: &[u8], answer: Answer) -> &[u8]
    ensures { result.now ≡ part_of body.now answer }
{
    let rest = body.split_at(answer.from.min(body.len())).1;
    rest.split_at(answer.to.saturating_sub(answer.from).min(rest.len()))
        .0
}

/// What the answer says to GET.
#[tactic(auto, unfolding(crate::specs::AnswerText::content))]
fn content(pages: &Pages, answer: Answer) -> &[u8]
    ensures { result.now ≡ content pages.now answer }
{
    match answer.status {
        Status::Ok | Status::PartialContent => part_of(pages.body(answer.page), answer),
        Status::NotModified => &[],
        status => reason(status),
    }
}

/// What stands behind the answer's head, in the pack itself.
#[tactic(auto, unfolding(crate::specs::AnswerText::answer_body))]
pub fn body_of(pages: &Pages, answer: Answer) -> &[u8]
    ensures { result.now ≡ answer_body pages.now answer }
{
    if answer.only_head {
        &[]
    } else {
        content(pages, answer)
    }
}

#[tactic(auto, unfolding(crate::specs::AnswerText::field))]
fn push_field(text: &mut Vec<u8>, name: &[u8], value: &[u8]) -> Result<(), AllocError>
    ensures { OnOk result (text.new.items ≡ text.old.items ++ field name.now value.now) }
{
    text.extend_from_slice(name)?;
    text.extend_from_slice(b": ")?;
    text.extend_from_slice(value)?;
    text.extend_from_slice(b"\r\n")
}

fn is_path_byte(b: u8) -> bool
    ensures { result ≡ is_path_byte b }
{
    b.is_ascii_alphanumeric() || b"/-._~!$&'()*+,;=:@".contains(&b)
}

fn push_escaped_byte(text: &mut Vec<u8>, b: u8) -> Result<(), AllocError>
    ensures { OnOk result (text.new.items ≡ text.old.items ++ escaped_byte b) }
{
    if is_path_byte(b) {
        text.push(b)?;
        Ok(())
    } else {
        text.extend_from_slice(percent_encode_byte(b).as_bytes())
    }
}

/// A path, as it stands in a URI.
#[tactic(auto, unfolding(crate::specs::AnswerText::escaped))]
fn push_escaped(text: &mut Vec<u8>, mut path: &[u8]) -> Result<(), AllocError>
    ensures { OnOk result (text.new.items ≡ text.old.items ++ escaped path.now) }
{
    while let [first, rest @ ..] = path {
        push_escaped_byte(text, *first)?;
        path = rest;
    }
    Ok(())
}

fn push_length(alloc: Global, text: &mut Vec<u8>, len: usize) -> Result<(), AllocError>
    ensures { OnOk result (text.new.items ≡ text.old.items ++ field (codes "Content-Length") (decimal len)) }
{
    let digits = format!(in alloc; "{len}")?;
    push_field(text, b"Content-Length", digits.as_bytes())
}

/// The type and the length of what GET would be told.
#[tactic(auto, unfolding(crate::specs::AnswerText::sized))]
fn push_sized(alloc: Global, text: &mut Vec<u8>, kind: &[u8], said: &[u8]) -> Result<(), AllocError>
    ensures { OnOk result (text.new.items ≡ text.old.items ++ sized kind.now said.now) }
{
    push_field(text, b"Content-Type", kind)?;
    push_length(alloc, text, said.len())?;
    Ok(())
}

#[tactic(auto, unfolding(crate::specs::AnswerText::field))]
fn push_location(text: &mut Vec<u8>, path: &[u8]) -> Result<(), AllocError>
    ensures { OnOk result (text.new.items ≡ text.old.items ++ field (codes "Location") (escaped path.now)) }
{
    text.extend_from_slice(b"Location: ")?;
    push_escaped(text, path)?;
    text.extend_from_slice(b"\r\n")
}

/// Which bytes of how many are sent (RFC 9110, 14.4).
fn push_part_range(
    alloc: Global,
    text: &mut Vec<u8>,
    answer: Answer,
    size: usize,
) -> Result<(), AllocError>
    ensures { OnOk result (text.new.items ≡ text.old.items ++ field (codes "Content-Range") (part_range size answer)) }
{
    let (from, last) = (answer.from, answer.to.saturating_sub(1));
    let range = format!(in alloc; "bytes {from}-{last}/{size}")?;
    push_field(text, b"Content-Range", range.as_bytes())
}

/// Of how many bytes none are sent.
fn push_no_range(alloc: Global, text: &mut Vec<u8>, size: usize) -> Result<(), AllocError>
    ensures { OnOk result (text.new.items ≡ text.old.items ++ field (codes "Content-Range") (no_range size)) }
{
    let range = format!(in alloc; "bytes */{size}")?;
    push_field(text, b"Content-Range", range.as_bytes())
}

/// The fields that belong to a status.
fn push_fields(
    alloc: Global,
    text: &mut Vec<u8>,
    pages: &Pages,
    answer: Answer,
) -> Result<(), AllocError>
    ensures { OnOk result (text.new.items ≡ text.old.items ++ fields_by answer.status (nth_page pages.now answer.page) answer (content pages.now answer)) }
{
    let (said, size) = (content(pages, answer), pages.body(answer.page).len());
    match answer.status {
        Status::Ok => {
            push_field(text, b"ETag", pages.tag(answer.page))?;
            push_sized(alloc, text, pages.kind(answer.page), said)
        }
        Status::PartialContent => {
            push_field(text, b"ETag", pages.tag(answer.page))?;
            push_part_range(alloc, text, answer, size)?;
            push_sized(alloc, text, pages.kind(answer.page), said)
        }
        Status::NotModified => push_field(text, b"ETag", pages.tag(answer.page)),
        Status::MovedPermanently => {
            push_location(text, pages.path(answer.page))?;
            push_sized(alloc, text, b"text/plain", said)
        }
        Status::MethodNotAllowed => {
            push_field(text, b"Allow", b"GET, HEAD")?;
            push_sized(alloc, text, b"text/plain", said)
        }
        Status::RangeNotSatisfiable => {
            push_no_range(alloc, text, size)?;
            push_sized(alloc, text, b"text/plain", said)
        }
        Status::BadRequest
        | Status::NotFound
        | Status::PreconditionFailed
        | Status::ContentTooLarge
        | Status::UriTooLong
        | Status::HeadTooLarge
        | Status::NotImplemented
        | Status::VersionNotSupported => push_sized(alloc, text, b"text/plain", said),
    }
}

/// Whether the connection stays, where a client couldn't know (RFC 9112, 9.3 and 9.6).
fn push_connection(text: &mut Vec<u8>, answer: Answer) -> Result<(), AllocError>
    ensures { OnOk result (text.new.items ≡ text.old.items ++ connection answer) }
{
    if !answer.keeps {
        push_field(text, b"Connection", b"close")
    } else if answer.old {
        push_field(text, b"Connection", b"keep-alive")
    } else {
        Ok(())
    }
}

/// The answer's head: its status line, its fields and the empty line. It is made anew at each call.
#[tactic(auto, unfolding(crate::specs::AnswerText::answer_head))]
pub fn head_of(alloc: Global, pages: &Pages, answer: Answer) -> Result<Vec<u8>, AllocError>
    ensures { IfOk result (λ head. head.items ≡ answer_head pages.now answer) }
{
    let mut text = Vec::new(alloc);
    text.extend_from_slice(b"HTTP/1.1 ")?;
    text.extend_from_slice(reason(answer.status))?;
    push_field(&mut text, b"Date", &date_at(answer.at))?;
    push_fields(alloc, &mut text, pages, answer)?;
    push_connection(&mut text, answer)?;
    text.extend_from_slice(b"\r\n")?;
    Ok(text)
}
