//! Which answer a request gets.

ghost use Rattle.std.specs.Prelude.{◌≡◌, ◌^◌, ◌-◌, ◌<◌};
ghost use Rattle.std.specs.Option.{option_copied};
ghost use Rattle.http_pages.specs.Choosing.{answer, at_folder, at_page, behind_authority, by_conditions, by_fault, by_method, by_path, by_range};
ghost use Rattle.http_pages.specs.Choosing.{from_slash, has_scheme, is_head, is_known, is_matched, is_served, path_of, plain, refused, unserved, with_part};
ghost use Rattle.http_pages.specs.Heads.{lines};
ghost use Rattle.http_pages.specs.Pages.{page_named};
ghost use Rattle.http_pages.specs.Requests.{fault_of, has_content, known_of, method_of};

use crate::answer::{Answer, Status};
use crate::cuts::{cut, next_line, place_of};
use crate::hosts::is_authority;
use crate::pages::Pages;
use crate::ranges::{Wanted, wanted_part};
use crate::requests::{
    fault_of, has_content, has_field, keeps, known_in, minor_of, names_tag, words_of,
};
use http1::fields::KnownFields;
use http1::text::eq_ignore_case;

/// An answer behind which the connection ends.
pub fn refused(status: Status, only_head: bool, at: u64) -> Answer
    ensures { result ≡ refused status only_head at }
{
    Answer {
        status,
        page: 0,
        from: 0,
        to: 0,
        only_head,
        keeps: false,
        old: false,
        at,
    }
}

/// An answer without a page.
fn plain(line: &[u8], fields: &[u8], known: &KnownFields, at: u64, status: Status) -> Answer
    requires { known.now ≡ known_of (lines fields.now) }
    ensures { result ≡ plain line.now (lines fields.now) at status }
{
    let (method, _, version) = words_of(line);
    Answer {
        status,
        page: 0,
        from: 0,
        to: 0,
        only_head: is_head(method),
        keeps: keeps(line, fields, known),
        old: minor_of(version) == 0,
        at,
    }
}

fn is_head(method: &[u8]) -> bool
    ensures { result ≡ is_head method.now }
{
    method == b"HEAD".as_slice()
}

fn is_served(method: &[u8]) -> bool
    ensures { result ≡ is_served method.now }
{
    method == b"GET".as_slice() || is_head(method)
}

/// The other methods of RFC 9110, 9.3, and of RFC 5789.
fn is_known(method: &[u8]) -> bool
    ensures { result ≡ is_known method.now }
{
    method == b"POST".as_slice()
        || method == b"PUT".as_slice()
        || method == b"DELETE".as_slice()
        || method == b"CONNECT".as_slice()
        || method == b"OPTIONS".as_slice()
        || method == b"TRACE".as_slice()
        || method == b"PATCH".as_slice()
}

/// The status where the method isn't one of a page's, or content comes.
fn unserved(content: bool, method: &[u8]) -> Option<Status>
    ensures { result ≡ unserved content method.now }
{
    if is_served(method) {
        if content {
            Some(Status::ContentTooLarge)
        } else {
            None
        }
    } else if is_known(method) {
        Some(Status::MethodNotAllowed)
    } else {
        Some(Status::NotImplemented)
    }
}

fn has_scheme(target: &[u8]) -> bool
    ensures { result ≡ has_scheme target.now }
{
    target.len() >= 7 && eq_ignore_case(target.split_at(7).0, b"http://")
}

fn from_slash(rest: &[u8]) -> &[u8]
    ensures { result.now ≡ from_slash rest.now }
{
    match place_of(rest, b'/') {
        Some(n) => rest.split_at(n).1,
        None => b"/",
    }
}

/// The path behind the authority of an http URI, where that is one.
fn behind_authority(rest: &[u8]) -> Option<&[u8]>
    ensures { option_copied result ≡ behind_authority rest.now }
{
    if is_authority(cut(rest, b'/').0) {
        Some(from_slash(rest))
    } else {
        None
    }
}

/// The path of a target, without its query (RFC 9112, 3.2.1 and 3.2.2).
#[tactic(auto, unfolding(crate::specs::Choosing::path_of))]
fn path_of(target: &[u8]) -> Option<&[u8]>
    ensures { option_copied result ≡ path_of target.now }
{
    if matches!(target, [b'/', ..]) {
        Some(cut(target, b'?').0)
    } else if has_scheme(target) {
        behind_authority(cut(target.split_at(7).1, b'?').0)
    } else {
        None
    }
}

fn is_matched(tag: &[u8], fields: &[u8]) -> bool
    ensures { result ≡ is_matched tag.now (lines fields.now) }
{
    !has_field(fields, b"if-match") || names_tag(fields, b"if-match", tag, false)
}

/// The answer with the part of the page that is wanted.
fn with_part(answer: Answer, wanted: Wanted) -> Answer
    ensures { result ≡ with_part answer wanted }
{
    match wanted {
        Wanted::Whole => answer,
        Wanted::Part { from, to } => Answer {
            status: Status::PartialContent,
            from,
            to,
            ..answer
        },
        Wanted::Nothing => Answer {
            status: Status::RangeNotSatisfiable,
            ..answer
        },
    }
}

/// Ranges are for GET alone (RFC 9110, 14.2).
fn by_range(tag: &[u8], fields: &[u8], answer: Answer) -> Answer
    requires { answer.to < 2 ^ 64 - 1 }
    ensures { result ≡ by_range tag.now (lines fields.now) answer }
{
    if answer.only_head {
        answer
    } else {
        with_part(answer, wanted_part(tag, answer.to, fields))
    }
}

/// What the conditions come to (RFC 9110, 13.2.2), and the range behind them.
fn by_conditions(tag: &[u8], fields: &[u8], answer: Answer) -> Answer
    requires { answer.to < 2 ^ 64 - 1 }
    ensures { result ≡ by_conditions tag.now (lines fields.now) answer }
{
    if !is_matched(tag, fields) {
        Answer {
            status: Status::PreconditionFailed,
            ..answer
        }
    } else if names_tag(fields, b"if-none-match", tag, true) {
        Answer {
            status: Status::NotModified,
            ..answer
        }
    } else {
        by_range(tag, fields, answer)
    }
}

fn at_folder(folder: Option<usize>, answer: Answer) -> Answer
    ensures { result ≡ at_folder folder answer }
{
    match folder {
        None => Answer {
            status: Status::NotFound,
            ..answer
        },
        Some(page) => Answer {
            status: Status::MovedPermanently,
            page,
            ..answer
        },
    }
}

fn at_page(pages: &Pages, path: &[u8], fields: &[u8], answer: Answer) -> Answer
    ensures { result ≡ at_page pages.now path.now (lines fields.now) answer (page_named pages.now path.now) }
{
    match pages.find(path, b"") {
        None => at_folder(pages.find(path, b"/"), answer),
        Some(page) => {
            let to = pages.body(page).len();
            by_conditions(pages.tag(page), fields, Answer { page, to, ..answer })
        }
    }
}

fn by_path(pages: &Pages, target: &[u8], fields: &[u8], answer: Answer) -> Answer
    ensures { result ≡ by_path pages.now (lines fields.now) answer (path_of target.now) }
{
    match path_of(target) {
        None => Answer {
            status: Status::BadRequest,
            keeps: false,
            ..answer
        },
        Some(path) => at_page(pages, path, fields, answer),
    }
}

fn by_method(pages: &Pages, line: &[u8], fields: &[u8], known: &KnownFields, at: u64) -> Answer
    requires { known.now ≡ known_of (lines fields.now) }
    ensures { result ≡ by_method pages.now line.now (lines fields.now) at (unserved (has_content line.now (lines fields.now)) (method_of line.now)) }
{
    let (method, target, _) = words_of(line);
    match unserved(has_content(line, fields, known), method) {
        Some(status) => plain(line, fields, known, at, status),
        None => by_path(
            pages,
            target,
            fields,
            plain(line, fields, known, at, Status::Ok),
        ),
    }
}

fn by_fault(pages: &Pages, line: &[u8], fields: &[u8], at: u64) -> Answer
    ensures { result ≡ by_fault pages.now line.now (lines fields.now) at (fault_of line.now (lines fields.now)) }
{
    let known = known_in(fields);
    match fault_of(line, fields, &known) {
        Some(status) => refused(status, is_head(words_of(line).0), at),
        None => by_method(pages, line, fields, &known, at),
    }
}

/// The answer to a head, all of whose bytes are here.
#[tactic(auto, unfolding(crate::specs::Choosing::answer))]
pub fn answer(pages: &Pages, at: u64, head: &[u8]) -> Answer
    ensures { result ≡ answer pages.now at head.now }
{
    match next_line(head) {
        None => refused(Status::BadRequest, false, at),
        Some((line, fields)) => by_fault(pages, line, fields, at),
    }
}
