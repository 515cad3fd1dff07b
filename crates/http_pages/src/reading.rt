//! The answer to the request at the front of what came.

ghost use Rattle.std.specs.Prelude.{◌≡◌, ◌≤◌, length};
ghost use Rattle.http_pages.specs.Heads.{from_request_line};
ghost use Rattle.http_pages.specs.Limits.{most_head};
ghost use Rattle.http_pages.specs.Reading.{answer_to, by_front, too_long};

use crate::answer::{Answer, Status};
use crate::choosing::{answer, refused};
use crate::heads::{begins_badly, from_request_line, head_length};
use crate::pages::Pages;

/// The most bytes of a head: `most_head` of `specs/Limits.antt`.
const MOST_HEAD: usize = 8192;

/// The answer where so many bytes hold no whole head.
fn too_long(at: u64, front: &[u8]) -> Answer
    ensures { result ≡ too_long at front.now }
{
    if from_request_line(front).contains(&b'\n') {
        refused(Status::HeadTooLarge, false, at)
    } else {
        refused(Status::UriTooLong, false, at)
    }
}

fn by_front(pages: &Pages, at: u64, front: &[u8]) -> Option<(Answer, usize)>
    requires { length front.now ≤ most_head }
    ensures { result ≡ by_front pages.now at front.now }
{
    let rest = from_request_line(front);
    if begins_badly(rest) {
        return Some((
            refused(Status::BadRequest, false, at),
            front.len() - rest.len() + 1,
        ));
    }
    match head_length(front) {
        Some(n) => Some((answer(pages, at, front.split_at(n).0), n)),
        None if front.len() >= MOST_HEAD => Some((too_long(at, front), MOST_HEAD)),
        None => None,
    }
}

/// The answer to the request at the front of these bytes, and how many of them it takes; none where its head isn't whole yet. Only the first
/// 8,192 bytes are looked at. `at` is the time, in microseconds since 1970.
#[tactic(auto, using(std::proofs::lemmas::List::take_min), unfolding(crate::specs::Reading::answer_to))]
pub fn answer_to(pages: &Pages, at: u64, bytes: &[u8]) -> Option<(Answer, usize)>
    ensures { result ≡ answer_to pages.now at bytes.now }
{
    by_front(pages, at, bytes.split_at(MOST_HEAD.min(bytes.len())).0)
}
