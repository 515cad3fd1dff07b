//! The pages of a site, which all connections share.

ghost use Rattle.std.specs.Prelude.{◌≡◌, ◌+◌, ◌^◌, ◌<◌, ◌≤◌, ◌++◌, All, Err, IfOk, IfSome, None, Some, bytes_eq, drop, length, option_map};
ghost use Rattle.std.specs.List.{list_all, list_any};
ghost use Rattle.percent_encoding.specs.Percent.{percent_decode};
ghost use Rattle.http_pages.specs.Choosing.{nth_page};
ghost use Rattle.http_pages.specs.Inside.{IsPlaced, IsWithin, bytes_at, page_of, page_with_rest, pages_at, part_with};
ghost use Rattle.http_pages.specs.Limits.{most_pages};
ghost use Rattle.http_pages.specs.Pages.{all_differ, is_at, is_kind, is_page, is_path, is_tag, is_tag_byte, number_in, page_in, page_with, pages_in, pages_of, part_in};
ghost use Rattle.http_pages.specs.declared.pages.PackError.TheVariants as pack_error;

use httparse::{is_header_value, is_uri_token};
use percent_encoding::percent_decode;
use std::alloc::{AllocError, Global};
use std::marker::Model;

/// The most pages of a pack: `most_pages` of `specs/Limits.antt`.
const MOST_PAGES: usize = 4096;

/// The most bytes of a pack.
const MOST_PACK: usize = 67_108_864;

/// The most bytes of a page's path.
const MOST_PATH: usize = 1024;

/// The most bytes of a page's media type, and of its tag.
const MOST_WORD: usize = 128;

/// Why a pack holds no pages.
#[derive(Clone, Copy, Debug, PartialEq, Eq)]
pub enum PackError {
    NoMemory,
    /// It isn't a list of at most 4,096 pages in at most 64 MiB, each with a path of its own, a media type and an entity tag.
    NoPages,
}

/// Where a part stands in the pack.
#[derive(Clone, Copy, Debug)]
struct Place {
    from: usize,
    to: usize,
}

/// Where the parts of a page stand in the pack.
#[derive(Clone, Copy, Debug)]
struct PagePlaces {
    path: Place,
    kind: Place,
    tag: Place,
    body: Place,
}

/// The pages of a site, in the pack that they came in.
///
/// A pack has for each page its path (without escapes, from the first slash on), its media type (RFC 9110, 8.3), its entity tag (a strong one,
/// with its quotes) and its body, each behind its length in four bytes, the highest first.
#[derive(Drop)]
pub struct Pages {
    pack: Vec<u8>,
    places: Vec<PagePlaces>,
}

impl Model for Pages {
    ghost use Rattle.std.specs.Prelude.{List, All, length};
    ghost use Rattle.http_pages.specs.Pages.{Page};
    ghost use Rattle.http_pages.specs.Inside.{IsPlaced, pages_at};

    ghost Value = { List Page };

    ghost view = { λ p. pages_at p.pack.items p.places.items };

    ghost invariant = { λ p. All (IsPlaced (length p.pack.items)) p.places.items };
}

impl Place {
    fn of(self, pack: &[u8]) -> &[u8]
        requires { IsWithin (length pack.now) self }
        ensures { result.now ≡ bytes_at pack.now self }
    {
        &pack[self.from..self.to]
    }
}

/// The number in four bytes, the highest first.
fn number_in(bytes: &[u8]) -> usize
    requires { 4 ≤ length bytes.now }
    ensures is { result ≡ number_in bytes.now }
    ensures small { result < 2 ^ 32 }
{
    ((usize::from(bytes[0]) * 256 + usize::from(bytes[1])) * 256 + usize::from(bytes[2])) * 256
        + usize::from(bytes[3])
}

/// The part whose length stands at a place of the pack.
#[tactic(auto, using(crate::proofs::PackLemmas::part_some, crate::proofs::PackLemmas::part_none))]
fn part_at(pack: &[u8], at: usize) -> Option<Place>
    requires { at ≤ length pack.now }
    ensures is { part_in (drop at pack.now) ≡ option_map (part_with pack.now) result }
    ensures within { IfSome result (IsWithin (length pack.now)) }
    ensures on { IfSome result (λ p. at < p.to) }
{
    let rest = pack.split_at(at).1;
    if rest.len() < 4 {
        return None;
    }
    let len = number_in(rest);
    if rest.len() < 4 + len {
        return None;
    }
    Some(Place {
        from: at + 4,
        to: at + 4 + len,
    })
}

/// The page that begins at a place of the pack.
fn page_at(pack: &[u8], at: usize) -> Option<PagePlaces>
    requires { at ≤ length pack.now }
    ensures is { page_in (drop at pack.now) ≡ option_map (page_with_rest pack.now) result }
    ensures within { IfSome result (IsPlaced (length pack.now)) }
    ensures on { IfSome result (λ p. at < p.body.to) }
{
    let path = part_at(pack, at)?;
    let kind = part_at(pack, path.to)?;
    let tag = part_at(pack, kind.to)?;
    let body = part_at(pack, tag.to)?;
    Some(PagePlaces {
        path,
        kind,
        tag,
        body,
    })
}

/// All pages of the pack, or none where it isn't a list of pages.
#[tactic(auto, using(crate::proofs::PackLemmas::reads_first, crate::proofs::PackLemmas::reads_all, crate::proofs::PackLemmas::reads_none, crate::proofs::PackLemmas::reads_too_many, crate::proofs::PackLemmas::reads_more))]
fn places_in(alloc: Global, pack: &[u8]) -> Result<Option<Vec<PagePlaces>>, AllocError>
    ensures is { IfOk result (λ r. pages_in most_pages pack.now ≡ option_map (λ places. pages_at pack.now places.items) r) }
    ensures within { IfOk result (λ r. IfSome r (λ places. All (IsPlaced (length pack.now)) places.items)) }
{
    let mut places = Vec::new(alloc);
    let mut at = 0;
    while at < pack.len() {
        if places.len() >= MOST_PAGES {
            return Ok(None);
        }
        let Some(page) = page_at(pack, at) else {
            return Ok(None);
        };
        places.push(page)?;
        at = page.body.to;
    }
    Ok(Some(places))
}

fn is_kind(kind: &[u8]) -> bool
    ensures { result ≡ is_kind kind.now }
{
    1 <= kind.len() && kind.len() <= MOST_WORD && is_header_value(kind)
}

fn are_tag_bytes(tag: &[u8]) -> bool
    ensures { result ≡ list_all is_tag_byte tag.now }
{
    tag.iter()
        .all(|b| is_uri_token(*b) && *b != b',' && *b != b'"')
}

fn is_tag(tag: &[u8]) -> bool
    ensures { result ≡ is_tag tag.now }
{
    2 <= tag.len()
        && tag.len() <= MOST_WORD
        && tag[0] == b'"'
        && tag[tag.len() - 1] == b'"'
        && are_tag_bytes(tag.split_at(1).1.split_at(tag.len() - 2).0)
}

fn is_path(path: &[u8]) -> bool
    ensures { result ≡ is_path path.now }
{
    matches!(path, [b'/', ..]) && path.len() <= MOST_PATH
}

fn is_page(pack: &[u8], page: PagePlaces) -> bool
    requires { IsPlaced (length pack.now) page }
    ensures { result ≡ is_page (page_of pack.now page) }
{
    is_path(page.path.of(pack)) && is_kind(page.kind.of(pack)) && is_tag(page.tag.of(pack))
}

fn are_pages(pack: &[u8], mut places: &[PagePlaces]) -> bool
    requires { All (IsPlaced (length pack.now)) places.now }
    ensures { result ≡ list_all is_page (pages_at pack.now places.now) }
{
    while let [first, rest @ ..] = places {
        if !is_page(pack, *first) {
            return false;
        }
        places = rest;
    }
    true
}

fn has_path(pack: &[u8], mut places: &[PagePlaces], path: &[u8]) -> bool
    requires { All (IsPlaced (length pack.now)) places.now }
    ensures { result ≡ list_any (is_at path.now) (pages_at pack.now places.now) }
{
    while let [first, rest @ ..] = places {
        if first.path.of(pack) == path {
            return true;
        }
        places = rest;
    }
    false
}

fn all_differ(pack: &[u8], mut places: &[PagePlaces]) -> bool
    requires { All (IsPlaced (length pack.now)) places.now }
    ensures { result ≡ all_differ (pages_at pack.now places.now) }
{
    while let [first, rest @ ..] = places {
        if has_path(pack, rest, first.path.of(pack)) {
            return false;
        }
        places = rest;
    }
    true
}

/// Whether a path is what an escaped one stands for, with an end behind it.
fn is_path_of(path: &[u8], escaped: &[u8], end: &[u8]) -> bool
    ensures { result ≡ bytes_eq path.now (percent_decode escaped.now ++ end.now) }
{
    let mut rest = path;
    let mut bytes = percent_decode(escaped);
    while let Some(byte) = bytes.next() {
        let [first, others @ ..] = rest else {
            return false;
        };
        if *first != byte {
            return false;
        }
        rest = others;
    }
    rest == end
}

/// Which page has the path that an escaped one stands for, with an end behind it.
#[tactic(auto, unfolding(crate::specs::Pages::page_at))]
fn find_in(pack: &[u8], mut places: &[PagePlaces], escaped: &[u8], end: &[u8]) -> Option<usize>
    requires { All (IsPlaced (length pack.now)) places.now }
    ensures { result ≡ page_with (pages_at pack.now places.now) escaped.now end.now }
{
    let mut passed = 0;
    while let [first, rest @ ..] = places {
        if is_path_of(first.path.of(pack), escaped, end) {
            return Some(passed);
        }
        passed += 1;
        places = rest;
    }
    None
}

impl Pages {
    /// Reads a pack.
    #[tactic(auto, unfolding(crate::specs::Pages::pages_of))]
    pub fn of(alloc: Global, pack: Vec<u8>) -> Result<Pages, PackError>
        ensures ok { IfOk result (λ pages. pages_of pack.items ≡ Some pages) }
        ensures refused { result ≡ Err pack_error.NoPages → pages_of pack.items ≡ None }
    {
        if pack.len() > MOST_PACK {
            return Err(PackError::NoPages);
        }
        let bytes = pack.as_slice();
        let Ok(found) = places_in(alloc, bytes) else {
            return Err(PackError::NoMemory);
        };
        let Some(places) = found else {
            return Err(PackError::NoPages);
        };
        if !are_pages(bytes, places.as_slice()) || !all_differ(bytes, places.as_slice()) {
            return Err(PackError::NoPages);
        }
        Ok(Pages { pack, places })
    }

    /// Which page has the path that an escaped one stands for, with an end behind it.
    pub(crate) fn find(&self, escaped: &[u8], end: &[u8]) -> Option<usize>
        ensures { result ≡ page_with self.now escaped.now end.now }
    {
        find_in(self.pack.as_slice(), self.places.as_slice(), escaped, end)
    }

    pub(crate) fn path(&self, n: usize) -> &[u8]
        ensures { result.now ≡ (nth_page self.now n).path }
    {
        match self.places.get(n) {
            Some(page) => page.path.of(self.pack.as_slice()),
            None => &[],
        }
    }

    pub(crate) fn kind(&self, n: usize) -> &[u8]
        ensures { result.now ≡ (nth_page self.now n).kind }
    {
        match self.places.get(n) {
            Some(page) => page.kind.of(self.pack.as_slice()),
            None => &[],
        }
    }

    pub(crate) fn tag(&self, n: usize) -> &[u8]
        ensures { result.now ≡ (nth_page self.now n).tag }
    {
        match self.places.get(n) {
            Some(page) => page.tag.of(self.pack.as_slice()),
            None => &[],
        }
    }

    pub(crate) fn body(&self, n: usize) -> &[u8]
        ensures { result.now ≡ (nth_page self.now n).body }
    {
        match self.places.get(n) {
            Some(page) => page.body.of(self.pack.as_slice()),
            None => &[],
        }
    }
}
