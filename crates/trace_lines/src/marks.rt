//! The line of a mark.

ghost use Rattle.std.specs.Prelude.{◌≡◌, ◌≢◌, ℕ, ◌<◌, true, List, [], ◌∷◌, ◌++◌, IfOk, MatchOption, map};
ghost use Rattle.perimeter_core.specs.declared.entries.Entry.{Entry};
ghost use Rattle.perimeter_core.specs.declared.marks.Mark.{Mark};
ghost use Rattle.perimeter_core.specs.declared.marks.Mark.TheVariants as On;
ghost use Rattle.perimeter_core.specs.declared.marks.SynchAct.{SynchAct as ActOf};
ghost use Rattle.perimeter_core.specs.declared.marks.SynchAct.TheVariants as Done;
ghost use Rattle.perimeter_core.specs.Deeds.{entries};
ghost use Rattle.report_lines.specs.ReportText.{line};
ghost use Rattle.report_lines.specs.TraceText.{act_fields, entered_field, mark_line};
ghost use Rattle.perimeter_core.specs.declared.marks.Kind.{Kind as KindOf};
ghost use Rattle.perimeter_core.specs.Kinds.{mark_by};
ghost use Rattle.squeue_replay.specs.Marks.{AreFeeds, HasItsFeeds, IsPrinted, IsPrintedAct, IsSmall};
ghost use Rattle.trace_lines.specs.Forms.{filled, is_form, blank_count};

use crate::fields::number_to;
use crate::forms::{behind_word, by_form, lone_number};
use perimeter_core::{Feed, Kind, SynchAct};
use squeue_replay::ReadMark;
use std::alloc::AllocError;

/// The mark becomes the one whose line the text begins with; gives what stands behind it. `None` where there is no such line.
/// Fails only for want of memory.
pub fn read_mark<'a>(mark: &mut ReadMark, text: &'a [u8]) -> Result<Option<&'a [u8]>, AllocError>
    ensures { IfOk result (λ o. MatchOption o
        ((m : Mark) (rest : List ℕ) → IsPrinted m → text.entry.now ≡ mark_line m ++ rest → ⊥)
        (λ rest. IsPrinted (mark_by mark.new.p mark.new.kind mark.new.feeds.items)
        × (text.entry.now ≡ mark_line (mark_by mark.new.p mark.new.kind mark.new.feeds.items) ++ rest.now)
        × HasItsFeeds mark.new.kind mark.new.feeds.items)) }
{
    mark.feeds.clear();
    if let Some((p, kind, rest)) = without_feeds(text) {
        mark.p = p;
        mark.kind = kind;
        return Ok(Some(rest));
    }
    if let Some((p, feed, rest)) = fast(text) {
        mark.p = p;
        mark.kind = Kind::Fast;
        mark.feeds.push(feed)?;
        return Ok(Some(rest));
    }
    if let Some(rest) = with_feeds(mark, Kind::Fill, text, b"fill # ")? {
        return Ok(Some(rest));
    }
    let Some(rest) = with_feeds(mark, Kind::Claim, text, b"claim # ")? else {
        return Ok(None);
    };
    Ok(Some(rest))
}

/// The pass and the one feed of a Fast.
fn fast(text: &[u8]) -> Option<(u32, Feed, &[u8])>
    ensures { MatchOption result
        ((p : ℕ) (e : Entry) (rest : List ℕ) → IsPrinted (On.Fast p e) → text.now ≡ mark_line (On.Fast p e) ++ rest → ⊥)
        (λ r. IsPrinted (mark_by r.0 Kind.Fast (r.1 ∷ [])) × (text.now ≡ mark_line (mark_by r.0 Kind.Fast (r.1 ∷ [])) ++ r.2.now)) }
{
    let Some(found) = by_form::<3>(text, b"fast # #.#\n") else {
        return None;
    };
    let numbers = found.0;
    let [p, c, n] = numbers;
    Some((p, Feed { c, n }, found.1))
}

/// A mark behind whose pass its feeds stand, where the form says how its line begins.
fn with_feeds<'a>(
    mark: &mut ReadMark,
    kind: Kind,
    text: &'a [u8],
    form: &[u8],
) -> Result<Option<&'a [u8]>, AllocError>
    requires form { is_form form.now ≡ true }
    requires blanks { blank_count form.now ≡ 1 }
    ensures { IfOk result (λ o. MatchOption o
        ((p : ℕ) (es : List Entry) (rest : List ℕ) → IsSmall p → es ≢ [] → AreFeeds es
        → text.entry.now ≡ filled form.now (p ∷ []) ++ (line (map entered_field es) ++ rest) → ⊥)
        (λ rest. IsSmall mark.new.p × (mark.new.kind ≡ kind) × (entries mark.new.feeds.items ≢ []) × AreFeeds (entries mark.new.feeds.items)
        × (text.entry.now ≡ filled form.now (mark.new.p ∷ []) ++ (line (map entered_field (entries mark.new.feeds.items)) ++ rest.now)))) }
{
    let Some((p, rest)) = lone_number(text, form) else {
        return Ok(None);
    };
    mark.p = p;
    mark.kind = kind;
    let Some(others) = read_feeds(&mut mark.feeds, rest)? else {
        return Ok(None);
    };
    Ok(Some(others))
}

/// The feeds become those that the text begins with, with one space between them, up to the end of the line.
fn read_feeds<'a>(feeds: &mut Vec<Feed>, text: &'a [u8]) -> Result<Option<&'a [u8]>, AllocError>
    ensures { IfOk result (λ o. MatchOption o
        ((es : List Entry) (rest : List ℕ) → es ≢ [] → AreFeeds es → text.entry.now ≡ line (map entered_field es) ++ rest → ⊥)
        (λ rest. (entries feeds.new.items ≢ []) × AreFeeds (entries feeds.new.items)
        × (text.entry.now ≡ line (map entered_field (entries feeds.new.items)) ++ rest.now))) }
{
    feeds.clear();
    let mut rest = text;
    while let Some((feed, others)) = feed(rest, b"#.# ") {
        feeds.push(feed)?;
        rest = others;
    }
    let Some((feed, others)) = feed(rest, b"#.#\n") else {
        return Ok(None);
    };
    feeds.push(feed)?;
    Ok(Some(others))
}

/// A feed, where the form says what stands behind it.
fn feed<'a>(text: &'a [u8], form: &[u8]) -> Option<(Feed, &'a [u8])>
    requires form { is_form form.now ≡ true }
    requires blanks { blank_count form.now ≡ 2 }
    ensures { MatchOption result
        ((c n : ℕ) (rest : List ℕ) → IsSmall c → IsSmall n → text.entry.now ≡ filled form.now (c ∷ n ∷ []) ++ rest → ⊥)
        (λ r. IsSmall r.0.c × IsSmall r.0.n × (text.entry.now ≡ filled form.now (r.0.c ∷ r.0.n ∷ []) ++ r.1.now)) }
{
    let Some(found) = by_form::<2>(text, form) else {
        return None;
    };
    let numbers = found.0;
    let feed = Feed {
        c: numbers[0],
        n: numbers[1],
    };
    Some((feed, found.1))
}

/// A mark that enters no feed.
fn without_feeds(text: &[u8]) -> Option<(u32, Kind, &[u8])>
    ensures { MatchOption result
        ((p : ℕ) (kind : KindOf) (rest : List ℕ) → IsPrinted (mark_by p kind []) → text.now ≡ mark_line (mark_by p kind []) ++ rest → ⊥)
        (λ r. IsPrinted (mark_by r.0 r.1 []) × (text.now ≡ mark_line (mark_by r.0 r.1 []) ++ r.2.now)) }
{
    if let Some((p, rest)) = lone_number(text, b"take #\n") {
        return Some((p, Kind::Take, rest));
    }
    if let Some((p, rest)) = lone_number(text, b"ask #\n") {
        return Some((p, Kind::Ask, rest));
    }
    if let Some((p, rest)) = lone_number(text, b"accept #\n") {
        return Some((p, Kind::Accept, rest));
    }
    if let Some((p, rest)) = lone_number(text, b"work #\n") {
        return Some((p, Kind::Work, rest));
    }
    if let Some((p, rest)) = lone_number(text, b"close #\n") {
        return Some((p, Kind::Close, rest));
    }
    if let Some((p, rest)) = lone_number(text, b"claim # ask\n") {
        return Some((p, Kind::ClaimAsk, rest));
    }
    if let Some((p, j, left, rest)) = grant(text) {
        return Some((p, Kind::Grant { j, rest: left }, rest));
    }
    if let Some((p, left, act, rest)) = leave(text) {
        return Some((p, Kind::Leave { rest: left, act }, rest));
    }
    None
}

/// A Grant: its pass, the pass that it is granted to, and how many entries are left.
fn grant(text: &[u8]) -> Option<(u32, u32, u64, &[u8])>
    ensures { MatchOption result
        ((p j left : ℕ) (rest : List ℕ) → IsPrinted (On.Grant p j left) → text.now ≡ mark_line (On.Grant p j left) ++ rest → ⊥)
        (λ r. IsPrinted (On.Grant r.0 r.1 r.2) × (text.now ≡ mark_line (On.Grant r.0 r.1 r.2) ++ r.3.now)) }
{
    let Some(found) = by_form::<2>(text, b"grant # # ") else {
        return None;
    };
    let numbers = found.0;
    let Some((left, others)) = number_to(found.1, b'\n') else {
        return None;
    };
    Some((numbers[0], numbers[1], left, others))
}

/// A Leave: its pass, how many entries are left, and what was done.
fn leave(text: &[u8]) -> Option<(u32, u64, SynchAct, &[u8])>
    ensures { MatchOption result
        ((p left : ℕ) (a : ActOf) (rest : List ℕ) → IsPrinted (On.Leave p left a) → text.now ≡ mark_line (On.Leave p left a) ++ rest → ⊥)
        (λ r. IsPrinted (On.Leave r.0 r.1 r.2) × (text.now ≡ mark_line (On.Leave r.0 r.1 r.2) ++ r.3.now)) }
{
    let Some((p, rest)) = lone_number(text, b"leave # ") else {
        return None;
    };
    let Some((left, others)) = number_to(rest, b' ') else {
        return None;
    };
    let Some((done, behind)) = act(others) else {
        return None;
    };
    Some((p, left, done, behind))
}

/// What a synchronous owner did, up to the end of the line.
fn act(text: &[u8]) -> Option<(SynchAct, &[u8])>
    ensures { MatchOption result
        ((a : ActOf) (rest : List ℕ) → IsPrintedAct a → text.now ≡ line (act_fields a) ++ rest → ⊥)
        (λ r. IsPrintedAct r.0 × (text.now ≡ line (act_fields r.0) ++ r.1.now)) }
{
    if let Some(rest) = behind_word(text, b"none\n") {
        return Some((SynchAct::None, rest));
    }
    if let Some(rest) = behind_word(text, b"away\n") {
        return Some((SynchAct::Away, rest));
    }
    if let Some((c, rest)) = lone_number(text, b"out #\n") {
        return Some((SynchAct::Out { c }, rest));
    }
    if let Some((c, rest)) = lone_number(text, b"in #\n") {
        return Some((SynchAct::In { c }, rest));
    }
    let Some((c, j, k, rest)) = call(text) else {
        return None;
    };
    Some((SynchAct::Call { c, j, k }, rest))
}

/// The connection, the thread and the number of a call.
fn call(text: &[u8]) -> Option<(u32, u32, u32, &[u8])>
    ensures { MatchOption result
        ((c j k : ℕ) (rest : List ℕ) → IsPrintedAct (Done.Call c j k) → text.now ≡ line (act_fields (Done.Call c j k)) ++ rest → ⊥)
        (λ r. IsPrintedAct (Done.Call r.0 r.1 r.2) × (text.now ≡ line (act_fields (Done.Call r.0 r.1 r.2)) ++ r.3.now)) }
{
    let Some(found) = by_form::<3>(text, b"call # # #\n") else {
        return None;
    };
    let numbers = found.0;
    Some((numbers[0], numbers[1], numbers[2], found.1))
}
