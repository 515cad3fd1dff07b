//! The datagrams of what is sent, and the text of a segment.

ghost use Rattle.std.specs.Prelude.{◌≡◌, IfOk};
ghost use Rattle.tcb_machine.specs.BlockState.{IsOurs};
ghost use Rattle.segment_codec.specs.SentIsRead.{text_in};
ghost use Rattle.live_server.specs.Acts.{announcing, datagram_of, is_longer, numbered_as};

use crate::marking::{Marking, marked};
use segment_codec::{ACK, Options, Reply, Seg, encode};
use sq_base::{Octets, Tuple};
use std::alloc::{AllocError, Global};

/// A datagram that is sent, with its time in microseconds.
#[derive(Debug, Drop)]
pub struct Datagram {
    pub at: u64,
    pub bytes: Octets,
}

/// The datagram of a segment that is sent, marked.
pub(crate) fn encoded(
    alloc: Global,
    tuple: &Tuple,
    reply: &Reply,
    marking: Marking,
) -> Result<Datagram, AllocError>
    requires { IsOurs reply.now }
    ensures { IfOk result (λ d. d ≡ datagram_of marking tuple.now reply.now) }
{
    Ok(Datagram {
        at: reply.at,
        bytes: marked(alloc, encode(alloc, tuple, reply)?, marking)?,
    })
}

/// The same, where no longer MSS is announced than this, and where a peer whose window is 0 waits for a number. What is changed has next to no
/// text, which is copied.
#[tactic(auto, unfolding(crate::specs::Acts::announcing))]
pub(crate) fn announced(
    alloc: Global,
    tuple: &Tuple,
    reply: &Reply,
    most: u16,
    waited_for: Option<u32>,
    marking: Marking,
) -> Result<Datagram, AllocError>
    requires { IsOurs reply.now }
    ensures { IfOk result (λ d. d ≡ datagram_of marking tuple.now (announcing most (numbered_as waited_for reply.now))) }
{
    let seq = numbered_as(reply, waited_for);
    let longer = is_longer(reply.options.mss, most);
    if !longer && seq == reply.seq {
        return encoded(alloc, tuple, reply, marking);
    }
    let mss = if longer {
        Some(most)
    } else {
        reply.options.mss
    };
    let options = Options {
        mss,
        ..reply.options
    };
    let text = Octets::of(alloc, reply.text.as_slice())?;
    let reply = Reply {
        seq,
        options,
        text,
        ..*reply
    };
    Ok(Datagram {
        at: reply.at,
        bytes: marked(alloc, encode(alloc, tuple, &reply)?, marking)?,
    })
}

/// The sequence number that a segment gets.
#[tactic(auto, unfolding(crate::specs::Acts::numbered_as))]
fn numbered_as(reply: &Reply, waited_for: Option<u32>) -> u32
    ensures { numbered_as waited_for reply.now ≡ record reply.now { seq = result } }
{
    match waited_for {
        Some(una) if reply.flags == ACK && reply.text.as_slice().is_empty() => una,
        _ => reply.seq,
    }
}

/// Whether an MSS is announced that is longer than this.
fn is_longer(mss: Option<u16>, most: u16) -> bool
    ensures { result ≡ is_longer most mss }
{
    match mss {
        Some(mss) => most < mss,
        None => false,
    }
}

/// The segment's text in its datagram.
pub(crate) fn text_of<'a>(seg: &Seg, body: &'a [u8]) -> &'a [u8]
    ensures { result.now ≡ text_in seg.now body.now }
{
    let (_, rest) = body.split_at((seg.text_from as usize).min(body.len()));
    let (text, _) = rest.split_at((seg.text_len as usize).min(rest.len()));
    text
}
