//! What is heard of chats where their places are settled.

ghost use Rattle.std.specs.Prelude.{◌≡◌, ◌++◌, IfOk, IfSome, OnErr, OnOk};
ghost use Rattle.live_chats.specs.Listening.{IsAnswer, Listens, ListensOn, Writes};
ghost use Rattle.live_server.specs.Written.{HasSent};

use crate::chat::Chat;
use crate::chats::Chats;
use live_server::{Datagram, Facts, Met};
use sq_base::Octets;
use std::alloc::{AllocError, Global};
use stream_stays::Collects;

/// What a chat tells of its last item, beside what was sent: what became of a segment, and how its connection stands.
#[derive(Clone, Copy)]
pub struct Heard {
    pub met: Option<Met>,
    pub facts: Facts,
}

/// Who listens where a place is settled: what was sent at the last item goes behind the datagrams that are there. Nothing is heard where the
/// chat is lost, or where memory is missing for what was sent, of which some went out then.
#[derive(Drop)]
pub struct Ear {
    pub alloc: Global,
    pub out: Vec<Datagram>,
    pub heard: Option<Heard>,
}

/// Who listens where many places are settled: so it hears the chat at each, in order. What it has no room for isn't kept.
#[derive(Drop)]
pub struct Ears {
    pub alloc: Global,
    pub out: Vec<Datagram>,
    pub heard: Vec<Option<Heard>>,
}

impl Collects<Chats> for Ear {
    ghost takes = { Listens };

    fn collect(&mut self, _c: u32, state: &Chat) {
        self.heard = listen(self.alloc, state, &mut self.out);
    }
}

impl Collects<Chats> for Ears {
    ghost takes = { ListensOn };

    fn collect(&mut self, _c: u32, state: &Chat) {
        let heard = listen(self.alloc, state, &mut self.out);
        if self.heard.len() < self.heard.capacity() {
            self.heard.push_reserved(heard);
        }
    }
}

/// What a chat tells of its last item; what it sent goes behind the datagrams that are there.
fn listen(alloc: Global, chat: &Chat, out: &mut Vec<Datagram>) -> Option<Heard>
    ensures answer { IfSome result (λ h. IsAnswer chat.now h out.old.items out.new.items) }
    ensures wrote { Writes chat.now out.old.items out.new.items }
{
    if chat.is_lost() {
        return None;
    }
    let Some(conn) = chat.conn() else {
        return None;
    };
    let facts = conn.facts();
    match copy_all(alloc, chat.sent(), out) {
        Ok(()) => Some(Heard {
            met: chat.met(),
            facts,
        }),
        Err(_) => None,
    }
}

/// Copies of these datagrams go behind those that are there.
fn copy_all(alloc: Global, sent: &[Datagram], out: &mut Vec<Datagram>) -> Result<(), AllocError>
    ensures sent { OnOk result (out.new.items ≡ out.old.items ++ sent.now) }
    ensures wrote { OnErr result (HasSent out.old.items out.new.items sent.now) }
{
    for datagram in sent {
        out.push(copied(alloc, datagram)?)?;
    }
    Ok(())
}

fn copied(alloc: Global, datagram: &Datagram) -> Result<Datagram, AllocError>
    ensures { IfOk result (λ d. d ≡ datagram.now) }
{
    Ok(Datagram {
        at: datagram.at,
        bytes: Octets::of(alloc, datagram.bytes.as_slice())?,
    })
}
