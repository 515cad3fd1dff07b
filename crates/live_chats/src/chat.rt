//! A chat: the connection at one place, what it answered last, and whether memory was missing.

ghost use Rattle.std.specs.Prelude.{◌≡◌, ◌≤◌, ◌||◌, [], None, OnErr, OnOk, false, not};
ghost use Rattle.std.specs.Option.{option_copied};
ghost use Rattle.tcb_machine.specs.Limits.{last_time};
ghost use Rattle.live_chats.specs.Hearing.{Hears, hearing, is_opening, losing, meeting, nobody, shortening, timing, urging};

use crate::item::ChatItem;
use live_server::{Conn, Datagram, Measures, Met};
use segment_codec::Seg;
use sq_base::{Addr, Tuple};
use std::alloc::{AllocError, Global};
use std::marker::Model;
use std::mem::replace;
use tcb_machine::LAST_TIME;

/// A chat: the two ends of the connection that began last, that connection, also when it is over, what was sent at the last item and, where
/// that was a segment or told of one, what became of it; and whether memory was missing.
#[derive(Drop)]
pub struct Chat {
    ends: Tuple,
    conn: Option<Box<Conn>>,
    sent: Vec<Datagram>,
    met: Option<Met>,
    lost: bool,
}

impl Model for Chat {
    ghost use Rattle.std.specs.Option.{option_map};
    ghost use Rattle.live_chats.specs.Hearing.{ChatOf};

    ghost Value = { ChatOf };

    ghost view = { λ c. record { ends = c.ends; conn = option_map (λ b. b.value) c.conn; sent = c.sent.items; met = c.met; lost = c.lost } };
}

impl Chat {
    /// A chat in which nobody is yet. It takes no memory.
    pub fn new(alloc: Global) -> Chat
        ensures { result ≡ nobody }
    {
        let ends = Tuple {
            client: Addr(0),
            client_port: 0,
            server: Addr(0),
            server_port: 0,
        };
        Chat {
            ends,
            conn: None,
            sent: Vec::new(alloc),
            met: None,
            lost: false,
        }
    }

    /// Whether memory was missing. Then its connection is lost, and it takes nothing more until another one begins.
    pub fn is_lost(&self) -> bool
        ensures { result ≡ self.now.lost }
    {
        self.lost
    }

    /// What was sent at the last item, oldest first.
    pub fn sent(&self) -> &[Datagram]
        ensures { result.now ≡ self.now.sent }
    {
        self.sent.as_slice()
    }

    /// What became of the last item, where that was a segment.
    pub fn met(&self) -> Option<Met>
        ensures { result ≡ self.now.met }
    {
        self.met
    }

    /// The connection that began last.
    pub fn conn(&self) -> Option<&Conn>
        ensures { option_copied result ≡ self.now.conn }
    {
        match &self.conn {
            Some(conn) => Some(conn),
            None => None,
        }
    }

    /// It is told an item. Where memory is missing, its connection is lost, and what comes then is passed over, until another one begins.
    pub fn take(&mut self, alloc: Global, item: ChatItem)
        ensures { Hears self.old item self.new }
    {
        let takes = self.takes(&item);
        if !takes {
            return;
        }
        self.sent.clear();
        self.met = None;
        match self.hear(alloc, item) {
            Ok(()) => {}
            Err(_) => self.lose(),
        }
    }

    // Whether it takes an item: it isn't lost, or another connection begins.
    fn takes(&self, item: &ChatItem) -> bool
        ensures { result ≡ (not self.now.lost || is_opening item.now) }
    {
        !self.lost || item.is_opening()
    }

    // What an item makes of it. After an error only its ends are known.
    #[tactic(auto, unfolding(crate::specs::Hearing::hearing))]
    fn hear(&mut self, alloc: Global, item: ChatItem) -> Result<(), AllocError>
        requires sent { self.old.sent ≡ [] }
        requires met { self.old.met ≡ None }
        ensures hears { OnOk result (self.new ≡ hearing item self.old) }
        ensures begins { OnErr result (is_opening item ≡ false) }
        ensures ends { OnErr result (self.new.ends ≡ self.old.ends) }
    {
        match item {
            ChatItem::Opens { ends, conn } => {
                self.ends = ends;
                self.conn = Some(conn);
                self.lost = false;
                Ok(())
            }
            ChatItem::Meets {
                now,
                iss,
                seg,
                text,
            } => self.meet(alloc, now.min(LAST_TIME), iss, &seg, text.as_slice()),
            ChatItem::Shortens { seq, most } => self.shorten(alloc, seq, most),
            ChatItem::Urges { now, pointer, seg } => self.urge(alloc, now, pointer, &seg),
            ChatItem::Time { measures, now } => self.time(alloc, measures, now.min(LAST_TIME)),
        }
    }

    // A segment comes, behind the time.
    fn meet(
        &mut self,
        alloc: Global,
        now: u64,
        iss: u32,
        seg: &Seg,
        text: &[u8],
    ) -> Result<(), AllocError>
        requires time { now ≤ last_time }
        requires sent { self.old.sent ≡ [] }
        requires met { self.old.met ≡ None }
        ensures hears { OnOk result (self.new ≡ meeting now iss seg.now text.now self.old.conn self.old) }
        ensures ends { OnErr result (self.new.ends ≡ self.old.ends) }
    {
        let Some(mut conn) = replace(&mut self.conn, None) else {
            return Ok(());
        };
        let ends = self.ends;
        let met = conn.meet(alloc, now, iss, seg, text, &ends, &mut self.sent)?;
        self.conn = Some(conn);
        self.met = Some(met);
        Ok(())
    }

    // A router says that a segment was too long for its path.
    fn shorten(&mut self, alloc: Global, seq: u32, most: u16) -> Result<(), AllocError>
        requires sent { self.old.sent ≡ [] }
        requires met { self.old.met ≡ None }
        ensures hears { OnOk result (self.new ≡ shortening seq most self.old.conn self.old) }
        ensures ends { OnErr result (self.new.ends ≡ self.old.ends) }
    {
        let Some(mut conn) = replace(&mut self.conn, None) else {
            return Ok(());
        };
        let ends = self.ends;
        let met = conn.shorten(alloc, seq, most, &ends, &mut self.sent)?;
        self.conn = Some(conn);
        self.met = Some(met);
        Ok(())
    }

    // A segment says where urgent data ends.
    fn urge(&mut self, alloc: Global, now: u64, pointer: u16, seg: &Seg) -> Result<(), AllocError>
        requires sent { self.old.sent ≡ [] }
        requires met { self.old.met ≡ None }
        ensures hears { OnOk result (self.new ≡ urging now pointer seg.now self.old.conn self.old) }
        ensures ends { OnErr result (self.new.ends ≡ self.old.ends) }
    {
        let Some(mut conn) = replace(&mut self.conn, None) else {
            return Ok(());
        };
        let ends = self.ends;
        let met = conn.urge(alloc, now, pointer, seg, &ends, &mut self.sent)?;
        self.conn = Some(conn);
        self.met = Some(met);
        Ok(())
    }

    // The time comes.
    fn time(&mut self, alloc: Global, measures: Measures, now: u64) -> Result<(), AllocError>
        requires time { now ≤ last_time }
        requires sent { self.old.sent ≡ [] }
        requires met { self.old.met ≡ None }
        ensures hears { OnOk result (self.new ≡ timing measures now self.old.conn self.old) }
        ensures ends { OnErr result (self.new.ends ≡ self.old.ends) }
    {
        let Some(mut conn) = replace(&mut self.conn, None) else {
            return Ok(());
        };
        let ends = self.ends;
        conn.tick(alloc, measures, now, &ends, &mut self.sent)?;
        self.conn = Some(conn);
        Ok(())
    }

    // Memory was missing.
    fn lose(&mut self)
        ensures { self.new ≡ losing self.old }
    {
        self.conn = None;
        self.sent.clear();
        self.met = None;
        self.lost = true;
    }
}
