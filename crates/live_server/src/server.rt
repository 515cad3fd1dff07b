//! The server of one thread: the rules over a map of connections, seen as the state that the definitions speak of.

ghost use Rattle.std.specs.Prelude.{◌≡◌, ◌++◌, ◌<◌, ◌≤◌, ◌^◌, [], length, OnErr, OnOk, false};
ghost use Rattle.tcb_machine.specs.Limits.{last_time};
ghost use Rattle.live_server.specs.Isolation.{CostsOf, KeepsRest, LosesOne};
ghost use Rattle.live_server.specs.Serving.{on_datagram, on_time};
ghost use Rattle.live_server.specs.Written.{HasSent};

use crate::acting::Datagram;
use crate::conn_table::ConnTable;
use crate::counts::Counts;
use crate::initial::Secret;
use crate::rules::Rules;
use crate::setting::Setting;
use crate::table::Table;
use indexmap::IndexMap;
use std::alloc::{AllocError, Global};
use std::marker::Model;

/// The server's state: a bounded table of connections.
///
/// # Example
///
/// ```
/// let mut server = Server::new(rt.alloc(), SETTING, SECRET);
/// let mut sent = Vec::new(rt.alloc());
/// server.datagram(rt.alloc(), 1_000_000, &SYNS[0], &mut sent)?;
/// ...
/// server.tick(rt.alloc(), 2_000_000, &mut sent)?;
/// assert_eq!(rt; sent.len(), 2);
/// ```
#[derive(Drop)]
pub struct Server {
    pub(crate) rules: Rules<Table>,
}

impl Model for Server {
    ghost use Rattle.live_server.specs.Serving.{ServerOf, server_of};

    ghost Value = { ServerOf };

    ghost view = { λ s. server_of (λ m. m.entries) s.rules };
}

impl Server {
    ghost use Rattle.live_server.specs.Counting.{no_counts};
    ghost use Rattle.live_server.specs.declared.crowding.TurnedAway.TheVariants.{Nobody};
    ghost use Rattle.live_server.specs.Serving.{server_of};

    /// A server with no connection. It takes no memory.
    pub fn new(alloc: Global, setting: Setting, secret: Secret) -> Server
        ensures { result ≡ record { conns = []; waiting = []; held = 0; pings = 0; told = false; turned = Nobody; draining = false; setting = setting; secret = secret.0; counts = no_counts } }
    {
        Server {
            rules: Rules::over(alloc, IndexMap::new(alloc), setting, secret),
        }
    }

    /// Its rules and their table.
    pub fn into_rules(self) -> Rules<Table>
        ensures { server_of (λ m. m.entries) result ≡ self }
    {
        self.rules
    }

    /// How many connections it has.
    pub fn connections(&self) -> usize
        ensures { result ≡ length self.now.conns }
    {
        self.rules.connections()
    }

    /// What it met since it was made.
    pub fn counts(&self) -> Counts
        ensures { result ≡ self.now.counts }
    {
        self.rules.counts()
    }

    /// An IPv4 datagram comes at a time in microseconds. What is sent goes behind the datagrams that are there. Both checksums are
    /// verified. An echo request is answered, an order of the host is obeyed, a router's message that a segment was too long is told to
    /// the segment's connection, and what else is no whole TCP segment is passed over. An error says that memory was missing: then the
    /// segment's own connection may be gone, with half-open ones that gave way, and some of what is to be sent is missing. All else stays
    /// but who may give way, what is held, and four counts.
    pub fn datagram(
        &mut self,
        alloc: Global,
        now: u64,
        body: &[u8],
        out: &mut Vec<Datagram>,
    ) -> Result<(), AllocError>
        requires time { now ≤ last_time }
        requires body { length body.now < 2 ^ 32 }
        ensures server { OnOk result (self.new ≡ (on_datagram now body.now self.old).server) }
        ensures sent { OnOk result (out.new.items ≡ out.old.items ++ (on_datagram now body.now self.old).sent) }
        ensures wrote { OnErr result (HasSent out.old.items out.new.items (on_datagram now body.now self.old).sent) }
        ensures lost { OnErr result (CostsOf body.now self.old self.new) }
        ensures rest { OnErr result (KeepsRest (length body.now) self.old self.new) }
    {
        self.rules.datagram(alloc, now, body, out)
    }

    /// The time comes to every connection; where three quarters of the text that all may hold are held, each forgets what it holds behind a
    /// gap, which its peer sends again. Who is to leave does: half open for three minutes, silent in FIN-WAIT-2 for one, in
    /// TIME-WAIT where three quarters of the places are taken, or idle where all are. Where the table is still full, one may leave for
    /// somebody who was turned away. Where the server drains, each closes. What is sent goes behind the datagrams that are there, connection by connection.
    /// An error says that memory was missing: then one connection is gone, and to those behind it the time didn't come.
    pub fn tick(
        &mut self,
        alloc: Global,
        now: u64,
        out: &mut Vec<Datagram>,
    ) -> Result<(), AllocError>
        requires time { now ≤ last_time }
        ensures server { OnOk result (self.new ≡ (on_time now self.old).server) }
        ensures sent { OnOk result (out.new.items ≡ out.old.items ++ (on_time now self.old).sent) }
        ensures wrote { OnErr result (HasSent out.old.items out.new.items (on_time now self.old).sent) }
        ensures lost { OnErr result (LosesOne now self.old self.new) }
        ensures rest { OnErr result (self.new ≡ record self.old { conns = self.new.conns }) }
    {
        self.rules.tick(alloc, now, out)
    }
}
