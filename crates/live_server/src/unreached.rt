//! What a server makes of a router's message that a segment didn't arrive: it counts, and a half-open connection leaves (RFC 9293, 3.9.2.2).

ghost use Rattle.std.specs.Prelude.{◌≡◌, ◌++◌, ◌<◌, ◌^◌, [], Some, length, OnErr, OnOk};
ghost use Rattle.live_server.specs.Serving.{on_protocol, on_report, on_unreachable, server_of, unreached_at};
ghost use Rattle.live_server.specs.Table.{place_of};
ghost use Rattle.live_server.specs.Written.{HasSent};

use crate::acting::Datagram;
use crate::addresses::is_to_us;
use crate::conn_table::ConnTable;
use crate::rules::Rules;
use icmp_codec::{Unreachable, unreachable_in};
use std::alloc::{AllocError, Global};

/// What a message that a segment didn't arrive is to the connection between its ends.
#[derive(Clone, Copy, Debug, PartialEq, Eq)]
pub enum Reported {
    /// Nothing: no segment with its number is under way, so anybody may have sent it.
    Stray,
    /// It is of a segment of an open connection.
    Open,
    /// It is of the SYN,ACK of a half-open connection.
    HalfOpen,
}

impl<T: ConnTable> Rules<T> {
    /// A datagram of another protocol that says of no segment that it was too long: a router's message that one didn't arrive is heard. After
    /// an error nothing has changed.
    #[tactic(auto, unfolding(crate::specs::Serving::on_report))]
    pub(crate) fn report(
        &mut self,
        alloc: Global,
        now: u64,
        body: &[u8],
        out: &mut Vec<Datagram>,
    ) -> Result<(), AllocError>
        requires good { T.good self.old.table }
        requires body { length body.now < 2 ^ 32 }
        ensures good { T.good self.new.table }
        ensures server { OnOk result (server_of T.conns self.new ≡ (on_report now body.now (server_of T.conns self.old)).server) }
        ensures sent { OnOk result (out.new.items ≡ out.old.items ++ (on_report now body.now (server_of T.conns self.old)).sent) }
        ensures wrote { OnErr result (HasSent out.old.items out.new.items (on_report now body.now (server_of T.conns self.old)).sent) }
        ensures told { OnOk result (T.tells self.old.table [] self.new.table) }
        ensures kept { OnErr result (server_of T.conns self.new ≡ server_of T.conns self.old) }
    {
        match unreachable_in(body) {
            Some(message) => {
                self.hear_unreachable(alloc, &message);
                Ok(())
            }
            None => self.protocol(alloc, now, body, out),
        }
    }

    /// A router's message that a segment didn't arrive: it counts, where it is for us and of a segment under way.
    #[tactic(auto, unfolding(crate::specs::Serving::on_unreachable))]
    fn hear_unreachable(&mut self, alloc: Global, message: &Unreachable)
        requires good { T.good self.old.table }
        ensures good { T.good self.new.table }
        ensures server { server_of T.conns self.new ≡ on_unreachable message.now (server_of T.conns self.old) }
        ensures told { T.tells self.old.table [] self.new.table }
    {
        if is_to_us(self.setting(), message.src, message.dst) {
            if let Some(place) = self.table.find(&message.ends) {
                return self.unreached_at(alloc, message, place);
            }
        }
        self.pass_over();
    }

    /// It is of a segment of the connection at a place, which leaves where it is half open.
    #[tactic(auto, unfolding(crate::specs::Serving::unreached_at))]
    fn unreached_at(&mut self, alloc: Global, message: &Unreachable, place: usize)
        requires good { T.good self.old.table }
        requires place { place_of message.now.ends (T.conns self.old.table) ≡ Some place }
        ensures good { T.good self.new.table }
        ensures server { server_of T.conns self.new ≡ unreached_at message.now place (server_of T.conns self.old) }
        ensures told { T.tells self.old.table [] self.new.table }
    {
        match self.table.reported_at(place, message.seq) {
            Reported::Stray => self.pass_over(),
            Reported::Open => self.counts.report(message.cause),
            Reported::HalfOpen => {
                self.counts.report(message.cause);
                self.table.leave(alloc, place);
                self.counts.unreached = self.counts.unreached.wrapping_add(1);
            }
        }
    }
}
