//! What a datagram and the time do to a table of connections: who gets a place, who gives way, and where a segment goes.

ghost use Rattle.std.specs.Prelude.{◌≡◌, ◌++◌, ◌∷◌, ◌<◌, ◌≤◌, ◌^◌, [], true, length, IfOk, Some, OnErr, OnOk, false};
ghost use Rattle.std.specs.String.{string_bytes};
ghost use Rattle.udp_codec.specs.Limits.{most_text};
ghost use Rattle.segment_codec.specs.Refusal.{tuple_of};
ghost use Rattle.sq_base.specs.declared.kinds.Tuple.{Tuple};
ghost use Rattle.tcb_machine.specs.Limits.{last_time};
ghost use Rattle.live_server.specs.Initial.{number_for};
ghost use Rattle.live_server.specs.Leaving.{without_shed};
ghost use Rattle.live_server.specs.Isolation.{Costs, CostsOf, KeepsRest, Loses};
ghost use Rattle.icmp_codec.specs.EchoRequest.{ping_in};
ghost use Rattle.live_server.specs.Serving.{addressed, admits, arrives, echoes, fits, has_place, is_echoed, is_tight, limited, makes_place};
ghost use Rattle.live_server.specs.CountsText.{counts_text};
ghost use Rattle.live_server.specs.Serving.{measures_of, obeys, on_datagram, on_other, on_protocol, on_segment, on_time, on_too_long, opens};
ghost use Rattle.live_server.specs.Serving.{passes_over, refused, refuses, server_of, shortens_at, takes_place, tells_counts, told_counts, without_text, yields};
ghost use Rattle.live_server.specs.Table.{place_of, IsNew};
ghost use Rattle.live_server.specs.Told.{told_addressed, told_arriving, told_datagram, told_opening, told_segment, told_taking, told_time, told_too_long, told_admitting};
ghost use Rattle.live_server.specs.Told.Told.{hears};
ghost use Rattle.live_server.specs.Written.{HasSent};

use crate::acting::{Datagram, encoded, text_of};
use crate::addresses::{is_for_us, is_to_us};
use crate::conn::{Conn, Met};
use crate::conn_table::ConnTable;
use crate::counts::Counts;
use crate::counts_text::counts_text;
use crate::crowding::{TurnedAway, shed_place};
use crate::initial::{Secret, initial_number};
use crate::marking::{Marking, marked};
use crate::measures::Measures;
use crate::orders::{back_to, order_in, order_text};
use crate::path_mtu::text_in_mtu;
use crate::ports::{is_served_at, service_at};
use crate::setting::Setting;
use crate::urgent::{as_reset, reset_text, urgent_in};
use icmp_codec::{Ping, TooLong, ping_in, pong, too_long_in};
use segment_codec::{Options, Packet, SYN, Seg, decode, refusal, tuple_of};
use sq_base::{Link, Tuple};
use std::alloc::{AllocError, Global};
use std::collections::VecDeque;
use tcb_machine::DEFAULT_MSS;
use udp_codec::{Udp, encode_udp};

/// The rules over a table of connections, and what they keep beside it.
#[derive(Drop)]
pub struct Rules<T> {
    pub table: T,
    /// The ends and the number of the connections that were opened last, by age: one that is half open is among them.
    waiting: VecDeque<(Tuple, u64)>,
    /// How many bytes all held when the time last came to them, with the text that came since.
    held: u64,
    /// How many echo requests were answered since the time last came.
    pings: u32,
    /// Whether the host was told the counts since then.
    told: bool,
    /// Who found no place since then.
    turned: TurnedAway,
    /// Whether it drains: no connection opens any more, and each one closes.
    draining: bool,
    setting: Setting,
    secret: Secret,
    pub(crate) counts: Counts,
}

impl<T: ConnTable> Rules<T> {
    ghost use Rattle.live_server.specs.Counting.{no_counts};
    ghost use Rattle.live_server.specs.declared.crowding.TurnedAway.TheVariants.{Nobody};

    /// The rules over a table. They take no memory.
    pub fn over(alloc: Global, table: T, setting: Setting, secret: Secret) -> Rules<T>
        ensures table { result.table ≡ table }
        ensures server { server_of T.conns result ≡ record {
          conns = T.conns table;
          waiting = [];
          held = 0;
          pings = 0;
          told = false;
          turned = Nobody;
          draining = false;
          setting = setting;
          secret = secret.0;
          counts = no_counts;
        } }
    {
        Rules {
            table,
            waiting: VecDeque::new(alloc),
            held: 0,
            pings: 0,
            told: false,
            turned: TurnedAway::Nobody,
            draining: false,
            setting,
            secret,
            counts: Counts::default(),
        }
    }

    /// The table alone.
    pub fn into_table(self) -> T
        ensures { result ≡ self.table }
    {
        self.table
    }

    /// How many connections there are.
    pub fn connections(&self) -> usize
        requires good { T.good self.now.table }
        ensures { result ≡ length (T.conns self.now.table) }
    {
        self.table.len()
    }

    /// What they were started with.
    pub(crate) fn setting(&self) -> &Setting
        ensures { result.now ≡ self.now.setting }
    {
        &self.setting
    }

    /// What they met since they were made.
    pub fn counts(&self) -> Counts
        ensures { result ≡ (server_of T.conns self.now).counts }
    {
        self.counts
    }

    /// An IPv4 datagram comes at a time in microseconds. What is sent goes behind the datagrams that are there. Both checksums are
    /// verified. An echo request is answered, an order of the host is obeyed, a router's message that a segment was too long is told to
    /// the segment's connection, one that it didn't arrive counts, and what else is no whole TCP segment is passed over. An error says that memory was missing: then the
    /// segment's own connection may be gone, with half-open ones that gave way, and some of what is to be sent is missing. All else stays
    /// but who may give way, what is held, and four counts.
    #[tactic(auto, unfolding(crate::specs::Serving::on_datagram, crate::specs::Serving::on_packet))]
    pub fn datagram(
        &mut self,
        alloc: Global,
        now: u64,
        body: &[u8],
        out: &mut Vec<Datagram>,
    ) -> Result<(), AllocError>
        requires good { T.good self.old.table }
        requires time { now ≤ last_time }
        requires body { length body.now < 2 ^ 32 }
        ensures good { T.good self.new.table }
        ensures server { OnOk result (server_of T.conns self.new ≡ (on_datagram now body.now (server_of T.conns self.old)).server) }
        ensures sent { OnOk result (out.new.items ≡ out.old.items ++ (on_datagram now body.now (server_of T.conns self.old)).sent) }
        ensures wrote { OnErr result (HasSent out.old.items out.new.items (on_datagram now body.now (server_of T.conns self.old)).sent) }
        ensures told { OnOk result (T.tells self.old.table (told_datagram now body.now (server_of T.conns self.old)) self.new.table) }
        ensures lost { OnErr result (CostsOf body.now (server_of T.conns self.old) (server_of T.conns self.new)) }
        ensures rest { OnErr result (KeepsRest (length body.now) (server_of T.conns self.old) (server_of T.conns self.new)) }
    {
        match decode(Link::RawIp, body, true) {
            Packet::Segment(seg) => {
                let text = reset_text(&seg, text_of(&seg, body));
                let pointer = urgent_in(&seg, body);
                self.addressed(alloc, now, pointer, &as_reset(&seg), text, out)
            }
            Packet::Other => match too_long_in(body) {
                Some(too_long) => self.shorten(alloc, &too_long, out),
                None => self.report(alloc, now, body, out),
            },
            _ => {
                self.pass_over();
                Ok(())
            }
        }
    }

    /// A router says that a segment was too long for the next path (RFC 1191). The segment's connection is told, where the message is for us.
    #[tactic(auto, unfolding(crate::specs::Serving::on_too_long))]
    fn shorten(
        &mut self,
        alloc: Global,
        too_long: &TooLong,
        out: &mut Vec<Datagram>,
    ) -> Result<(), AllocError>
        requires good { T.good self.old.table }
        ensures good { T.good self.new.table }
        ensures server { OnOk result (server_of T.conns self.new ≡ (on_too_long too_long.now (server_of T.conns self.old)).server) }
        ensures sent { OnOk result (out.new.items ≡ out.old.items ++ (on_too_long too_long.now (server_of T.conns self.old)).sent) }
        ensures wrote { OnErr result (HasSent out.old.items out.new.items (on_too_long too_long.now (server_of T.conns self.old)).sent) }
        ensures told { OnOk result (T.tells self.old.table (told_too_long too_long.now (server_of T.conns self.old)) self.new.table) }
        ensures lost { OnErr result (Loses too_long.now.ends (server_of T.conns self.old) (server_of T.conns self.new)) }
        ensures rest { OnErr result (KeepsRest 0 (server_of T.conns self.old) (server_of T.conns self.new)) }
    {
        if is_to_us(&self.setting, too_long.src, too_long.dst) {
            if let Some(place) = self.table.find(&too_long.ends) {
                return self.shorten_at(alloc, too_long, place, out);
            }
        }
        self.pass_over();
        Ok(())
    }

    /// The connection at a place is told that.
    #[tactic(auto, unfolding(crate::specs::Serving::shortens_at, crate::specs::Serving::becomes))]
    fn shorten_at(
        &mut self,
        alloc: Global,
        too_long: &TooLong,
        place: usize,
        out: &mut Vec<Datagram>,
    ) -> Result<(), AllocError>
        requires good { T.good self.old.table }
        requires place { place_of too_long.now.ends (T.conns self.old.table) ≡ Some place }
        ensures good { T.good self.new.table }
        ensures server { OnOk result (server_of T.conns self.new ≡ (shortens_at too_long.now place (server_of T.conns self.old)).server) }
        ensures sent { OnOk result (out.new.items ≡ out.old.items ++ (shortens_at too_long.now place (server_of T.conns self.old)).sent) }
        ensures wrote { OnErr result (HasSent out.old.items out.new.items (shortens_at too_long.now place (server_of T.conns self.old)).sent) }
        ensures told { OnOk result (T.tells self.old.table (hears too_long.now.ends ∷ []) self.new.table) }
        ensures lost { OnErr result (Loses too_long.now.ends (server_of T.conns self.old) (server_of T.conns self.new)) }
        ensures rest { OnErr result (KeepsRest 0 (server_of T.conns self.old) (server_of T.conns self.new)) }
    {
        let most = text_in_mtu(too_long.mtu);
        let met = self
            .table
            .shorten(place, alloc, too_long.seq, most, &too_long.ends, out)?;
        match met {
            Met::Judged(_) => {
                self.counts.shortened = self.counts.shortened.wrapping_add(1);
                Ok(())
            }
            Met::Gone => {
                self.pass_over();
                Ok(())
            }
        }
    }

    /// A datagram of another protocol: an order of the host is obeyed.
    #[tactic(auto, unfolding(crate::specs::Serving::on_protocol))]
    pub(crate) fn protocol(
        &mut self,
        alloc: Global,
        now: u64,
        body: &[u8],
        out: &mut Vec<Datagram>,
    ) -> Result<(), AllocError>
        requires good { T.good self.old.table }
        requires body { length body.now < 2 ^ 32 }
        ensures table { self.new.table ≡ self.old.table }
        ensures server { OnOk result (server_of T.conns self.new ≡ (on_protocol now body.now (server_of T.conns self.old)).server) }
        ensures sent { OnOk result (out.new.items ≡ out.old.items ++ (on_protocol now body.now (server_of T.conns self.old)).sent) }
        ensures wrote { OnErr result (HasSent out.old.items out.new.items (on_protocol now body.now (server_of T.conns self.old)).sent) }
        ensures kept { OnErr result (server_of T.conns self.new ≡ server_of T.conns self.old) }
    {
        match order_in(&self.setting, body) {
            Some(order) => self.obey(alloc, now, &order, order_text(&order, body), out),
            None => self.other(alloc, now, body, out),
        }
    }

    /// An order of the host. A text that is none is passed over.
    #[tactic(auto, unfolding(crate::specs::Serving::obeys))]
    fn obey(
        &mut self,
        alloc: Global,
        now: u64,
        order: &Udp,
        text: &[u8],
        out: &mut Vec<Datagram>,
    ) -> Result<(), AllocError>
        requires good { T.good self.old.table }
        ensures table { self.new.table ≡ self.old.table }
        ensures server { OnOk result (server_of T.conns self.new ≡ (obeys now order.now text.now (server_of T.conns self.old)).server) }
        ensures sent { OnOk result (out.new.items ≡ out.old.items ++ (obeys now order.now text.now (server_of T.conns self.old)).sent) }
        ensures wrote { OnErr result (HasSent out.old.items out.new.items (obeys now order.now text.now (server_of T.conns self.old)).sent) }
        ensures kept { OnErr result (server_of T.conns self.new ≡ server_of T.conns self.old) }
    {
        if text == b"drain".as_slice() {
            self.draining = true;
            Ok(())
        } else if text == b"counts".as_slice() && !self.told {
            self.tell(alloc, now, order, out)
        } else {
            self.pass_over();
            Ok(())
        }
    }

    /// The host is told the counts. After an error nothing has changed.
    fn tell(
        &mut self,
        alloc: Global,
        now: u64,
        order: &Udp,
        out: &mut Vec<Datagram>,
    ) -> Result<(), AllocError>
        requires good { T.good self.old.table }
        ensures table { self.new.table ≡ self.old.table }
        ensures server { OnOk result (server_of T.conns self.new ≡ (tells_counts now order.now (server_of T.conns self.old)).server) }
        ensures sent { OnOk result (out.new.items ≡ out.old.items ++ (tells_counts now order.now (server_of T.conns self.old)).sent) }
        ensures wrote { OnErr result (HasSent out.old.items out.new.items (tells_counts now order.now (server_of T.conns self.old)).sent) }
        ensures kept { OnErr result (server_of T.conns self.new ≡ server_of T.conns self.old) }
    {
        let text = self.counts_text(alloc)?;
        let bytes = encode_udp(alloc, &back_to(order), text.as_bytes())?;
        let bytes = marked(alloc, bytes, self.setting.marking)?;
        out.push(Datagram { at: now, bytes })?;
        self.told = true;
        Ok(())
    }

    /// The text that tells the counts.
    fn counts_text(&self, alloc: Global) -> Result<String, AllocError>
        requires good { T.good self.now.table }
        ensures is { IfOk result (λ text. string_bytes text ≡ counts_text (told_counts (server_of T.conns self.now))) }
        ensures short { IfOk result (λ text. length (string_bytes text) ≤ most_text) }
    {
        counts_text(
            alloc,
            self.table.len(),
            self.waiting.len(),
            self.held,
            self.draining,
            &self.counts,
        )
    }

    /// A datagram of another protocol: an echo request is answered, where it is for us, and not many were since the time last came.
    #[tactic(auto, unfolding(crate::specs::Serving::on_other))]
    fn other(
        &mut self,
        alloc: Global,
        now: u64,
        body: &[u8],
        out: &mut Vec<Datagram>,
    ) -> Result<(), AllocError>
        ensures table { self.new.table ≡ self.old.table }
        ensures server { OnOk result (server_of T.conns self.new ≡ (on_other now (ping_in body.now) (server_of T.conns self.old)).server) }
        ensures sent { OnOk result (out.new.items ≡ out.old.items ++ (on_other now (ping_in body.now) (server_of T.conns self.old)).sent) }
        ensures wrote { OnErr result (HasSent out.old.items out.new.items (on_other now (ping_in body.now) (server_of T.conns self.old)).sent) }
        ensures kept { OnErr result (server_of T.conns self.new ≡ server_of T.conns self.old) }
    {
        match ping_in(body) {
            Some(ping) if self.is_echoed(&ping) => self.echo(alloc, now, &ping, out),
            _ => {
                self.pass_over();
                Ok(())
            }
        }
    }

    /// Whether an echo request is answered.
    #[tactic(auto, unfolding(crate::specs::Serving::is_echoed))]
    fn is_echoed(&self, ping: &Ping<'_>) -> bool
        ensures { result ≡ is_echoed ping.now (server_of T.conns self.now) }
    {
        is_to_us(&self.setting, ping.src(), ping.dst()) && self.pings < self.setting.pings
    }

    /// An echo request is answered. After an error nothing has changed.
    #[tactic(auto, unfolding(crate::specs::Serving::is_echoed), using(crate::proofs::WrittenLemmas::nothing_sent))]
    fn echo(
        &mut self,
        alloc: Global,
        now: u64,
        ping: &Ping<'_>,
        out: &mut Vec<Datagram>,
    ) -> Result<(), AllocError>
        requires { is_echoed ping.now (server_of T.conns self.old) ≡ true }
        ensures table { self.new.table ≡ self.old.table }
        ensures server { OnOk result (server_of T.conns self.new ≡ (echoes now ping.now (server_of T.conns self.old)).server) }
        ensures sent { OnOk result (out.new.items ≡ out.old.items ++ (echoes now ping.now (server_of T.conns self.old)).sent) }
        ensures wrote { OnErr result (HasSent out.old.items out.new.items (echoes now ping.now (server_of T.conns self.old)).sent) }
        ensures kept { OnErr result (server_of T.conns self.new ≡ server_of T.conns self.old) }
    {
        let bytes = marked(alloc, pong(alloc, ping)?, self.setting.marking)?;
        out.push(Datagram { at: now, bytes })?;
        let most = self.setting.pings;
        prove!(self.pings < most);
        self.pings += 1;
        self.counts.pinged = self.counts.pinged.wrapping_add(1);
        Ok(())
    }

    /// A datagram counts, and changes nothing.
    pub(crate) fn pass_over(&mut self)
        ensures table { self.new.table ≡ self.old.table }
        ensures server { server_of T.conns self.new ≡ (passes_over (server_of T.conns self.old)).server }
    {
        self.counts.passed_over = self.counts.passed_over.wrapping_add(1);
    }

    /// The time comes to every connection; where three quarters of the text that all may hold are held, each forgets what it holds behind a
    /// gap, which its peer sends again. Who is to leave does: half open for three minutes, silent in FIN-WAIT-2 for one, in
    /// TIME-WAIT where three quarters of the places are taken, or idle where all are. Where the table is still full, one may leave for
    /// somebody who was turned away. Where the server drains, each closes. What is sent goes behind the datagrams that are there,
    /// connection by connection. An error says that memory was missing: then only the table changed, as it says itself.
    #[tactic(auto, unfolding(crate::specs::Serving::on_time))]
    pub fn tick(
        &mut self,
        alloc: Global,
        now: u64,
        out: &mut Vec<Datagram>,
    ) -> Result<(), AllocError>
        requires good { T.good self.old.table }
        requires time { now ≤ last_time }
        ensures good { T.good self.new.table }
        ensures server { OnOk result (server_of T.conns self.new ≡ (on_time now (server_of T.conns self.old)).server) }
        ensures sent { OnOk result (out.new.items ≡ out.old.items ++ (on_time now (server_of T.conns self.old)).sent) }
        ensures wrote { OnErr result (HasSent out.old.items out.new.items (on_time now (server_of T.conns self.old)).sent) }
        ensures told { OnOk result (T.tells self.old.table (told_time (server_of T.conns self.old)) self.new.table) }
        ensures lost { OnErr result (T.spoils (measures_of (server_of T.conns self.old)) now (T.conns self.old.table) (T.conns self.new.table)) }
        ensures rest { OnErr result (server_of T.conns self.new ≡ record (server_of T.conns self.old) { conns = T.conns self.new.table }) }
    {
        let measures = Measures {
            tight: self.is_tight(),
            draining: self.draining,
        };
        self.table.reach_all(alloc, measures, now, out)?;
        self.table.drop_over(alloc);
        let here = self.table.len();
        self.table.drop_leaving(alloc, &self.setting, now);
        self.shed(alloc);
        let left = (here - self.table.len()) as u64;
        self.counts.left = self.counts.left.wrapping_add(left);
        self.held = self.table.held();
        self.pings = 0;
        self.told = false;
        self.turned = TurnedAway::Nobody;
        Ok(())
    }

    /// Whether three quarters of the text that all may hold are held.
    #[tactic(auto, unfolding(crate::specs::Serving::is_tight))]
    fn is_tight(&self) -> bool
        ensures { result ≡ is_tight (server_of T.conns self.now) }
    {
        self.held >= self.setting.bytes - self.setting.bytes / 4
    }

    /// One connection leaves a full table for somebody who was turned away, where another address has more than a quarter of it: of the
    /// address that has the most, the one that was silent the longest.
    #[tactic(auto, unfolding(crate::specs::Leaving::without_shed))]
    fn shed(&mut self, alloc: Global)
        requires good { T.good self.old.table }
        ensures good { T.good self.new.table }
        ensures table { T.conns self.new.table ≡ without_shed self.old.setting self.old.turned (T.conns self.old.table) }
        ensures rest { server_of T.conns self.new ≡ record (server_of T.conns self.old) { conns = T.conns self.new.table } }
        ensures told { T.tells self.old.table [] self.new.table }
    {
        if let TurnedAway::Nobody = self.turned {
            return;
        }
        if self.table.len() < self.setting.places {
            return;
        }
        if let Some(place) = shed_place(&self.table, self.turned) {
            self.table.leave(alloc, place);
        }
    }

    /// A segment with right sums, and its urgent pointer, where URG is set.
    #[tactic(auto, unfolding(crate::specs::Serving::addressed))]
    fn addressed(
        &mut self,
        alloc: Global,
        now: u64,
        pointer: Option<u16>,
        seg: &Seg,
        text: &[u8],
        out: &mut Vec<Datagram>,
    ) -> Result<(), AllocError>
        requires good { T.good self.old.table }
        requires time { now ≤ last_time }
        ensures good { T.good self.new.table }
        ensures server { OnOk result (server_of T.conns self.new ≡ (addressed now pointer seg.now text.now (server_of T.conns self.old)).server) }
        ensures sent { OnOk result (out.new.items ≡ out.old.items ++ (addressed now pointer seg.now text.now (server_of T.conns self.old)).sent) }
        ensures wrote { OnErr result (HasSent out.old.items out.new.items (addressed now pointer seg.now text.now (server_of T.conns self.old)).sent) }
        ensures told { OnOk result (T.tells self.old.table (told_addressed now pointer seg.now text.now (server_of T.conns self.old)) self.new.table) }
        ensures lost { OnErr result (Costs seg.now (server_of T.conns self.old) (server_of T.conns self.new)) }
        ensures rest { OnErr result (KeepsRest (length text.now) (server_of T.conns self.old) (server_of T.conns self.new)) }
    {
        if !is_for_us(&self.setting, seg) {
            self.counts.astray = self.counts.astray.wrapping_add(1);
            Ok(())
        } else if is_served_at(&self.setting.ports, seg.dst_port) {
            self.urgent(
                alloc,
                now,
                pointer,
                &limited(seg, self.setting.segment),
                text,
                out,
            )
        } else {
            self.refuse(alloc, now, seg, out)
        }
    }

    /// A segment is answered by a reset, as at a port without a service.
    fn refuse(
        &mut self,
        alloc: Global,
        now: u64,
        seg: &Seg,
        out: &mut Vec<Datagram>,
    ) -> Result<(), AllocError>
        ensures table { self.new.table ≡ self.old.table }
        ensures server { server_of T.conns self.new ≡ (refuses now seg.now (server_of T.conns self.old)).server }
        ensures sent { OnOk result (out.new.items ≡ out.old.items ++ (refuses now seg.now (server_of T.conns self.old)).sent) }
        ensures wrote { OnErr result (HasSent out.old.items out.new.items (refuses now seg.now (server_of T.conns self.old)).sent) }
    {
        self.counts.refused = self.counts.refused.wrapping_add(1);
        refuse(alloc, now, seg, self.setting.marking, out)
    }

    /// A segment to a service. Where its text would take all past what they may hold, it counts without it.
    pub(crate) fn segment(
        &mut self,
        alloc: Global,
        now: u64,
        seg: &Seg,
        text: &[u8],
        out: &mut Vec<Datagram>,
    ) -> Result<(), AllocError>
        requires good { T.good self.old.table }
        requires time { now ≤ last_time }
        ensures good { T.good self.new.table }
        ensures server { OnOk result (server_of T.conns self.new ≡ (on_segment now seg.now text.now (server_of T.conns self.old)).server) }
        ensures sent { OnOk result (out.new.items ≡ out.old.items ++ (on_segment now seg.now text.now (server_of T.conns self.old)).sent) }
        ensures wrote { OnErr result (HasSent out.old.items out.new.items (on_segment now seg.now text.now (server_of T.conns self.old)).sent) }
        ensures told { OnOk result (T.tells self.old.table (told_segment now seg.now text.now (server_of T.conns self.old)) self.new.table) }
        ensures lost { OnErr result (Loses (tuple_of seg.now) (server_of T.conns self.old) (server_of T.conns self.new)) }
        ensures rest { OnErr result (KeepsRest (length text.now) (server_of T.conns self.old) (server_of T.conns self.new)) }
    {
        if self.fits(text) {
            self.held = self.held.saturating_add(text.len() as u64);
            self.arrive(alloc, now, seg, text, out)
        } else {
            self.counts.over_full = self.counts.over_full.wrapping_add(1);
            self.arrive(alloc, now, &without_text(seg), &[], out)
        }
    }

    /// Whether all may hold so much more.
    #[tactic(auto, unfolding(crate::specs::Serving::fits))]
    fn fits(&self, text: &[u8]) -> bool
        ensures { result ≡ fits text.now (server_of T.conns self.now) }
    {
        text.len() as u64 <= self.setting.bytes.saturating_sub(self.held)
    }

    /// A segment to a service comes to its connection, or opens one. The time comes to the connection first.
    fn arrive(
        &mut self,
        alloc: Global,
        now: u64,
        seg: &Seg,
        text: &[u8],
        out: &mut Vec<Datagram>,
    ) -> Result<(), AllocError>
        requires good { T.good self.old.table }
        requires time { now ≤ last_time }
        ensures good { T.good self.new.table }
        ensures server { OnOk result (server_of T.conns self.new ≡ (arrives now seg.now text.now (server_of T.conns self.old)).server) }
        ensures sent { OnOk result (out.new.items ≡ out.old.items ++ (arrives now seg.now text.now (server_of T.conns self.old)).sent) }
        ensures wrote { OnErr result (HasSent out.old.items out.new.items (arrives now seg.now text.now (server_of T.conns self.old)).sent) }
        ensures told { OnOk result (T.tells self.old.table (told_arriving now seg.now text.now (server_of T.conns self.old)) self.new.table) }
        ensures lost { OnErr result (Loses (tuple_of seg.now) (server_of T.conns self.old) (server_of T.conns self.new)) }
        ensures rest { OnErr result (KeepsRest 0 (server_of T.conns self.old) (server_of T.conns self.new)) }
    {
        match self.table.find(&tuple_of(seg)) {
            Some(place) => self.meet(alloc, now, seg, text, place, out),
            None => self.open(alloc, now, seg, text, out),
        }
    }

    /// A segment meets the connection at a place. Where the time ended that one, the segment opens a new one.
    fn meet(
        &mut self,
        alloc: Global,
        now: u64,
        seg: &Seg,
        text: &[u8],
        place: usize,
        out: &mut Vec<Datagram>,
    ) -> Result<(), AllocError>
        requires good { T.good self.old.table }
        requires time { now ≤ last_time }
        requires place { place_of (tuple_of seg.now) (T.conns self.old.table) ≡ Some place }
        ensures good { T.good self.new.table }
        ensures server { OnOk result (server_of T.conns self.new ≡ (arrives now seg.now text.now (server_of T.conns self.old)).server) }
        ensures sent { OnOk result (out.new.items ≡ out.old.items ++ (arrives now seg.now text.now (server_of T.conns self.old)).sent) }
        ensures wrote { OnErr result (HasSent out.old.items out.new.items (arrives now seg.now text.now (server_of T.conns self.old)).sent) }
        ensures told { OnOk result (T.tells self.old.table (told_arriving now seg.now text.now (server_of T.conns self.old)) self.new.table) }
        ensures lost { OnErr result (Loses (tuple_of seg.now) (server_of T.conns self.old) (server_of T.conns self.new)) }
        ensures rest { OnErr result (KeepsRest 0 (server_of T.conns self.old) (server_of T.conns self.new)) }
    {
        let tuple = tuple_of(seg);
        let iss = number_for(&self.secret, now, seg, &tuple);
        let met = self
            .table
            .meet(place, alloc, now, iss, seg, text, &tuple, out)?;
        match met {
            Met::Judged(judged) => {
                self.counts.judge(judged);
                Ok(())
            }
            Met::Gone => self.open(alloc, now, seg, text, out),
        }
    }

    /// A segment of a connection that has no place. Where the server drains, none opens any more.
    #[tactic(auto, unfolding(crate::specs::Serving::opens))]
    fn open(
        &mut self,
        alloc: Global,
        now: u64,
        seg: &Seg,
        text: &[u8],
        out: &mut Vec<Datagram>,
    ) -> Result<(), AllocError>
        requires good { T.good self.old.table }
        requires time { now ≤ last_time }
        requires new { IsNew (tuple_of seg.now) (T.conns self.old.table) }
        ensures good { T.good self.new.table }
        ensures server { OnOk result (server_of T.conns self.new ≡ (opens now seg.now text.now (server_of T.conns self.old)).server) }
        ensures sent { OnOk result (out.new.items ≡ out.old.items ++ (opens now seg.now text.now (server_of T.conns self.old)).sent) }
        ensures wrote { OnErr result (HasSent out.old.items out.new.items (opens now seg.now text.now (server_of T.conns self.old)).sent) }
        ensures told { OnOk result (T.tells self.old.table (told_opening now seg.now text.now (server_of T.conns self.old)) self.new.table) }
        ensures lost { OnErr result (Loses (tuple_of seg.now) (server_of T.conns self.old) (server_of T.conns self.new)) }
        ensures rest { OnErr result (KeepsRest 0 (server_of T.conns self.old) (server_of T.conns self.new)) }
    {
        if self.draining {
            self.refuse(alloc, now, seg, out)
        } else {
            self.admit(alloc, now, seg, text, out)
        }
    }

    /// A connection takes a place, unless it is over at once.
    #[tactic(auto, unfolding(crate::specs::Serving::admits), using(crate::proofs::WrittenLemmas::nothing_sent))]
    fn admit(
        &mut self,
        alloc: Global,
        now: u64,
        seg: &Seg,
        text: &[u8],
        out: &mut Vec<Datagram>,
    ) -> Result<(), AllocError>
        requires good { T.good self.old.table }
        requires time { now ≤ last_time }
        requires new { IsNew (tuple_of seg.now) (T.conns self.old.table) }
        ensures good { T.good self.new.table }
        ensures server { OnOk result (server_of T.conns self.new ≡ (admits now seg.now text.now (server_of T.conns self.old)).server) }
        ensures sent { OnOk result (out.new.items ≡ out.old.items ++ (admits now seg.now text.now (server_of T.conns self.old)).sent) }
        ensures wrote { OnErr result (HasSent out.old.items out.new.items (admits now seg.now text.now (server_of T.conns self.old)).sent) }
        ensures told { OnOk result (T.tells self.old.table (told_admitting now seg.now text.now (server_of T.conns self.old)) self.new.table) }
        ensures lost { OnErr result (Loses (tuple_of seg.now) (server_of T.conns self.old) (server_of T.conns self.new)) }
        ensures rest { OnErr result (KeepsRest 0 (server_of T.conns self.old) (server_of T.conns self.new)) }
    {
        let tuple = tuple_of(seg);
        let iss = number_for(&self.secret, now, seg, &tuple);
        let service = service_at(&self.setting, now, seg.dst_port)?;
        let mut conn = Conn::make(
            alloc,
            service,
            self.setting.segment,
            self.setting.marking,
            now,
        );
        conn.take(alloc, now, iss, seg, text)?;
        if conn.is_over() {
            return conn.send(alloc, &tuple, out);
        }
        self.make_place(alloc);
        self.take_place(alloc, tuple, conn, out)
    }

    /// A connection takes a place, where one is free.
    #[tactic(auto, unfolding(crate::specs::Serving::takes_place, crate::specs::Told::told_taking), using(crate::proofs::WrittenLemmas::all_sent))]
    fn take_place(
        &mut self,
        alloc: Global,
        tuple: Tuple,
        mut conn: Conn,
        out: &mut Vec<Datagram>,
    ) -> Result<(), AllocError>
        requires good { T.good self.old.table }
        requires new { IsNew tuple (T.conns self.old.table) }
        ensures good { T.good self.new.table }
        ensures server { OnOk result (server_of T.conns self.new ≡ (takes_place tuple conn (server_of T.conns self.old)).server) }
        ensures sent { OnOk result (out.new.items ≡ out.old.items ++ (takes_place tuple conn (server_of T.conns self.old)).sent) }
        ensures wrote { OnErr result (HasSent out.old.items out.new.items (takes_place tuple conn (server_of T.conns self.old)).sent) }
        ensures told { OnOk result (T.tells self.old.table (told_taking tuple (server_of T.conns self.old)) self.new.table) }
        ensures lost { OnErr result (Loses tuple (server_of T.conns self.old) (server_of T.conns self.new)) }
        ensures rest { OnErr result (KeepsRest 0 (server_of T.conns self.old) (server_of T.conns self.new)) }
    {
        if !self.has_place() {
            self.turned = self.turned.and(tuple.client);
            self.counts.turned_away = self.counts.turned_away.wrapping_add(1);
            return Ok(());
        }
        conn.number = self.counts.opened;
        conn.send(alloc, &tuple, out)?;
        self.waiting.push_back((tuple, self.counts.opened))?;
        self.table.insert(alloc, tuple, conn)?;
        self.counts.opened = self.counts.opened.wrapping_add(1);
        Ok(())
    }

    /// Half-open connections give way by age, until a place is free.
    #[tactic(auto, unfolding(crate::specs::Serving::has_place))]
    fn make_place(&mut self, alloc: Global)
        requires good { T.good self.old.table }
        ensures good { T.good self.new.table }
        ensures place { server_of T.conns self.new ≡ makes_place (server_of T.conns self.old) }
        ensures told { T.tells self.old.table [] self.new.table }
        ensures new { (t : Tuple) → IsNew t (T.conns self.old.table) → IsNew t (T.conns self.new.table) }
    {
        'yielding: while !self.has_place() {
            let Some(waiting) = self.waiting.pop_front() else {
                return;
            };
            self.yield_place(alloc, &waiting);
        }
    }

    /// Whether a place is free, and one of those that may be half open.
    #[tactic(auto, unfolding(crate::specs::Serving::has_place))]
    fn has_place(&self) -> bool
        requires good { T.good self.now.table }
        ensures { result ≡ has_place (server_of T.conns self.now) }
    {
        self.table.len() < self.setting.places && self.waiting.len() < self.setting.places
    }

    /// The connection of two ends gives way, where it is half open and was opened with this number.
    #[tactic(auto, unfolding(crate::specs::Serving::yields, crate::specs::Serving::yields_at))]
    fn yield_place(&mut self, alloc: Global, waiting: &(Tuple, u64))
        requires good { T.good self.old.table }
        ensures good { T.good self.new.table }
        ensures yields { server_of T.conns self.new ≡ yields waiting.now (server_of T.conns self.old) }
        ensures told { T.tells self.old.table [] self.new.table }
        ensures new { (t : Tuple) → IsNew t (T.conns self.old.table) → IsNew t (T.conns self.new.table) }
    {
        if let Some(place) = self.table.find(&waiting.0) {
            if self.table.is_waiting_at(place, waiting.1) {
                self.table.leave(alloc, place);
                self.counts.gave_way = self.counts.gave_way.wrapping_add(1);
            }
        }
    }
}

/// The initial sequence number for a segment that opens its connection, and 0 for another one, which needs none.
pub fn number_for(secret: &Secret, now: u64, seg: &Seg, tuple: &Tuple) -> u32
    requires { tuple.now ≡ tuple_of seg.now }
    ensures { result ≡ number_for secret.now.0 now seg.now }
{
    if seg.flags & SYN == SYN {
        initial_number(secret, now, tuple)
    } else {
        0
    }
}

/// A segment whose peer takes no longer text than the path does.
fn limited(seg: &Seg, most: u16) -> Seg
    ensures { result ≡ limited most seg.now }
{
    let mss = seg.options.mss.unwrap_or(DEFAULT_MSS).min(most);
    Seg {
        options: Options {
            mss: Some(mss),
            ..seg.options
        },
        ..*seg
    }
}

/// A segment without its text and its FIN.
pub fn without_text(seg: &Seg) -> Seg
    ensures { result ≡ without_text seg.now }
{
    Seg {
        flags: seg.flags & 62,
        ..*seg
    }
}

/// A segment to a port that isn't served is answered by a reset.
#[tactic(auto, using(crate::proofs::WrittenLemmas::nothing_sent))]
fn refuse(
    alloc: Global,
    now: u64,
    seg: &Seg,
    marking: Marking,
    out: &mut Vec<Datagram>,
) -> Result<(), AllocError>
    ensures sent { OnOk result (out.new.items ≡ out.old.items ++ refused marking now seg.now) }
    ensures wrote { OnErr result (HasSent out.old.items out.new.items (refused marking now seg.now)) }
{
    if let Some(reset) = refusal(alloc, now, seg) {
        out.push(encoded(alloc, &tuple_of(seg), &reset, marking)?)?;
    }
    Ok(())
}
