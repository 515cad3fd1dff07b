//! What the rules of a server ask of the table that keeps its connections.

ghost use Rattle.std.specs.Prelude.{◌≡◌, ℕ, List, ◌++◌, ◌<◌, ◌≤◌, [], ◌∷◌, length, map, option_map, slice_get, Some, IfOk, OnErr, OnOk};
ghost use Rattle.std.specs.List.{flat_map};
ghost use Rattle.std.specs.Map.{keys_of};
ghost use Rattle.tcb_machine.specs.Limits.{last_time};
ghost use Rattle.live_server.specs.Acts.{emptied, meets, sent_by, ticked};
ghost use Rattle.live_server.specs.Leaving.{peer_of, without_leaving};
ghost use Rattle.live_server.specs.PathMtu.{shortens};
ghost use Rattle.live_server.specs.Serving.{is_waiting};
ghost use Rattle.live_server.specs.Unreached.{reported};
ghost use Rattle.live_server.specs.Urgent.{urges};
ghost use Rattle.live_server.specs.Table.{Conns, all_reached, conn_at, held_by, place_of, replaced, without, without_over, IsNew};
ghost use Rattle.live_server.specs.Told.{Told};
ghost use Rattle.live_server.specs.Told.Told.{begins, hears};
ghost use Rattle.live_server.specs.Written.{HasSent};
ghost use Rattle.live_server.specs.declared.conn.Met.TheVariants.{Gone};
ghost use Rattle.live_server.specs.declared.measures.Measures.{Measures};

use crate::acting::Datagram;
use crate::conn::{Conn, Met};
use crate::crowding::Peer;
use crate::measures::Measures;
use crate::setting::Setting;
use crate::unreached::Reported;
use segment_codec::Seg;
use sq_base::Tuple;
use std::alloc::{AllocError, Global};

/// Connections by their two ends, in order: what the rules of a server work on. A connection stands at a place below the length.
/// Between two calls of the table nothing that a connection sent is left in it, and none is over.
pub trait ConnTable {
    /// The connections, each with its ends.
    ghost conns: { Self → Conns };

    /// What holds between two calls.
    ghost good: { Self → Type 0 };

    /// What a tick leaves where memory was missing, of the connections that there were.
    ghost spoils: { Measures → ℕ → Conns → Conns → Type 0 };

    /// What the table's connections were told between two moments, one after another.
    ghost tells: { Self → List Told → Self → Type 0 };

    /// How many connections there are.
    fn len(&self) -> usize
        requires good { good self.now }
        ensures { result ≡ length (conns self.now) };

    /// The place of the connection of two ends.
    fn find(&self, ends: &Tuple) -> Option<usize>
        requires good { good self.now }
        ensures { result ≡ place_of ends.now (conns self.now) };

    /// Whether the connection at a place is half open, and the one that was opened with a number.
    fn is_waiting_at(&self, place: usize, number: u64) -> bool
        requires good { good self.now }
        ensures { result ≡ is_waiting number (conn_at place (conns self.now)) };

    /// What a message is to the connection at a place that the segment with a number didn't arrive.
    fn reported_at(&self, place: usize, seq: u32) -> Reported
        requires good { good self.now }
        requires place { place < length (conns self.now) }
        ensures { result ≡ reported seq (conn_at place (conns self.now)) };

    /// Whose the connection at a place is, and when something came from it last.
    fn peer_at(&self, place: usize) -> Peer
        requires good { good self.now }
        requires place { place < length (conns self.now) }
        ensures { Some result ≡ option_map peer_of (slice_get (conns self.now) place) };

    /// How many bytes all hold.
    fn held(&self) -> u64
        requires good { good self.now }
        ensures { result ≡ held_by (conns self.now) };

    /// A connection takes a place behind the others. An error says that the table has none for it.
    fn insert(&mut self, alloc: Global, ends: Tuple, conn: Conn) -> Result<(), AllocError>
        requires good { good self.old }
        requires new { IsNew ends (conns self.old) }
        requires sent { emptied conn ≡ conn }
        ensures good { good self.new }
        ensures put { OnOk result (conns self.new ≡ conns self.old ++ (ends, conn) ∷ []) }
        ensures told { OnOk result (tells self.old (begins ends ∷ []) self.new) }
        ensures kept { OnErr result (conns self.new ≡ conns self.old) };

    /// The connection at a place leaves; the last one takes its place.
    fn leave(&mut self, alloc: Global, place: usize)
        requires good { good self.old }
        requires place { place < length (conns self.old) }
        ensures good { good self.new }
        ensures told { tells self.old [] self.new }
        ensures table { conns self.new ≡ without place (conns self.old) };

    /// A segment comes to the connection at a place, behind the time. The connection leaves where it is over, or where memory is
    /// missing. What is sent goes behind the datagrams that are there. The answer says what became of the segment.
    fn meet(
        &mut self,
        place: usize,
        alloc: Global,
        now: u64,
        iss: u32,
        seg: &Seg,
        text: &[u8],
        tuple: &Tuple,
        out: &mut Vec<Datagram>,
    ) -> Result<Met, AllocError>
        requires good { good self.old }
        requires time { now ≤ last_time }
        requires place { place_of tuple.now (conns self.old) ≡ Some place }
        ensures good { good self.new }
        ensures met { IfOk result (λ m. m ≡ (meets now iss seg.now text.now tuple.now (conn_at place (conns self.old))).met) }
        ensures table { OnOk result (conns self.new
            ≡ replaced place (meets now iss seg.now text.now tuple.now (conn_at place (conns self.old))).conn (conns self.old)) }
        ensures sent { OnOk result (out.new.items ≡ out.old.items ++ (meets now iss seg.now text.now tuple.now (conn_at place (conns self.old))).sent) }
        ensures wrote { OnErr result (HasSent out.old.items out.new.items (meets now iss seg.now text.now tuple.now (conn_at place (conns self.old))).sent) }
        ensures told { OnOk result (tells self.old (hears tuple.now ∷ []) self.new) }
        ensures gone { IfOk result (λ m. m ≡ Gone → IsNew tuple.now (conns self.new)) }
        ensures lost { OnErr result (conns self.new ≡ without place (conns self.old)) };

    /// A router says to the connection at a place that it dropped the segment with a number, since the next path takes no more than `most`
    /// bytes of text in one. The connection leaves where memory is missing. What is sent goes behind the datagrams that are there. The
    /// answer says whether it was heeded: else it met nobody.
    fn shorten(
        &mut self,
        place: usize,
        alloc: Global,
        seq: u32,
        most: u16,
        tuple: &Tuple,
        out: &mut Vec<Datagram>,
    ) -> Result<Met, AllocError>
        requires good { good self.old }
        requires place { place_of tuple.now (conns self.old) ≡ Some place }
        ensures good { good self.new }
        ensures met { IfOk result (λ m. m ≡ (shortens seq most tuple.now (conn_at place (conns self.old))).met) }
        ensures table { OnOk result (conns self.new
            ≡ replaced place (shortens seq most tuple.now (conn_at place (conns self.old))).conn (conns self.old)) }
        ensures sent { OnOk result (out.new.items ≡ out.old.items ++ (shortens seq most tuple.now (conn_at place (conns self.old))).sent) }
        ensures wrote { OnErr result (HasSent out.old.items out.new.items (shortens seq most tuple.now (conn_at place (conns self.old))).sent) }
        ensures told { OnOk result (tells self.old (hears tuple.now ∷ []) self.new) }
        ensures lost { OnErr result (conns self.new ≡ without place (conns self.old)) };

    /// A segment with URG says to the connection at a place where urgent data ends. The connection leaves where memory is missing. What is sent
    /// goes behind the datagrams that are there. The answer says whether it is news: else it met nobody.
    fn urge(
        &mut self,
        place: usize,
        alloc: Global,
        now: u64,
        pointer: u16,
        seg: &Seg,
        tuple: &Tuple,
        out: &mut Vec<Datagram>,
    ) -> Result<Met, AllocError>
        requires good { good self.old }
        requires place { place_of tuple.now (conns self.old) ≡ Some place }
        ensures good { good self.new }
        ensures met { IfOk result (λ m. m ≡ (urges now pointer seg.now tuple.now (conn_at place (conns self.old))).met) }
        ensures table { OnOk result (conns self.new
            ≡ replaced place (urges now pointer seg.now tuple.now (conn_at place (conns self.old))).conn (conns self.old)) }
        ensures sent { OnOk result (out.new.items ≡ out.old.items ++ (urges now pointer seg.now tuple.now (conn_at place (conns self.old))).sent) }
        ensures wrote { OnErr result (HasSent out.old.items out.new.items (urges now pointer seg.now tuple.now (conn_at place (conns self.old))).sent) }
        ensures told { OnOk result (tells self.old (hears tuple.now ∷ []) self.new) }
        ensures lost { OnErr result (conns self.new ≡ without place (conns self.old)) };

    /// The time comes to each connection in turn, which does what is asked of all. What is sent goes behind the datagrams
    /// that are there. Who is over stays for now.
    fn reach_all(
        &mut self,
        alloc: Global,
        measures: Measures,
        now: u64,
        out: &mut Vec<Datagram>,
    ) -> Result<(), AllocError>
        requires good { good self.old }
        requires time { now ≤ last_time }
        ensures good { good self.new }
        ensures table { OnOk result (conns self.new ≡ all_reached measures now (conns self.old)) }
        ensures sent { OnOk result (out.new.items ≡ out.old.items ++ flat_map (λ c. sent_by c.0 (ticked measures now c.1)) (conns self.old)) }
        ensures wrote { OnErr result (HasSent out.old.items out.new.items (flat_map (λ c. sent_by c.0 (ticked measures now c.1)) (conns self.old))) }
        ensures told { OnOk result (tells self.old (map hears (keys_of (conns self.old))) self.new) }
        ensures lost { OnErr result (spoils measures now (conns self.old) (conns self.new)) };

    /// All leave that are over.
    fn drop_over(&mut self, alloc: Global)
        requires good { good self.old }
        ensures good { good self.new }
        ensures told { tells self.old [] self.new }
        ensures table { conns self.new ≡ without_over (conns self.old) };

    /// All leave that are to leave at a tick.
    fn drop_leaving(&mut self, alloc: Global, setting: &Setting, now: u64)
        requires good { good self.old }
        ensures good { good self.new }
        ensures told { tells self.old [] self.new }
        ensures table { conns self.new ≡ without_leaving setting.now now (conns self.old) };

    // Between a moment and itself nothing is told, and what is told later comes behind.
    ghost tells_nothing: { (a : Self) → tells a [] a };

    ghost tells_on: { (a b c : Self) (first then : List Told) → tells a first b → tells b then c → tells a (first ++ then) c };
}
