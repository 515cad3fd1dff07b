//! The table of one thread: a map in order, and who leaves it.

ghost use Rattle.std.specs.Prelude.{◌≡◌, ℕ, ◌++◌, ◌<◌, ◌≤◌, length, option_map, slice_get, true, Some, IfOk, OnErr, OnOk};
ghost use Rattle.std.specs.List.{flat_map};
ghost use Rattle.tcb_machine.specs.BlockState.{held_in};
ghost use Rattle.tcb_machine.specs.Limits.{last_time};
ghost use Rattle.live_server.specs.Acts.{is_over, meets, sent_by, ticked};
ghost use Rattle.live_server.specs.Leaving.{peer_of, without_leaving};
ghost use Rattle.live_server.specs.PathMtu.{shortens};
ghost use Rattle.live_server.specs.Serving.{is_waiting};
ghost use Rattle.live_server.specs.Unreached.{reported};
ghost use Rattle.live_server.specs.Urgent.{urges};
ghost use Rattle.live_server.specs.Table.{all_reached, conn_at, held_by, place_of, reached_until, replaced, settled, without, without_over, IsNew};
ghost use Rattle.live_server.specs.Written.{HasSent};
ghost use Rattle.live_server.specs.declared.conn.Met.TheVariants.{Gone};
ghost use Rattle.sq_base.specs.declared.kinds.Tuple.{Tuple};

use crate::acting::Datagram;
use crate::conn::{Conn, Met};
use crate::conn_table::ConnTable;
use crate::crowding::Peer;
use crate::measures::Measures;
use crate::setting::Setting;
use crate::unreached::Reported;
use indexmap::IndexMap;
use segment_codec::Seg;
use sq_base::Tuple;
use std::alloc::{AllocError, Global};

/// Connections by their two ends.
pub type Table = IndexMap<Tuple, Conn>;

impl ConnTable for Table {
    ghost use Rattle.std.specs.Prelude.{◌≡◌, ℕ, ◌<◌, length};
    ghost use Rattle.live_server.specs.Table.{reached_until, without};

    ghost conns = { λ m. m.entries };

    ghost good = { λ _. Unit {0} };

    // The connection at which memory was missing left, and those behind it are as they were.
    ghost spoils = { λ measures now was is. (i : ℕ) × (i < length was) × (is ≡ without i (reached_until measures now i was)) };

    // A map alone tells nobody.
    ghost tells = { λ _ _ _. Unit {0} };

    fn len(&self) -> usize {
        self.len()
    }

    fn find(&self, ends: &Tuple) -> Option<usize> {
        self.get_index_of(ends)
    }

    fn is_waiting_at(&self, place: usize, number: u64) -> bool {
        is_waiting_at(self, place, number)
    }

    fn reported_at(&self, place: usize, seq: u32) -> Reported {
        reported_at(self, place, seq)
    }

    fn peer_at(&self, place: usize) -> Peer {
        peer_at(self, place)
    }

    fn held(&self) -> u64 {
        held_by(self)
    }

    fn insert(&mut self, alloc: Global, ends: Tuple, conn: Conn) -> Result<(), AllocError> {
        self.insert(ends, conn)?;
        Ok(())
    }

    fn leave(&mut self, alloc: Global, place: usize) {
        leave(self, place);
    }

    fn meet(
        &mut self,
        place: usize,
        alloc: Global,
        now: u64,
        iss: u32,
        seg: &Seg,
        text: &[u8],
        tuple: &Tuple,
        out: &mut Vec<Datagram>,
    ) -> Result<Met, AllocError> {
        meet_at(self, place, alloc, now, iss, seg, text, tuple, out)
    }

    fn shorten(
        &mut self,
        place: usize,
        alloc: Global,
        seq: u32,
        most: u16,
        tuple: &Tuple,
        out: &mut Vec<Datagram>,
    ) -> Result<Met, AllocError> {
        shorten_at(self, place, alloc, seq, most, tuple, out)
    }

    fn urge(
        &mut self,
        place: usize,
        alloc: Global,
        now: u64,
        pointer: u16,
        seg: &Seg,
        tuple: &Tuple,
        out: &mut Vec<Datagram>,
    ) -> Result<Met, AllocError> {
        urge_at(self, place, alloc, now, pointer, seg, tuple, out)
    }

    fn reach_all(
        &mut self,
        alloc: Global,
        measures: Measures,
        now: u64,
        out: &mut Vec<Datagram>,
    ) -> Result<(), AllocError> {
        reach_all(self, alloc, measures, now, out)
    }

    fn drop_over(&mut self, alloc: Global) {
        drop_over(self);
    }

    fn drop_leaving(&mut self, alloc: Global, setting: &Setting, now: u64) {
        drop_leaving(self, setting, now);
    }

    ghost tells_nothing = { λ a. tt };

    ghost tells_on = { λ a b c first then told more. tt };
}

/// The connection at a place leaves; the last one takes its place.
#[tactic(auto, unfolding(crate::specs::Table::without))]
fn leave(table: &mut Table, place: usize)
    ensures table { table.new.entries ≡ without place table.old.entries }
    ensures gone { (t : Tuple) → place_of t table.old.entries ≡ Some place → IsNew t table.new.entries }
{
    table.swap_remove_index(place);
}

/// The connection at a place leaves where it is over.
#[tactic(auto, unfolding(crate::specs::Table::settled))]
fn settle(table: &mut Table, place: usize)
    ensures table { table.new.entries ≡ settled place table.old.entries }
    ensures gone { (t : Tuple) → is_over (conn_at place table.old.entries) ≡ true → place_of t table.old.entries ≡ Some place → IsNew t table.new.entries }
{
    if is_over_at(table, place) {
        leave(table, place);
    }
}

fn is_over_at(table: &Table, place: usize) -> bool
    ensures { result ≡ is_over (conn_at place table.now.entries) }
{
    match table.get_index(place) {
        Some((_, conn)) => conn.is_over(),
        None => true,
    }
}

/// Whether the connection at a place is half open, and the one that was opened with a number.
fn is_waiting_at(table: &Table, place: usize, number: u64) -> bool
    ensures { result ≡ is_waiting number (conn_at place table.now.entries) }
{
    match table.get_index(place) {
        Some((_, conn)) => conn.is_half_open() && conn.number == number,
        None => false,
    }
}

/// What a message is to the connection at a place that the segment with a number didn't arrive.
fn reported_at(table: &Table, place: usize, seq: u32) -> Reported
    requires { place < length table.now.entries }
    ensures { result ≡ reported seq (conn_at place table.now.entries) }
{
    let Some((_, conn)) = table.get_index(place) else {
        unreachable!()
    };
    conn.facts().reported(seq)
}

/// Whose the connection at a place is, and when something came from it last.
fn peer_at(table: &Table, place: usize) -> Peer
    requires { place < length table.now.entries }
    ensures { Some result ≡ option_map peer_of (slice_get table.now.entries place) }
{
    let Some((tuple, conn)) = table.get_index(place) else {
        unreachable!()
    };
    Peer {
        address: tuple.client,
        heard: conn.heard,
    }
}

/// All leave that are over.
fn drop_over(table: &mut Table)
    ensures { table.new.entries ≡ without_over table.old.entries }
{
    table.retain(|_, conn| !conn.is_over());
}

/// All leave that are to leave at a tick.
fn drop_leaving(table: &mut Table, setting: &Setting, now: u64)
    ensures table { table.new.entries ≡ without_leaving setting.now now table.old.entries }
    ensures fewer { length table.new.entries ≤ length table.old.entries }
{
    let taken = table.len();
    table.retain(|_, conn| !conn.facts().is_leaving(setting, now, taken));
}

/// How many bytes all hold.
fn held_by(table: &Table) -> u64
    ensures { result ≡ held_by table.now.entries }
{
    let mut total = 0u64;
    for place in 0..table.len() {
        total = total.saturating_add(held_at(table, place));
    }
    total
}

fn held_at(table: &Table, place: usize) -> u64
    ensures { result ≡ held_in (conn_at place table.now.entries).tcb }
{
    match table.get_index(place) {
        Some((_, conn)) => conn.tcb.held(),
        None => 0,
    }
}

/// The time comes to each connection in turn, which does what is asked of all. What is sent goes behind the datagrams
/// that are there. The connection at which memory is missing leaves, and those behind it are as they were.
fn reach_all(
    table: &mut Table,
    alloc: Global,
    measures: Measures,
    now: u64,
    out: &mut Vec<Datagram>,
) -> Result<(), AllocError>
    requires { now ≤ last_time }
    ensures table { OnOk result (table.new.entries ≡ all_reached measures now table.old.entries) }
    ensures sent { OnOk result (out.new.items ≡ out.old.items ++ flat_map (λ c. sent_by c.0 (ticked measures now c.1)) table.old.entries) }
    ensures wrote { OnErr result (HasSent out.old.items out.new.items (flat_map (λ c. sent_by c.0 (ticked measures now c.1)) table.old.entries)) }
    ensures lost { OnErr result ((i : ℕ) × (i < length table.old.entries) × (table.new.entries ≡ without i (reached_until measures now i table.old.entries))) }
{
    for place in 0..table.len() {
        let (tuple, conn) = table.pair_mut(place);
        if let Err(error) = conn.tick(alloc, measures, now, tuple, out) {
            leave(table, place);
            return Err(error);
        }
    }
    Ok(())
}

/// A segment comes to the connection at a place, behind the time. The connection leaves where it is over, or where memory is missing.
/// The answer says what became of the segment.
#[tactic(auto, unfolding(crate::specs::Table::replaced))]
fn meet_at(
    table: &mut Table,
    place: usize,
    alloc: Global,
    now: u64,
    iss: u32,
    seg: &Seg,
    text: &[u8],
    tuple: &Tuple,
    out: &mut Vec<Datagram>,
) -> Result<Met, AllocError>
    requires time { now ≤ last_time }
    requires place { place_of tuple.now table.old.entries ≡ Some place }
    ensures met { IfOk result (λ m. m ≡ (meets now iss seg.now text.now tuple.now (conn_at place table.old.entries)).met) }
    ensures table { OnOk result (table.new.entries ≡ replaced place
        (meets now iss seg.now text.now tuple.now (conn_at place table.old.entries)).conn table.old.entries) }
    ensures sent { OnOk result (out.new.items ≡ out.old.items
        ++ (meets now iss seg.now text.now tuple.now (conn_at place table.old.entries)).sent) }
    ensures wrote { OnErr result (HasSent out.old.items out.new.items (meets now iss seg.now text.now tuple.now (conn_at place table.old.entries)).sent) }
    ensures gone { IfOk result (λ m. m ≡ Gone → IsNew tuple.now table.new.entries) }
    ensures lost { OnErr result (table.new.entries ≡ without place table.old.entries) }
{
    let (_, conn) = table.pair_mut(place);
    match conn.meet(alloc, now, iss, seg, text, tuple, out) {
        Ok(met) => {
            settle(table, place);
            Ok(met)
        }
        Err(error) => {
            leave(table, place);
            Err(error)
        }
    }
}

/// A router says to the connection at a place that a segment was dropped as too long. The connection leaves where it is over, or where memory
/// is missing. The answer says whether it was heeded.
#[tactic(auto, unfolding(crate::specs::Table::replaced))]
fn shorten_at(
    table: &mut Table,
    place: usize,
    alloc: Global,
    seq: u32,
    most: u16,
    tuple: &Tuple,
    out: &mut Vec<Datagram>,
) -> Result<Met, AllocError>
    requires { place_of tuple.now table.old.entries ≡ Some place }
    ensures met { IfOk result (λ m. m ≡ (shortens seq most tuple.now (conn_at place table.old.entries)).met) }
    ensures table { OnOk result (table.new.entries ≡ replaced place
        (shortens seq most tuple.now (conn_at place table.old.entries)).conn table.old.entries) }
    ensures sent { OnOk result (out.new.items ≡ out.old.items
        ++ (shortens seq most tuple.now (conn_at place table.old.entries)).sent) }
    ensures wrote { OnErr result (HasSent out.old.items out.new.items (shortens seq most tuple.now (conn_at place table.old.entries)).sent) }
    ensures lost { OnErr result (table.new.entries ≡ without place table.old.entries) }
{
    let (_, conn) = table.pair_mut(place);
    match conn.shorten(alloc, seq, most, tuple, out) {
        Ok(met) => {
            settle(table, place);
            Ok(met)
        }
        Err(error) => {
            leave(table, place);
            Err(error)
        }
    }
}

/// A segment with URG says to the connection at a place where urgent data ends. The connection leaves where it is over, or where memory is missing.
/// The answer says whether it is news.
#[tactic(auto, unfolding(crate::specs::Table::replaced))]
fn urge_at(
    table: &mut Table,
    place: usize,
    alloc: Global,
    now: u64,
    pointer: u16,
    seg: &Seg,
    tuple: &Tuple,
    out: &mut Vec<Datagram>,
) -> Result<Met, AllocError>
    requires { place_of tuple.now table.old.entries ≡ Some place }
    ensures met { IfOk result (λ m. m ≡ (urges now pointer seg.now tuple.now (conn_at place table.old.entries)).met) }
    ensures table { OnOk result (table.new.entries ≡ replaced place
        (urges now pointer seg.now tuple.now (conn_at place table.old.entries)).conn table.old.entries) }
    ensures sent { OnOk result (out.new.items ≡ out.old.items
        ++ (urges now pointer seg.now tuple.now (conn_at place table.old.entries)).sent) }
    ensures wrote { OnErr result (HasSent out.old.items out.new.items (urges now pointer seg.now tuple.now (conn_at place table.old.entries)).sent) }
    ensures lost { OnErr result (table.new.entries ≡ without place table.old.entries) }
{
    let (_, conn) = table.pair_mut(place);
    match conn.urge(alloc, now, pointer, seg, tuple, out) {
        Ok(met) => {
            settle(table, place);
            Ok(met)
        }
        Err(error) => {
            leave(table, place);
            Err(error)
        }
    }
}
