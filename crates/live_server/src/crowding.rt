//! One address that keeps others out of a full table: who was turned away, and which connection leaves for them.
//!
//! An address may lose a connection where it has more than a quarter of all, and somebody of another address was turned away. There are three
//! such addresses at most. They are found in one pass and without memory, by the candidates of J. Misra and D. Gries, "Finding repeated
//! elements", Science of Computer Programming 2 (1982).

ghost use Rattle.std.specs.Prelude.{◌≡◌, ℕ, ◌+◌, ◌-◌, ◌*◌, ◌^◌, ◌≤◌, ◌<◌, ◌&&◌, ◌||◌, ◌==◌, nat_le, nat_lt, not, true, Some, if◌then◌else◌, length, position};
ghost use Rattle.std.specs.List.{list_all};
ghost use Rattle.std.specs.Option.{option_map_or};
ghost use Rattle.sq_base.specs.declared.kinds.Tuple.{Tuple};
ghost use Rattle.live_server.specs.Candidates.{crowds, has, total, weight};
ghost use Rattle.live_server.specs.Leaving.{and_turned, blamed, is_crowding, keeps_out, share, shed_place};
ghost use Rattle.live_server.specs.declared.conn.Conn.{Conn};

use crate::conn_table::ConnTable;
use sq_base::Addr;

/// Who found no place since the time last came to all.
#[derive(Clone, Copy)]
pub enum TurnedAway {
    Nobody,
    /// Connections of this address alone.
    One(Addr),
    /// Connections of two addresses at least.
    Several,
}

impl TurnedAway {
    /// The same with one of this address more.
    pub(crate) fn and(self, address: Addr) -> TurnedAway
        ensures { result ≡ and_turned address self }
    {
        match self {
            TurnedAway::Nobody => TurnedAway::One(address),
            TurnedAway::One(other) if other.0 == address.0 => self,
            _ => TurnedAway::Several,
        }
    }

    /// Whether somebody of another address was turned away.
    fn keeps_out(self, address: Addr) -> bool
        ensures { result ≡ keeps_out self address.0 }
    {
        match self {
            TurnedAway::Nobody => false,
            TurnedAway::One(other) => other.0 != address.0,
            TurnedAway::Several => true,
        }
    }
}

/// What a table tells of the connection at a place.
#[derive(Clone, Copy)]
pub struct Peer {
    /// The address of its client.
    pub address: Addr,
    /// When the last segment came from it that wasn't dropped, in microseconds.
    pub heard: u64,
}

/// An address, and how much speaks for it.
#[derive(Clone, Copy)]
struct Candidate {
    address: Addr,
    weight: usize,
}

impl Candidate {
    /// Whether it stands for an address, or may: one that no candidate is.
    fn takes(&self, address: Addr, is_new: bool) -> bool
        ensures { result ≡ ((self.now.address.0 == address.0) || (is_new && (self.now.weight == 0))) }
    {
        self.address.0 == address.0 || (is_new && self.weight == 0)
    }

    /// One more speaks for this address.
    fn more(&self, address: Addr) -> Candidate
        requires { self.now.weight + 1 < 2 ^ 64 }
        ensures { result ≡ record { address = address; weight = self.now.weight + 1 } }
    {
        Candidate {
            address,
            weight: self.weight + 1,
        }
    }

    /// One less speaks for its address.
    fn less(&self) -> Candidate
        ensures { result ≡ record { address = self.now.address; weight = self.now.weight - 1 } }
    {
        Candidate {
            address: self.address,
            weight: self.weight.saturating_sub(1),
        }
    }
}

/// Three candidates. One whose weight is 0 may come to stand for any other address.
#[derive(Clone, Copy)]
struct Candidates {
    first: Candidate,
    second: Candidate,
    third: Candidate,
}

impl Candidates {
    /// What speaks for an address.
    fn weight(&self, address: Addr) -> usize
        ensures { result ≡ weight address.0 self.now }
    {
        if self.first.address.0 == address.0 {
            self.first.weight
        } else if self.second.address.0 == address.0 {
            self.second.weight
        } else if self.third.address.0 == address.0 {
            self.third.weight
        } else {
            0
        }
    }

    fn has(&self, address: Addr) -> bool
        ensures { result ≡ has address.0 self.now }
    {
        self.first.address.0 == address.0
            || self.second.address.0 == address.0
            || self.third.address.0 == address.0
    }

    /// One connection speaks for its address. Where three others have somebody who speaks for them, each of these loses one: so four of
    /// four addresses go at once, and an address with more than a quarter of all has somebody left.
    fn speak(&self, address: Addr) -> Candidates
        requires { total self.now + 1 < 2 ^ 64 }
        ensures kept { (a : ℕ) → 4 * (if address.0 == a then 1 else 0) + (total result + 4 * weight a self.now) ≤ 4 * weight a result + (total self.now + 1) }
        ensures more { total result ≤ total self.now + 1 }
    {
        let is_new = !self.has(address);
        if self.first.takes(address, is_new) {
            Candidates {
                first: self.first.more(address),
                ..*self
            }
        } else if self.second.takes(address, is_new) {
            Candidates {
                second: self.second.more(address),
                ..*self
            }
        } else if self.third.takes(address, is_new) {
            Candidates {
                third: self.third.more(address),
                ..*self
            }
        } else {
            Candidates {
                first: self.first.less(),
                second: self.second.less(),
                third: self.third.less(),
            }
        }
    }
}

/// Three addresses, among them each that has more than a quarter of all connections.
fn find_candidates<T: ConnTable>(table: &T) -> Candidates
    requires good { T.good table.now }
    ensures { (a : ℕ) → length (T.conns table.now) < 4 * share a (T.conns table.now) → has a result ≡ true }
{
    let nobody = Candidate {
        address: Addr(0),
        weight: 0,
    };
    let mut found = Candidates {
        first: nobody,
        second: nobody,
        third: nobody,
    };
    for place in 0..table.len() {
        found = found.speak(table.peer_at(place).address);
    }
    found
}

/// How many connections count against an address.
fn blamed<T: ConnTable>(table: &T, turned: TurnedAway, address: Addr) -> usize
    requires good { T.good table.now }
    ensures { result ≡ blamed turned (T.conns table.now) address.0 }
{
    if !turned.keeps_out(address) {
        return 0;
    }
    share(table, address)
}

/// How many connections an address has.
fn share<T: ConnTable>(table: &T, address: Addr) -> usize
    requires good { T.good table.now }
    ensures share { result ≡ share address.0 (T.conns table.now) }
    ensures bounded { result ≤ length (T.conns table.now) }
{
    let mut count = 0;
    for place in 0..table.len() {
        count += usize::from(table.peer_at(place).address.0 == address.0);
    }
    count
}

/// The addresses that crowd a table: of the candidates those for whom the most speak.
#[derive(Clone, Copy)]
struct Crowders {
    candidates: Candidates,
    /// How many these are, or 0 where no address crowds it.
    most: usize,
}

impl Crowders {
    fn has(&self, address: Addr) -> bool
        ensures { result ≡ crowds address.0 self.now }
    {
        self.most > 0 && self.candidates.weight(address) == self.most
    }
}

/// Who crowds a table.
fn find_crowders<T: ConnTable>(table: &T, turned: TurnedAway) -> Crowders
    requires good { T.good table.now }
    ensures { (c : Tuple × Conn) → crowds c.0.client.0 result ≡ is_crowding turned (T.conns table.now) c }
{
    let found = find_candidates(table);
    let candidates = Candidates {
        first: judged(table, turned, found.first),
        second: judged(table, turned, found.second),
        third: judged(table, turned, found.third),
    };
    let most = candidates
        .first
        .weight
        .max(candidates.second.weight)
        .max(candidates.third.weight);
    Crowders {
        candidates,
        most: if_crowding(most, table.len()),
    }
}

/// So many connections of one address, or 0 where that is no more than a quarter of all.
fn if_crowding(count: usize, all: usize) -> usize
    ensures { result ≡ (if nat_lt all (4 * count) then count else 0) }
{
    if count > all / 4 { count } else { 0 }
}

/// A candidate with all that count against it.
fn judged<T: ConnTable>(table: &T, turned: TurnedAway, candidate: Candidate) -> Candidate
    requires good { T.good table.now }
    ensures { result ≡ record { address = candidate.address; weight = blamed turned (T.conns table.now) candidate.address.0 } }
{
    Candidate {
        weight: blamed(table, turned, candidate.address),
        ..candidate
    }
}

/// The place of the connection that leaves a full table for somebody who was turned away.
pub(crate) fn shed_place<T: ConnTable>(table: &T, turned: TurnedAway) -> Option<usize>
    requires good { T.good table.now }
    ensures { result ≡ shed_place turned (T.conns table.now) }
{
    longest_silent(table, &find_crowders(table, turned))
}

/// Of the connections of these addresses the one that was silent the longest, and the first one of such.
fn longest_silent<T: ConnTable>(table: &T, crowders: &Crowders) -> Option<usize>
    requires good { T.good table.now }
    ensures { result ≡ position (λ c. crowds c.0.client.0 crowders.now
        && list_all (λ d. not (crowds d.0.client.0 crowders.now) || nat_le c.1.heard d.1.heard) (T.conns table.now)) (T.conns table.now) }
{
    let mut found = None;
    for place in 0..table.len() {
        found = next_found(crowders, found, place, &table.peer_at(place));
    }
    let (place, _) = found?;
    Some(place)
}

/// The place that was found, and when something came from the connection there last: this one, where its address is one of these, and nothing
/// came from it since before that.
fn next_found(
    crowders: &Crowders,
    found: Option<(usize, u64)>,
    place: usize,
    peer: &Peer,
) -> Option<(usize, u64)>
    ensures { result ≡ (if crowds peer.now.address.0 crowders.now && option_map_or (λ f. nat_lt peer.now.heard f.1) found true then Some (place, peer.now.heard) else found) }
{
    if crowders.has(peer.address) && is_earlier(&found, peer.heard) {
        Some((place, peer.heard))
    } else {
        found
    }
}

/// Whether a moment is before the one that was found, where one was.
fn is_earlier(found: &Option<(usize, u64)>, heard: u64) -> bool
    ensures { result ≡ option_map_or (λ f. nat_lt heard f.1) found.now true }
{
    match found {
        Some((_, earliest)) => heard < *earliest,
        None => true,
    }
}
