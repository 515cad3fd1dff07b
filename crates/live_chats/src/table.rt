//! A table of connections for the rules of a server, whose connections are chats at the places of one pass.

ghost use Rattle.turn_gate.specs.declared.pass.Pass.{Pass};
ghost use Rattle.perimeter_core.specs.History.{Element};

use crate::chat::Chat;
use crate::chats::Chats;
use crate::item::ChatItem;
use crate::line::Line;
use crate::reaching::reach_each;
use crate::seats::{Table, leave_all, meet_at, seat_new, vacate};
use crate::{asking, leaving};
use indexmap::IndexMap;
use live_server::{Conn, ConnTable, Datagram, Measures, Met, Peer, Reported, Setting};
use perimeter_core::Resident;
use placed_parts::Places;
use segment_codec::Seg;
use sq_base::Tuple;
use squeue_serve::{put_pass, take_pass};
use squeue_state::{Pass, Squeue};
use squeue_streams::{SourcePace, Streams};
use std::alloc::{AllocError, Global};
use std::collections::VecDeque;
use std::marker::{Brand, PhantomData};
use std::sync::Wait;
use stream_stays::Stays;

/// Which passes may be closed, for contracts alone. A caller passes `Brand` and picks it.
pub trait Closes {
    ghost closes: { Pass Element → Type 0 };
}

impl Closes for Brand {
    ghost closes = { λ _. Unit {0} };
}

/// A table of connections, each of which is a chat at a place of one pass of a squeue. Each call tells chats what comes, settles at an Ask of
/// the pass, and looks at their answers: so between two calls nothing is under way. Where the squeue is full it waits.
pub struct Seats<'q, R: Resident, W: Wait, N: Closes> {
    line: Line<'q, R, W>,
    /// The pass, which is there between two calls.
    pass: Option<Pass>,
    stays: Stays<ChatItem, Chat>,
    seats: Table,
    /// Places that are free, longest first.
    free: VecDeque<u32>,
    closes: PhantomData<N>,
}

impl<'q, H: Wait + Drop, W: Wait, N: Closes> Seats<'q, Places<Streams<Chats, H>>, W, N> {
    ghost use Rattle.std.specs.Prelude.{◌≡◌, []};
    ghost use Rattle.turn_gate.specs.Passes.{number};
    ghost use Rattle.placed_parts.specs.Placing.{limits_of, origin_of};
    ghost use Rattle.squeue_serve.specs.Places.{MayClose};
    ghost use Rattle.stream_stays.specs.Places.{Knows, chain_of, touched_of};
    ghost use Rattle.turn_gate.specs.Passes.{seen};
    ghost use Rattle.squeue_state.specs.Naming.{setting_of};
    ghost use Rattle.live_chats.specs.Accounts.{WereTold, accounts_of, number_in, seen_in};
    ghost use Rattle.live_chats.specs.Seating.{IsGood, conns_of};
    ghost use Rattle.live_chats.specs.Telling.{IsFirst, Tells};

    /// A table without connections, over the places of a pass at which no part is. `free` are the places that it may open.
    pub fn begin(
        rt: &'q W,
        squeue: &'q Squeue<Places<Streams<Chats, H>>>,
        alloc: Global,
        pass: Pass,
        stays: Stays<ChatItem, Chat>,
        free: VecDeque<u32>,
        pace: SourcePace,
    ) -> Self
        requires knows { Knows IsFirst Tells limits_of squeue.now (origin_of squeue.now.given.first) pass stays }
        requires none { (chain_of stays ≡ []) × (touched_of stays ≡ []) }
        requires closes { (q : Pass Element) → MayClose limits_of squeue.now q → number q ≡ number pass → N.closes q }
        ensures good { IsGood limits_of result.line.squeue.now (origin_of result.line.squeue.now.given.first)
            N.closes result.pass result.stays result.seats.entries }
        ensures conns { conns_of result.stays result.seats.entries ≡ [] }
        ensures squeue { result.line.squeue.now ≡ squeue.now }
        ensures pass { (number_in result.pass ≡ number pass) × (seen_in result.pass ≡ seen pass) }
        ensures accounts { accounts_of result.stays result.seats.entries ≡ [] }
    {
        Seats {
            line: Line { rt, squeue, pace },
            pass: Some(pass),
            stays,
            seats: IndexMap::new(alloc),
            free,
            closes: PhantomData,
        }
    }

    /// All connections leave, each of whose places is closed, and the table ends.
    pub fn end(self, alloc: Global) -> Pass
        requires { IsGood limits_of self.line.squeue.now (origin_of self.line.squeue.now.given.first) N.closes self.pass self.stays self.seats.entries }
        ensures closes { N.closes result }
        ensures number { number result ≡ number_in self.entry.pass }
        ensures told { WereTold (setting_of limits_of self.entry.line.squeue.now.given) (number result) (seen_in self.entry.pass) (seen result)
            (accounts_of self.entry.stays self.entry.seats.entries) [] [] }
    {
        let Seats {
            line,
            pass,
            mut stays,
            mut seats,
            mut free,
            closes: _,
        } = self;
        let Some(pass) = pass else { unreachable!() };
        let pass = leave_all(&line, alloc, pass, &mut stays, &mut seats, &mut free);
        let Line {
            rt: _,
            squeue: _,
            pace: _,
        } = line;
        pass
    }
}

impl<'q, H: Wait + Drop, W: Wait, N: Closes> ConnTable
    for Seats<'q, Places<Streams<Chats, H>>, W, N> {
    ghost use Rattle.std.specs.Prelude.{◌≡◌};
    ghost use Rattle.std.proofs.Common.{◌∙◌, ap, refl};
    ghost use Rattle.placed_parts.specs.Placing.{limits_of, origin_of};
    ghost use Rattle.squeue_state.specs.Naming.{setting_of};
    ghost use Rattle.live_chats.specs.Accounts.{WereTold, accounts_of, number_in, seen_in};
    ghost use Rattle.live_chats.specs.Onward.{same_pass_on, untold};
    ghost use Rattle.live_chats.specs.Seating.{IsGood, Spoils, conns_of};

    ghost conns = { λ s. conns_of s.stays s.seats.entries };

    ghost good = { λ s. IsGood limits_of s.line.squeue.now (origin_of s.line.squeue.now.given.first) N.closes s.pass s.stays s.seats.entries };

    ghost spoils = { Spoils };

    // By the history of the pass, which goes on at the same squeue.
    ghost tells = { λ a told b. (b.line.squeue.now.given ≡ a.line.squeue.now.given) × (number_in b.pass ≡ number_in a.pass)
        × WereTold (setting_of limits_of a.line.squeue.now.given) (number_in a.pass) (seen_in a.pass) (seen_in b.pass)
        (accounts_of a.stays a.seats.entries) (accounts_of b.stays b.seats.entries) told };

    fn len(&self) -> usize {
        asking::len(&self.seats)
    }

    fn find(&self, ends: &Tuple) -> Option<usize> {
        asking::find(&self.seats, ends)
    }

    fn is_waiting_at(&self, place: usize, number: u64) -> bool {
        asking::is_waiting_at(&self.seats, place, number)
    }

    fn reported_at(&self, place: usize, seq: u32) -> Reported {
        asking::reported_at(&self.seats, place, seq)
    }

    fn peer_at(&self, place: usize) -> Peer {
        asking::peer_at(&self.seats, place)
    }

    fn held(&self) -> u64 {
        asking::held(&self.seats)
    }

    fn insert(&mut self, alloc: Global, ends: Tuple, conn: Conn) -> Result<(), AllocError> {
        let pass = take_pass(&mut self.pass);
        let (pass, put) = seat_new(
            &self.line,
            alloc,
            pass,
            &mut self.stays,
            &mut self.seats,
            &mut self.free,
            ends,
            conn,
        );
        put_pass(&mut self.pass, pass);
        put
    }

    fn leave(&mut self, alloc: Global, place: usize) {
        let pass = take_pass(&mut self.pass);
        let pass = vacate(
            &self.line,
            alloc,
            pass,
            &mut self.stays,
            &mut self.seats,
            &mut self.free,
            place,
        );
        put_pass(&mut self.pass, pass);
    }

    fn meet(
        &mut self,
        place: usize,
        alloc: Global,
        now: u64,
        iss: u32,
        seg: &Seg,
        text: &[u8],
        _tuple: &Tuple,
        out: &mut Vec<Datagram>,
    ) -> Result<Met, AllocError> {
        let Ok(text) = Vec::from_slice(alloc, text) else {
            self.leave(alloc, place);
            return Err(AllocError);
        };
        let item = ChatItem::Meets {
            now,
            iss,
            seg: *seg,
            text,
        };
        let pass = take_pass(&mut self.pass);
        let (pass, met) = meet_at(
            &self.line,
            alloc,
            pass,
            &mut self.stays,
            &mut self.seats,
            &mut self.free,
            place,
            item,
            out,
        );
        put_pass(&mut self.pass, pass);
        match met {
            Some(met) => Ok(met),
            None => Err(AllocError),
        }
    }

    fn shorten(
        &mut self,
        place: usize,
        alloc: Global,
        seq: u32,
        most: u16,
        _tuple: &Tuple,
        out: &mut Vec<Datagram>,
    ) -> Result<Met, AllocError> {
        let pass = take_pass(&mut self.pass);
        let (pass, met) = meet_at(
            &self.line,
            alloc,
            pass,
            &mut self.stays,
            &mut self.seats,
            &mut self.free,
            place,
            ChatItem::Shortens { seq, most },
            out,
        );
        put_pass(&mut self.pass, pass);
        match met {
            Some(met) => Ok(met),
            None => Err(AllocError),
        }
    }

    fn urge(
        &mut self,
        place: usize,
        alloc: Global,
        now: u64,
        pointer: u16,
        seg: &Seg,
        _tuple: &Tuple,
        out: &mut Vec<Datagram>,
    ) -> Result<Met, AllocError> {
        let item = ChatItem::Urges {
            now,
            pointer,
            seg: *seg,
        };
        let pass = take_pass(&mut self.pass);
        let (pass, met) = meet_at(
            &self.line,
            alloc,
            pass,
            &mut self.stays,
            &mut self.seats,
            &mut self.free,
            place,
            item,
            out,
        );
        put_pass(&mut self.pass, pass);
        match met {
            Some(met) => Ok(met),
            None => Err(AllocError),
        }
    }

    fn reach_all(
        &mut self,
        alloc: Global,
        measures: Measures,
        now: u64,
        out: &mut Vec<Datagram>,
    ) -> Result<(), AllocError> {
        let pass = take_pass(&mut self.pass);
        let (pass, all) = reach_each(
            &self.line,
            alloc,
            pass,
            &mut self.stays,
            &mut self.seats,
            &mut self.free,
            measures,
            now,
            out,
        );
        put_pass(&mut self.pass, pass);
        if all { Ok(()) } else { Err(AllocError) }
    }

    fn drop_over(&mut self, alloc: Global) {
        let pass = take_pass(&mut self.pass);
        let pass = leaving::drop_over(
            &self.line,
            alloc,
            pass,
            &mut self.stays,
            &mut self.seats,
            &mut self.free,
        );
        put_pass(&mut self.pass, pass);
    }

    fn drop_leaving(&mut self, alloc: Global, setting: &Setting, now: u64) {
        let pass = take_pass(&mut self.pass);
        let pass = leaving::drop_leaving(
            &self.line,
            alloc,
            pass,
            &mut self.stays,
            &mut self.seats,
            &mut self.free,
            setting,
            now,
        );
        put_pass(&mut self.pass, pass);
    }

    ghost tells_nothing = { λ a. (
      refl,
      refl,
      untold (setting_of limits_of a.line.squeue.now.given) (number_in a.pass) (seen_in a.pass)
          (accounts_of a.stays a.seats.entries),
    ) };

    ghost tells_on = { λ a b c first then told more. (
      more.0 ∙ told.0,
      more.1 ∙ told.1,
      same_pass_on (setting_of limits_of a.line.squeue.now.given) (setting_of limits_of b.line.squeue.now.given) (number_in a.pass) (number_in b.pass)
          (seen_in a.pass) (seen_in b.pass) (seen_in c.pass) (accounts_of a.stays a.seats.entries) (accounts_of b.stays b.seats.entries)
          (accounts_of c.stays c.seats.entries) first then (ap (setting_of limits_of) told.0) told.1 told.2 more.2,
    ) };
}
