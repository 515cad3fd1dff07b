//! The report, written in pieces, so that it is never whole in memory.
//!
//! All memory that it needs is taken as a `DatagramRoom` before its first byte is written; from there on only a write can fail.

ghost use Rattle.std.specs.Prelude.{◌≤◌, vec_capacity};
ghost use Rattle.sq_base.specs.Ends.{end_of};
ghost use Rattle.segment_codec.specs.Datagrams.{most_datagram};
ghost use Rattle.shell.specs.Telling.{WritesAll};
ghost use Rattle.datagram_services.specs.MoreText.{plan_text};
ghost use Rattle.datagram_services.specs.Served.{IsMoreServed};

use crate::reporting::push_report;
use crate::served::MoreServed;
use segment_codec::MOST_DATAGRAM;
use sq_base::{Failed, Sink};
use std::alloc::{AllocError, Global};
use stream_plan::MorePlan;
use text_digits::Pieces;

/// How many bytes a piece has.
const PIECE: usize = 65_536;

/// The memory that a report needs while it is written.
#[derive(Drop)]
pub struct DatagramRoom {
    piece: Vec<u8>,
    datagram: Vec<u8>,
    ghost datagrams: { most_datagram ≤ vec_capacity datagram },
}

impl DatagramRoom {
    /// Takes it.
    pub fn make(alloc: Global) -> Result<DatagramRoom, AllocError> {
        let mut piece = Vec::with_capacity(alloc, PIECE)?;
        piece.resize(PIECE, 0)?;
        Ok(DatagramRoom {
            piece,
            datagram: Vec::with_capacity(alloc, MOST_DATAGRAM)?,
        })
    }
}

/// Writes the report of what was served of the plan.
pub fn write_more<K: Sink>(
    out: &mut K,
    room: DatagramRoom,
    plan: &MorePlan<'_>,
    served: &MoreServed,
) -> Result<(), Failed>
    requires { IsMoreServed plan.now served.now.streams }
    ensures { WritesAll result (end_of K.contents K.write_faults out.old out.new) (plan_text plan.now) }
{
    let DatagramRoom {
        piece,
        mut datagram,
    } = room;
    let mut text = Pieces::over(out, piece);
    match push_report(&mut text, &mut datagram, plan, served) {
        Ok(()) => {}
        Err(never) => match never {},
    }
    let (sink, wrote) = text.finish();
    // No effect at run time. The proof reads what `out` holds from this use.
    let _ = &*sink;
    wrote
}
