//! Reports that are written in pieces, so that no report is ever whole in memory.
//!
//! All memory that a report needs is taken as a `Room` before its first byte is written; from there on only a write can fail.

ghost use Rattle.std.specs.Prelude.{◌≡◌, ◌≤◌, length, map, vec_capacity};
ghost use Rattle.sq_base.specs.Ends.{end_of};
ghost use Rattle.segment_codec.specs.Datagrams.{most_datagram};
ghost use Rattle.squeue_state.specs.Told.{marks_of};
ghost use Rattle.conn_blocks.specs.CallLists.{CallLists};
ghost use Rattle.conn_blocks.specs.ServedBlocks.{AreServed};
ghost use Rattle.squeue_report.specs.Countable.{AreCountable};
ghost use Rattle.report_lines.specs.ReportText.{report_text};
ghost use Rattle.report_lines.specs.TraceText.{trace_text};
ghost use Rattle.squeue_report.specs.Written.{IsWritten};

use crate::reporting::push_report;
use crate::tracing::push_report2;
use conn_blocks::Calls;
use conn_classifier::{Plan, Rules};
use ring_quotas::Setup;
use ring_threads::Served;
use segment_codec::MOST_DATAGRAM;
use sq_base::{Failed, Sink};
use std::alloc::{AllocError, Global};
use text_digits::Pieces;

/// How many bytes a piece has.
const PIECE: usize = 65_536;

/// The memory that a report needs while it is written.
#[derive(Drop)]
pub struct Room {
    piece: Vec<u8>,
    datagram: Vec<u8>,
    ghost datagrams: { most_datagram ≤ vec_capacity datagram },
}

impl Room {
    /// Takes it.
    pub fn make(alloc: Global) -> Result<Room, AllocError> {
        let mut piece = Vec::with_capacity(alloc, PIECE)?;
        piece.resize(PIECE, 0)?;
        Ok(Room {
            piece,
            datagram: Vec::with_capacity(alloc, MOST_DATAGRAM)?,
        })
    }
}

/// Writes the report of what was served.
pub fn write_report<K: Sink>(
    out: &mut K,
    room: Room,
    plan: &Plan,
    served: &Served,
) -> Result<(), Failed>
    requires { length served.now.blocks ≡ length plan.now.tuples }
    ensures { IsWritten (λ text. (calls : CallLists) → AreServed plan.now calls served.now.blocks
        → text ≡ report_text plan.now calls (map (λ b. b.order) served.now.blocks)) (end_of K.contents K.write_faults out.old out.new) result }
{
    let Room {
        piece,
        mut datagram,
    } = room;
    let mut text = Pieces::over(out, piece);
    match push_report(&mut text, &mut datagram, plan, served) {
        Ok(()) => {}
        Err(never) => match never {},
    }
    let (sink, wrote) = text.finish();
    // No effect at run time. The proof reads what `out` holds from this use.
    let _ = &*sink;
    wrote
}

/// Writes it with the setup, the rules that the plan was made by, the calls, and the marks of each squeue.
pub fn write_report2<K: Sink>(
    out: &mut K,
    room: Room,
    plan: &Plan,
    calls: &Calls,
    setup: &Setup,
    rules: Rules,
    served: &Served,
) -> Result<(), Failed>
    requires blocks { length served.now.blocks ≡ length plan.now.tuples }
    requires traces { length served.now.traces ≡ setup.now.squeues }
    requires countable { AreCountable served.now.traces }
    ensures { IsWritten (λ text. AreServed plan.now calls.now served.now.blocks
        → text ≡ trace_text plan.now calls.now setup.now rules (map (λ b. b.order) served.now.blocks) (map marks_of served.now.traces))
        (end_of K.contents K.write_faults out.old out.new) result }
{
    let Room {
        piece,
        mut datagram,
    } = room;
    let mut text = Pieces::over(out, piece);
    match push_report2(&mut text, &mut datagram, plan, calls, setup, rules, served) {
        Ok(()) => {}
        Err(never) => match never {},
    }
    let (sink, wrote) = text.finish();
    // No effect at run time. The proof reads what `out` holds from this use.
    let _ = &*sink;
    wrote
}
