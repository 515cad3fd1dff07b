//! A connection's block with the generator behind it.

ghost use Rattle.std.specs.Prelude.{◌≡◌, ◌+◌, ◌^◌, ◌≤◌, OnOk, OnErr};
ghost use Rattle.byte_queues.specs.ReceiveQueue.{next_of};
ghost use Rattle.tcb_machine.specs.BlockState.{offered};
ghost use Rattle.tcb_machine.specs.Limits.{last_time, whole_space};
ghost use Rattle.tcb_machine.specs.Room.{HasRoom};
ghost use Rattle.chargen_service.specs.Chargen.{new_generating, enters, segment, time};

use echo_services::{Chargen, serve, tick};
use segment_codec::Seg;
use std::alloc::{AllocError, Global};
use std::marker::Model;
use tcb_machine::Tcb;

/// A connection's block with the generator behind it (RFC 864).
///
/// # Example
///
/// ```
/// assert!(rt; block.tcb().clock() <= at && at < 1_000_000_000_000);
/// assert!(rt; block.tcb().has_room());
/// block.segment(alloc, at, iss, seg, text)?;
/// ```
#[derive(Drop)]
pub struct GenBlock {
    tcb: Tcb,
    /// What the generator keeps: how many bytes were offered in the block's life.
    service: Chargen,
}

impl Model for GenBlock {
    ghost use Rattle.chargen_service.specs.Chargen.{Generating};

    ghost Value = { Generating };

    ghost view = { λ g. record { block = g.tcb; given = g.service.given } };
}

impl GenBlock {
    /// A block in LISTEN, which has offered nothing. It takes no memory.
    pub fn make(alloc: Global) -> GenBlock
        ensures { result ≡ new_generating }
    {
        GenBlock {
            tcb: Tcb::make(alloc),
            service: Chargen { given: 0 },
        }
    }

    /// The connection's state, its clock, and what was sent.
    pub fn tcb(&self) -> &Tcb
        ensures { result.now ≡ self.now.block }
    {
        &self.tcb
    }

    /// A segment arrives at a time in microseconds, with its text, which lies behind the header in its datagram, and the initial
    /// sequence number that a new connection is to take. Pump and output follow where the segment lets them (RFC 9293, 3.10.7).
    /// After NoMemory the block is as new, at clock 0 and with no reply.
    #[tactic(auto, using(crate::proofs::GeneratingLemmas::followed_is))]
    pub fn segment(
        &mut self,
        alloc: Global,
        at: u64,
        iss: u32,
        seg: &Seg,
        text: &[u8],
    ) -> Result<(), AllocError>
        requires clock { self.old.block.clock ≤ at }
        requires time { at ≤ last_time }
        requires room { HasRoom self.old.block }
        ensures step { OnOk result (self.new ≡ enters (segment at iss seg.now text.now) self.old) }
        ensures clock { OnOk result (self.new.block.clock ≡ at) }
        ensures next { OnOk result (next_of self.new.block.recv ≤ next_of self.old.block.recv + whole_space) }
        ensures offered { OnOk result (offered self.new.block ≤ offered self.old.block + 2 ^ 16) }
        ensures anew { OnErr result (self.new ≡ new_generating) }
    {
        let served = serve(&mut self.service, &mut self.tcb, alloc, at, iss, seg, text);
        if served.is_err() {
            *self = GenBlock::make(alloc);
        }
        served
    }

    /// The time comes to a number of microseconds: the deadlines up to it fire (RFC 9293, 3.10.8). After NoMemory the block is as
    /// new, at clock 0 and with no reply.
    pub fn time(&mut self, alloc: Global, at: u64) -> Result<(), AllocError>
        requires clock { self.old.block.clock ≤ at }
        requires time { at ≤ last_time }
        ensures step { OnOk result (self.new ≡ enters (time at) self.old) }
        ensures clock { OnOk result (self.new.block.clock ≡ at) }
        ensures next { OnOk result (next_of self.new.block.recv ≤ next_of self.old.block.recv) }
        ensures offered { OnOk result (offered self.new.block ≤ offered self.old.block) }
        ensures anew { OnErr result (self.new ≡ new_generating) }
    {
        let served = tick(&mut self.tcb, alloc, at);
        if served.is_err() {
            *self = GenBlock::make(alloc);
        }
        served
    }
}
