//! A connection with what serves it: echo, discard or daytime over a block, or the generator.

use case_rows::Wrong;
use chargen_service::GenBlock;
use echo_services::{Daytime, PortService, Service, ask, serve, tick};
use segment_codec::Seg;
use std::alloc::Global;
use tcb_machine::{Answer, Call, LAST_TIME, Tcb};

/// What daytime sends here: the example of RFC 867, without the end of its line.
const DAYTIME: &str = "Tuesday, February 22, 1982 17:37:43-PST";

/// A connection with what serves it.
#[derive(Drop)]
pub enum ServedRow {
    Plain(Service, Tcb),
    Dated(Daytime, Tcb),
    Generated(GenBlock),
}

impl ServedRow {
    /// A new connection to a port; an error where no service has it.
    pub fn at(alloc: Global, port: u16) -> Result<ServedRow, Wrong> {
        match port {
            7 | 9 => Ok(ServedRow::Plain(Service::of(port), Tcb::make(alloc))),
            13 => {
                let text = Vec::from_slice(alloc, DAYTIME.as_bytes())?;
                Ok(ServedRow::Dated(Daytime { text }, Tcb::make(alloc)))
            }
            19 => Ok(ServedRow::Generated(GenBlock::make(alloc))),
            _ => Err(Wrong::Word),
        }
    }

    /// The connection's block.
    pub fn tcb(&self) -> &Tcb {
        match self {
            ServedRow::Plain(_, tcb) | ServedRow::Dated(_, tcb) => tcb,
            ServedRow::Generated(block) => block.tcb(),
        }
    }

    /// The block, where echo or discard serves it.
    pub fn plain(&mut self) -> Result<&mut Tcb, Wrong> {
        match self {
            ServedRow::Plain(_, tcb) => Ok(tcb),
            _ => Err(Wrong::Call),
        }
    }

    /// What the service is called.
    pub fn name(&self) -> &'static str {
        match self {
            ServedRow::Plain(service, _) => service.name(),
            ServedRow::Dated(..) => "daytime",
            ServedRow::Generated(_) => "chargen",
        }
    }

    /// A segment arrives, with the initial sequence number that a new connection takes.
    pub fn segment(
        &mut self,
        alloc: Global,
        at: u64,
        iss: u32,
        seg: &Seg,
        text: &[u8],
    ) -> Result<(), Wrong> {
        match self {
            ServedRow::Plain(service, tcb) => segment_to(service, tcb, alloc, at, iss, seg, text),
            ServedRow::Dated(service, tcb) => segment_to(service, tcb, alloc, at, iss, seg, text),
            ServedRow::Generated(block) => generated_segment(block, alloc, at, iss, seg, text),
        }
    }

    /// The time comes.
    pub fn time(&mut self, alloc: Global, at: u64) -> Result<(), Wrong> {
        match self {
            ServedRow::Plain(_, tcb) | ServedRow::Dated(_, tcb) => {
                if tcb.clock() > at || at > LAST_TIME {
                    return Err(Wrong::Call);
                }
                tick(tcb, alloc, at)?;
            }
            ServedRow::Generated(block) => {
                if block.tcb().clock() > at || at > LAST_TIME {
                    return Err(Wrong::Call);
                }
                block.time(alloc, at)?;
            }
        }
        Ok(())
    }

    /// A program calls.
    pub fn ask(&mut self, alloc: Global, call: Call) -> Result<Answer, Wrong> {
        match self {
            ServedRow::Plain(service, tcb) => Ok(ask(service, tcb, alloc, call)?),
            ServedRow::Dated(service, tcb) => Ok(ask(service, tcb, alloc, call)?),
            ServedRow::Generated(_) => Err(Wrong::Call),
        }
    }
}

fn segment_to<S: PortService>(
    service: &mut S,
    tcb: &mut Tcb,
    alloc: Global,
    at: u64,
    iss: u32,
    seg: &Seg,
    text: &[u8],
) -> Result<(), Wrong> {
    if tcb.clock() > at || at > LAST_TIME || !tcb.has_room() {
        return Err(Wrong::Call);
    }
    serve(service, tcb, alloc, at, iss, seg, text)?;
    Ok(())
}

fn generated_segment(
    block: &mut GenBlock,
    alloc: Global,
    at: u64,
    iss: u32,
    seg: &Seg,
    text: &[u8],
) -> Result<(), Wrong> {
    if block.tcb().clock() > at || at > LAST_TIME || !block.tcb().has_room() {
        return Err(Wrong::Call);
    }
    block.segment(alloc, at, iss, seg, text)?;
    Ok(())
}
