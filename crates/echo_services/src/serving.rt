//! What a block and its service do with one item: a segment, a time, or a call of a program.

ghost use Rattle.std.specs.Prelude.{◌≡◌, ◌+◌, ◌^◌, ◌≤◌, IfOk, OnOk};
ghost use Rattle.byte_queues.specs.ReceiveQueue.{next_of};
ghost use Rattle.tcb_machine.specs.BlockState.{offered};
ghost use Rattle.tcb_machine.specs.CallAnswers.{tcp_call};
ghost use Rattle.tcb_machine.specs.Limits.{last_time, whole_space};
ghost use Rattle.tcb_machine.specs.Room.{HasRoom};
ghost use Rattle.tcb_machine.specs.TcpStep.{said, tcp_segment};
ghost use Rattle.tcb_machine.specs.Timers.{tcp_time};
ghost use Rattle.echo_services.specs.Serving.{asks, enters, followed, kept, segment};

use crate::port_service::PortService;
use segment_codec::Seg;
use std::alloc::{AllocError, Global};
use tcb_machine::{Answer, Call, Next, Tcb};

/// A segment arrives at a time in microseconds, with its text, which lies behind the header in its datagram, and the initial
/// sequence number that a new connection is to take. Pump and output follow where the segment lets them (RFC 9293, 3.10.7).
/// What is sent stands among the block's replies. After NoMemory nothing more is promised of the block, until it is reset.
///
/// # Example
///
/// ```
/// if tcb.has_room() && tcb.clock() <= now && now <= LAST_TIME {
///     tick(tcb, alloc, now)?;
///     serve(&mut Service::of(seg.dst_port), tcb, alloc, now, iss, &seg, text)?;
/// }
/// datagrams(alloc, &tuple_of(&seg), &tcb.take_replies(alloc))
/// ```
pub fn serve<S: PortService>(
    service: &mut S,
    tcb: &mut Tcb,
    alloc: Global,
    now: u64,
    iss: u32,
    seg: &Seg,
    text: &[u8],
) -> Result<(), AllocError>
    requires clock { tcb.old.clock ≤ now }
    requires time { now ≤ last_time }
    requires room { HasRoom tcb.old }
    ensures step { OnOk result (tcb.new ≡ enters (S.pumps service.old) (segment now iss seg.now text.now) tcb.old) }
    ensures kept { OnOk result (service.new ≡ kept S.after service.old (tcp_segment now iss seg.now text.now tcb.old)) }
    ensures clock { OnOk result (tcb.new.clock ≡ now) }
    ensures next { OnOk result (next_of tcb.new.recv ≤ next_of tcb.old.recv + whole_space) }
    ensures offered { OnOk result (offered tcb.new ≤ offered tcb.old + 2 ^ 16) }
{
    let next = tcb.segment(alloc, now, iss, seg, text)?;
    follow(service, tcb, alloc, next)
}

/// The time comes to a number of microseconds: the deadlines up to it fire (RFC 9293, 3.10.8). After NoMemory nothing more is
/// promised of the block, until it is reset.
pub fn tick(tcb: &mut Tcb, alloc: Global, now: u64) -> Result<(), AllocError>
    requires clock { tcb.old.clock ≤ now }
    requires time { now ≤ last_time }
    ensures step { OnOk result (tcb.new ≡ tcp_time now tcb.old) }
    ensures clock { OnOk result (tcb.new.clock ≡ now) }
    ensures next { OnOk result (next_of tcb.new.recv ≤ next_of tcb.old.recv) }
    ensures offered { OnOk result (offered tcb.new ≤ offered tcb.old) }
{
    tcb.time(alloc, now)
}

/// A program's call, at the block's clock (RFC 9293, 3.10): pump and output follow a close that is done. After NoMemory nothing
/// more is promised of the block, until it is reset.
pub fn ask<S: PortService>(
    service: &mut S,
    tcb: &mut Tcb,
    alloc: Global,
    call: Call,
) -> Result<Answer, AllocError>
    ensures answer { IfOk result (λ answer. answer ≡ (tcp_call call tcb.old).answer) }
    ensures step { OnOk result (tcb.new ≡ enters (S.pumps service.old) (asks call) tcb.old) }
    ensures kept { OnOk result (service.new ≡ kept S.after service.old (tcp_call call tcb.old).verdict) }
    ensures clock { OnOk result (tcb.new.clock ≡ tcb.old.clock) }
    ensures next { OnOk result (next_of tcb.new.recv ≤ next_of tcb.old.recv) }
    ensures offered { OnOk result (offered tcb.new ≤ offered tcb.old + 2 ^ 16) }
{
    let (answer, next) = tcb.call(alloc, call)?;
    follow(service, tcb, alloc, next)?;
    Ok(answer)
}

/// Pump and output, where they follow.
fn follow<S: PortService>(
    service: &mut S,
    tcb: &mut Tcb,
    alloc: Global,
    next: Next,
) -> Result<(), AllocError>
    ensures step { OnOk result (tcb.new ≡ followed (S.pumps service.old) (said next tcb.old)) }
    ensures kept { OnOk result (service.new ≡ kept S.after service.old (said next tcb.old)) }
    ensures clock { OnOk result (tcb.new.clock ≡ tcb.old.clock) }
    ensures next { OnOk result (next_of tcb.new.recv ≡ next_of tcb.old.recv) }
    ensures offered { OnOk result (offered tcb.new ≤ offered tcb.old + 2 ^ 16) }
{
    match next {
        Next::Over => Ok(()),
        Next::Go => {
            service.pump(tcb, alloc)?;
            tcb.output(alloc)
        }
    }
}
