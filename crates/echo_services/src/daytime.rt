//! Daytime (RFC 867).

ghost use Rattle.std.specs.Prelude.{◌≡◌, ◌+◌, ◌≤◌, true, IfOk, OnOk};
ghost use Rattle.byte_queues.specs.Limits.{send_space};
ghost use Rattle.byte_queues.specs.ReceiveQueue.{next_of};
ghost use Rattle.tcb_machine.specs.BlockState.{offered};
ghost use Rattle.echo_services.specs.Daytime.{closes, tells, tells_in};
ghost use Rattle.echo_services.specs.Pumping.{may_offer};

use crate::closing::throw;
use crate::port_service::PortService;
use std::alloc::{AllocError, Global};
use tcb_machine::{Answer, Call, State, Tcb};

/// A text is sent, and then our FIN, whether the peer has closed or not; what comes is thrown away. RFC 867 leaves the text open, and
/// recommends printable characters, spaces and line ends, on one line.
#[derive(Drop)]
pub struct Daytime {
    pub text: Vec<u8>,
}

impl PortService for Daytime {
    ghost use Rattle.echo_services.specs.Daytime.{daytime};

    ghost pumps = { λ s. daytime s.text.items };

    ghost after = { λ s _. s };

    #[tactic(auto, unfolding(crate::specs::Daytime::daytime))]
    fn pump(&mut self, tcb: &mut Tcb, alloc: Global) -> Result<(), AllocError> {
        throw(tcb);
        match tcb.state() {
            State::Established | State::CloseWait => end_with(tcb, alloc, self.text.as_slice()),
            _ => Ok(()),
        }
    }
}

/// The rest of the text is offered, as far as there is room, and our FIN is wanted once all of it was.
fn end_with(tcb: &mut Tcb, alloc: Global, text: &[u8]) -> Result<(), AllocError>
    requires state { may_offer tcb.old.state ≡ true }
    ensures ended { OnOk result (tcb.new ≡ tells_in tcb.old.state text.now tcb.old) }
    ensures clock { OnOk result (tcb.new.clock ≡ tcb.old.clock) }
    ensures next { OnOk result (next_of tcb.new.recv ≡ next_of tcb.old.recv) }
    ensures offered { OnOk result (offered tcb.new ≤ offered tcb.old + send_space) }
{
    tell(tcb, alloc, text)?;
    close(tcb, alloc, text)
}

/// The next bytes of the text are offered.
#[tactic(auto, unfolding(tcb_machine::specs::BlockState::offered), using(crate::proofs::DaytimeLemmas::told_text, crate::proofs::DaytimeLemmas::told_length))]
fn tell(tcb: &mut Tcb, alloc: Global, text: &[u8]) -> Result<(), AllocError>
    ensures told { OnOk result (tcb.new ≡ tells text.now tcb.old) }
    ensures clock { OnOk result (tcb.new.clock ≡ tcb.old.clock) }
    ensures next { OnOk result (next_of tcb.new.recv ≡ next_of tcb.old.recv) }
    ensures offered { OnOk result (offered tcb.new ≤ offered tcb.old + send_space) }
{
    let (_, rest) = text.split_at(offered(tcb, alloc)?.min(text.len() as u64) as usize);
    let (next, _) = rest.split_at((tcb.room() as usize).min(rest.len()));
    tcb.offer(next)
}

/// CLOSE (RFC 9293, 3.10.4), once all of the text was offered.
#[tactic(auto, unfolding(tcb_machine::specs::CallAnswers::tcp_call))]
fn close(tcb: &mut Tcb, alloc: Global, text: &[u8]) -> Result<(), AllocError>
    requires state { may_offer tcb.old.state ≡ true }
    ensures first { tcb.old.state ≡ State.Established → OnOk result (tcb.new ≡ closes State.FinWait1 text.now tcb.old) }
    ensures second { tcb.old.state ≡ State.CloseWait → OnOk result (tcb.new ≡ closes State.LastAck text.now tcb.old) }
    ensures clock { OnOk result (tcb.new.clock ≡ tcb.old.clock) }
    ensures next { OnOk result (next_of tcb.new.recv ≡ next_of tcb.old.recv) }
    ensures offered { OnOk result (offered tcb.new ≡ offered tcb.old) }
{
    if text.len() as u64 <= offered(tcb, alloc)? {
        tcb.call(alloc, Call::Close)?;
    }
    Ok(())
}

/// How many bytes were offered since LISTEN, by STATUS (RFC 9293, 3.10.6).
#[tactic(auto, unfolding(tcb_machine::specs::CallAnswers::tcp_call))]
fn offered(tcb: &mut Tcb, alloc: Global) -> Result<u64, AllocError>
    ensures is { IfOk result (λ n. n ≡ offered tcb.old) }
    ensures same { OnOk result (tcb.new ≡ tcb.old) }
{
    match tcb.call(alloc, Call::Status)?.0 {
        Answer::Status { offered, .. } => Ok(offered),
        _ => unreachable!(),
    }
}
