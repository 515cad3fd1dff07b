//! Echo (RFC 862).

ghost use Rattle.std.specs.Prelude.{◌≡◌, ◌+◌, ◌≤◌, min, OnOk};
ghost use Rattle.byte_queues.specs.Limits.{send_space};
ghost use Rattle.byte_queues.specs.ReceiveQueue.{next_of, ready_of};
ghost use Rattle.byte_queues.specs.SendQueue.{room_of};
ghost use Rattle.tcb_machine.specs.BlockState.{offered};
ghost use Rattle.tcb_machine.specs.Limits.{whole_space};
ghost use Rattle.echo_services.specs.Echo.{echo, echoes, moves};

use crate::closing::{end, throw};
use crate::port_service::PortService;
use std::alloc::{AllocError, Global};
use tcb_machine::{State, Tcb};

/// What was received comes back, byte for byte, as far as there is room. Where the peer has closed and all came back, our FIN is
/// wanted too.
#[derive(Clone, Copy, Debug, PartialEq, Eq)]
pub struct Echo;

impl PortService for Echo {
    ghost use Rattle.echo_services.specs.Echo.{echo};

    ghost pumps = { λ _. echo };

    ghost after = { λ s _. s };

    fn pump(&mut self, tcb: &mut Tcb, _alloc: Global) -> Result<(), AllocError> {
        give_back(tcb)
    }
}

/// A pump of echo.
pub(crate) fn give_back(tcb: &mut Tcb) -> Result<(), AllocError>
    ensures moved { OnOk result (tcb.new ≡ echo tcb.old) }
    ensures clock { OnOk result (tcb.new.clock ≡ tcb.old.clock) }
    ensures taken { OnOk result (tcb.new.recv.taken ≤ tcb.old.recv.taken + whole_space) }
    ensures next { OnOk result (next_of tcb.new.recv ≡ next_of tcb.old.recv) }
    ensures offered { OnOk result (offered tcb.new ≤ offered tcb.old + send_space) }
{
    move_text(tcb)?;
    end(tcb);
    Ok(())
}

/// What is ready comes back, or is thrown away where our FIN is wanted.
fn move_text(tcb: &mut Tcb) -> Result<(), AllocError>
    ensures moved { OnOk result (tcb.new ≡ moves tcb.old.fin_wanted tcb.old) }
    ensures clock { OnOk result (tcb.new.clock ≡ tcb.old.clock) }
    ensures taken { OnOk result (tcb.new.recv.taken ≤ tcb.old.recv.taken + whole_space) }
    ensures next { OnOk result (next_of tcb.new.recv ≡ next_of tcb.old.recv) }
    ensures offered { OnOk result (offered tcb.new ≤ offered tcb.old + send_space) }
{
    if tcb.fin_wanted() {
        throw(tcb);
        return Ok(());
    }
    match tcb.state() {
        State::Established | State::CloseWait => offer_again(tcb),
        _ => Ok(()),
    }
}

/// The next bytes are offered as they came.
#[tactic(auto, using(crate::proofs::PumpLemmas::next_length, crate::proofs::PumpLemmas::echo_length), unfolding(byte_queues::specs::ReceiveQueue::without, byte_queues::specs::ReceiveQueue::ready_of, tcb_machine::specs::BlockState::offered))]
fn offer_again(tcb: &mut Tcb) -> Result<(), AllocError>
    ensures moved { OnOk result (tcb.new ≡ echoes (min (ready_of tcb.old.recv) (room_of tcb.old.out)) tcb.old) }
    ensures clock { OnOk result (tcb.new.clock ≡ tcb.old.clock) }
    ensures taken { OnOk result (tcb.new.recv.taken ≤ tcb.old.recv.taken + whole_space) }
    ensures next { OnOk result (next_of tcb.new.recv ≡ next_of tcb.old.recv) }
    ensures offered { OnOk result (offered tcb.new ≤ offered tcb.old + send_space) }
{
    let n = tcb.ready().min(tcb.room());
    tcb.relay(n)
}
