//! What services have in common.

ghost use Rattle.std.specs.Prelude.{◌≡◌, ◌+◌, ◌≤◌};
ghost use Rattle.byte_queues.specs.ReceiveQueue.{next_of, ready_of};
ghost use Rattle.tcb_machine.specs.BlockState.{offered};
ghost use Rattle.tcb_machine.specs.Limits.{whole_space};
ghost use Rattle.echo_services.specs.Closing.{ends, throws};

use tcb_machine::{State, Tcb};

/// What is ready is thrown away.
#[tactic(auto, unfolding(byte_queues::specs::ReceiveQueue::without, byte_queues::specs::ReceiveQueue::ready_of, tcb_machine::specs::BlockState::offered))]
pub(crate) fn throw(tcb: &mut Tcb)
    ensures thrown { tcb.new ≡ throws (ready_of tcb.old.recv) tcb.old }
    ensures clock { tcb.new.clock ≡ tcb.old.clock }
    ensures taken { tcb.new.recv.taken ≤ tcb.old.recv.taken + whole_space }
    ensures next { next_of tcb.new.recv ≡ next_of tcb.old.recv }
    ensures offered { offered tcb.new ≡ offered tcb.old }
{
    tcb.skip(tcb.ready());
}

/// Where the peer has closed and nothing is ready, our FIN is wanted.
#[tactic(auto, unfolding(tcb_machine::specs::BlockState::offered))]
pub(crate) fn end(tcb: &mut Tcb)
    ensures ended { tcb.new ≡ ends tcb.old }
    ensures clock { tcb.new.clock ≡ tcb.old.clock }
    ensures taken { tcb.new.recv.taken ≡ tcb.old.recv.taken }
    ensures next { next_of tcb.new.recv ≡ next_of tcb.old.recv }
    ensures offered { offered tcb.new ≡ offered tcb.old }
{
    if matches!(tcb.state(), State::CloseWait) && tcb.ready() == 0 && !tcb.fin_wanted() {
        tcb.want_fin();
    }
}
