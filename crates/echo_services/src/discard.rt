//! Discard (RFC 863).

ghost use Rattle.std.specs.Prelude.{◌≡◌, ◌+◌, ◌≤◌};
ghost use Rattle.byte_queues.specs.ReceiveQueue.{next_of};
ghost use Rattle.tcb_machine.specs.BlockState.{offered};
ghost use Rattle.tcb_machine.specs.Limits.{whole_space};
ghost use Rattle.echo_services.specs.Discard.{discard};

use crate::closing::{end, throw};
use crate::port_service::PortService;
use std::alloc::{AllocError, Global};
use tcb_machine::Tcb;

/// What was received is thrown away. Where the peer has closed, our FIN is wanted too.
#[derive(Clone, Copy, Debug, PartialEq, Eq)]
pub struct Discard;

impl PortService for Discard {
    ghost use Rattle.echo_services.specs.Discard.{discard};

    ghost pumps = { λ _. discard };

    ghost after = { λ s _. s };

    fn pump(&mut self, tcb: &mut Tcb, _alloc: Global) -> Result<(), AllocError> {
        throw_away(tcb);
        Ok(())
    }
}

/// A pump of discard.
pub(crate) fn throw_away(tcb: &mut Tcb)
    ensures moved { tcb.new ≡ discard tcb.old }
    ensures clock { tcb.new.clock ≡ tcb.old.clock }
    ensures taken { tcb.new.recv.taken ≤ tcb.old.recv.taken + whole_space }
    ensures next { next_of tcb.new.recv ≡ next_of tcb.old.recv }
    ensures offered { offered tcb.new ≡ offered tcb.old }
{
    throw(tcb);
    end(tcb);
}
