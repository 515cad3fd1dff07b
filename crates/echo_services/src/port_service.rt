//! What a service behind a connection is.

ghost use Rattle.std.specs.Prelude.{◌≡◌, ◌+◌, ◌≤◌, OnOk};
ghost use Rattle.byte_queues.specs.Limits.{send_space};
ghost use Rattle.byte_queues.specs.ReceiveQueue.{next_of};
ghost use Rattle.tcb_machine.specs.BlockState.{Block, offered};

use std::alloc::{AllocError, Global};
use tcb_machine::Tcb;

/// A service behind a connection: what it does with what was received and with what is to be sent. It answers no segment itself;
/// output follows its pump.
pub trait PortService {
    /// What a pump makes of a block, by what the service keeps.
    ghost pumps: { Self → Block → Block };

    /// What the service keeps after that pump.
    ghost after: { Self → Block → Self };

    /// Takes what is ready, offers text as far as there is room, and wants our FIN where nothing more is to be sent. After NoMemory
    /// block and service promise nothing more.
    fn pump(&mut self, tcb: &mut Tcb, alloc: Global) -> Result<(), AllocError>
        ensures pumped { OnOk result (tcb.new ≡ pumps self.old tcb.old) }
        ensures kept { OnOk result (self.new ≡ after self.old tcb.old) }
        ensures clock { OnOk result (tcb.new.clock ≡ tcb.old.clock) }
        ensures next { OnOk result (next_of tcb.new.recv ≡ next_of tcb.old.recv) }
        ensures offered { OnOk result (offered tcb.new ≤ offered tcb.old + send_space) };
}
