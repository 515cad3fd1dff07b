//! Which service a port has.

ghost use Rattle.std.specs.Prelude.{◌≡◌, ◌+◌, ◌≤◌, true, OnOk};
ghost use Rattle.byte_queues.specs.Limits.{send_space};
ghost use Rattle.byte_queues.specs.ReceiveQueue.{next_of};
ghost use Rattle.sq_base.specs.Ports.{is_served_port};
ghost use Rattle.tcb_machine.specs.BlockState.{offered};
ghost use Rattle.tcb_machine.specs.Limits.{whole_space};
ghost use Rattle.echo_services.specs.Pump.{service_of, service_word, pump};

use crate::discard::throw_away;
use crate::echo::give_back;
use crate::port_service::PortService;
use sq_base::ECHO_PORT;
use std::alloc::{AllocError, Global};
use tcb_machine::Tcb;

/// The services of RFC 862 and RFC 863.
#[derive(Clone, Copy, Debug, PartialEq, Eq)]
pub enum Service {
    /// What was received comes back, byte for byte.
    Echo,
    /// What was received is thrown away.
    Discard,
}

impl Service {
    /// The service of a port: 7 is echo, 9 discard.
    pub fn of(port: u16) -> Service
        requires { is_served_port port ≡ true }
        ensures { result ≡ service_of port }
    {
        if port == ECHO_PORT {
            Service::Echo
        } else {
            Service::Discard
        }
    }

    /// The service's name: echo (RFC 862) or discard (RFC 863).
    #[tactic(auto, unfolding(crate::specs::Pump::service_word))]
    pub fn name(self) -> &'static str
        ensures { result.now ≡ service_word self }
    {
        match self {
            Service::Echo => "echo",
            Service::Discard => "discard",
        }
    }
}

/// Moves what is ready: echo offers it again as far as there is room, discard throws it away. Where the peer has closed and
/// nothing is ready any more, our FIN is wanted too. After NoMemory the block promises nothing more.
#[tactic(auto, unfolding(crate::specs::Pump::pump))]
pub fn pump(service: Service, tcb: &mut Tcb, _alloc: Global) -> Result<(), AllocError>
    ensures moved { OnOk result (tcb.new ≡ pump service tcb.old) }
    ensures clock { OnOk result (tcb.new.clock ≡ tcb.old.clock) }
    ensures taken { OnOk result (tcb.new.recv.taken ≤ tcb.old.recv.taken + whole_space) }
    ensures next { OnOk result (next_of tcb.new.recv ≡ next_of tcb.old.recv) }
    ensures offered { OnOk result (offered tcb.new ≤ offered tcb.old + send_space) }
{
    match service {
        Service::Echo => give_back(tcb),
        Service::Discard => {
            throw_away(tcb);
            Ok(())
        }
    }
}

impl PortService for Service {
    ghost use Rattle.echo_services.specs.Pump.{pump};

    ghost pumps = { pump };

    ghost after = { λ s _. s };

    fn pump(&mut self, tcb: &mut Tcb, alloc: Global) -> Result<(), AllocError> {
        pump(*self, tcb, alloc)
    }
}
