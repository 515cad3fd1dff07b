//! A character generator (as RFC 864, with a pattern of its own).

ghost use Rattle.std.specs.Prelude.{◌≡◌, ◌+◌, ◌-◌, ◌≤◌, ◌++◌, OnOk};
ghost use Rattle.byte_queues.specs.Limits.{send_space};
ghost use Rattle.byte_queues.specs.ReceiveQueue.{next_of};
ghost use Rattle.tcb_machine.specs.BlockState.{offered};
ghost use Rattle.tcb_machine.specs.CallAnswers.{wants_fin};
ghost use Rattle.echo_services.specs.Chargen.{next_given, pattern_from};

use crate::closing::throw;
use crate::port_service::PortService;
use crate::text::pattern_text;
use std::alloc::{AllocError, Global};
use tcb_machine::{Call, State, Tcb};

/// How many bytes are offered at most.
const MOST_GIVEN: u16 = 65_535;

/// What comes is thrown away, and a pattern is offered, as far as there is room. It goes on where the last connection left it, up to
/// 65,535 bytes. Where the peer has closed, our FIN is wanted.
#[derive(Debug, Drop, PartialEq, Eq)]
pub struct Chargen {
    /// How many bytes were offered.
    pub given: u16,
}

impl PortService for Chargen {
    ghost use Rattle.echo_services.specs.Chargen.{chargen, given_after};

    ghost pumps = { λ s. chargen s.given };

    ghost after = { λ s b. record { given = given_after s.given b } };

    #[tactic(auto, unfolding(crate::specs::Chargen::chargen, crate::specs::Chargen::given_after))]
    fn pump(&mut self, tcb: &mut Tcb, alloc: Global) -> Result<(), AllocError> {
        throw(tcb);
        match tcb.state() {
            State::Established => self.give(tcb, alloc),
            State::CloseWait => close(tcb, alloc),
            _ => Ok(()),
        }
    }
}

impl Chargen {
    /// As much more of the pattern is offered as there is room for, and as is left of it.
    #[tactic(auto, unfolding(tcb_machine::specs::BlockState::offered), using(crate::proofs::PatternLemmas::given_length))]
    fn give(&mut self, tcb: &mut Tcb, alloc: Global) -> Result<(), AllocError>
        ensures given { OnOk result (self.new.given ≡ self.old.given + next_given self.old.given tcb.old) }
        ensures text { OnOk result (tcb.new ≡ record tcb.old { out = tcb.old.out ++ pattern_from self.old.given (next_given self.old.given tcb.old) }) }
        ensures clock { OnOk result (tcb.new.clock ≡ tcb.old.clock) }
        ensures next { OnOk result (next_of tcb.new.recv ≡ next_of tcb.old.recv) }
        ensures offered { OnOk result (offered tcb.new ≤ offered tcb.old + send_space) }
    {
        let left = MOST_GIVEN - self.given;
        let n = tcb.room().min(u32::from(left)) as u16;
        let text = pattern_text(alloc, self.given, n)?;
        tcb.offer(text.as_slice())?;
        self.given += n;
        Ok(())
    }
}

/// CLOSE (RFC 9293, 3.10.4), where the peer has closed.
#[tactic(auto, unfolding(tcb_machine::specs::CallAnswers::tcp_call))]
fn close(tcb: &mut Tcb, alloc: Global) -> Result<(), AllocError>
    requires { tcb.old.state ≡ State.CloseWait }
    ensures closed { OnOk result (tcb.new ≡ wants_fin State.LastAck tcb.old) }
    ensures clock { OnOk result (tcb.new.clock ≡ tcb.old.clock) }
    ensures next { OnOk result (next_of tcb.new.recv ≡ next_of tcb.old.recv) }
    ensures offered { OnOk result (offered tcb.new ≡ offered tcb.old) }
{
    tcb.call(alloc, Call::Close)?;
    Ok(())
}
