//! The words of a report.

ghost use Rattle.std.specs.Prelude.{◌≡◌};
ghost use Rattle.report_lines.specs.Names.{state_word};

use tcb_machine::State;

/// The state's name as RFC 9293, 3.3.2, has it.
///
/// # Example
///
/// ```
/// for (state, name) in STATES {
///     assert_eq!(rt; state_name(state), name);
/// }
/// ```
#[tactic(auto, unfolding(crate::specs::Names::state_word))]
pub fn state_name(state: State) -> &'static str
    ensures { result.now ≡ state_word state }
{
    match state {
        State::Listen => "LISTEN",
        State::SynReceived => "SYN-RECEIVED",
        State::Established => "ESTABLISHED",
        State::FinWait1 => "FIN-WAIT-1",
        State::FinWait2 => "FIN-WAIT-2",
        State::CloseWait => "CLOSE-WAIT",
        State::Closing => "CLOSING",
        State::LastAck => "LAST-ACK",
        State::TimeWait => "TIME-WAIT",
    }
}
