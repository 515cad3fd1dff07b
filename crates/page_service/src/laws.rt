//! What the definitions say of a connection whose service answers requests: each law is a function that does nothing, whose contract is
//! the law.

ghost use Rattle.std.specs.Prelude.{◌≡◌, ℕ, true, false, List, ◌++◌};
ghost use Rattle.tcb_machine.specs.BlockState.{Block};
ghost use Rattle.echo_services.specs.Pumping.{IsPump, may_offer};
ghost use Rattle.echo_services.specs.Serving.{Entry};
ghost use Rattle.echo_services.specs.WholeStreams.{AreEntries};
ghost use Rattle.page_service.specs.Protocol.{Protocol, IsProtocol, IsFront, responses};
ghost use Rattle.page_service.specs.Pump.{RestsAt, pump};
ghost use Rattle.page_service.specs.Kept.{OffersAnswers, kept_serves, kept_new, service_of};
ghost use Rattle.page_service.specs.declared.phase.Phase.{Phase};

/// The pump is such as the laws of served connections speak of: a block stays valid, and a segment adds little.
pub fn answers_are_a_pump<A>()
    ensures { (p : Protocol A) (w : Phase A) → IsProtocol p → IsPump (λ b. (pump p w b).1) }
{}

/// Whatever came, in whatever pieces and at whatever times: what was offered since LISTEN, with what is left of the answer under way, is
/// the answers to the requests that were taken, in order and each once, each read when a segment came, and in the order of these. While our
/// FIN isn't wanted, nothing was taken that has no answer, unless the answer under way is the last. More bytes and times only go on behind
/// them.
pub fn answers_come_in_order<A>()
    ensures sent { (p : Protocol A) (es : List Entry) → IsProtocol p → AreEntries es
        → OffersAnswers p es (kept_serves (service_of p) es (kept_new (service_of p))) }
    ensures goes_on { (p : Protocol A) (times more bytes rest : List ℕ) → IsProtocol p → IsFront (responses p times bytes) (responses p (times ++ more) (bytes ++ rest)) }
{}

/// Behind a pump nothing waits that could go.
pub fn requests_are_answered<A>()
    ensures { (p : Protocol A) (w : Phase A) (b : Block) → IsProtocol p → b.fin_wanted ≡ false → may_offer b.state ≡ true
        → RestsAt p (pump p w b).0 (pump p w b).1 }
{}
