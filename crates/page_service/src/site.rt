//! The pages of a site as what answers: HTTP/1.1 (RFC 9110, RFC 9112).

ghost use Rattle.std.specs.Prelude.{◌≡◌, ℕ, true, false, List, ◌++◌};
ghost use Rattle.http_pages.specs.Pages.{Page};
ghost use Rattle.tcb_machine.specs.BlockState.{Block};
ghost use Rattle.echo_services.specs.Pumping.{IsPump, may_offer};
ghost use Rattle.echo_services.specs.Serving.{Entry};
ghost use Rattle.echo_services.specs.WholeStreams.{AreEntries};
ghost use Rattle.http_pages.specs.declared.answer.Answer.{Answer};
ghost use Rattle.page_service.specs.Kept.{OffersAnswers, kept_serves, kept_new, service_of};
ghost use Rattle.page_service.specs.Protocol.{IsFront, responses};
ghost use Rattle.page_service.specs.Pump.{RestsAt, pump};
ghost use Rattle.page_service.specs.Site.{site};
ghost use Rattle.page_service.specs.declared.phase.Phase.{Phase};

use crate::answerer::Answerer;
use crate::phase::Phase;
use http_pages::{Answer, Pages, answer_to, body_of, head_of};
use std::alloc::{AllocError, Global};

/// How far a connection has come whose service are pages.
pub type Web = Phase<Answer>;

impl Answerer for Pages {
    ghost use Rattle.http_pages.specs.AnswerText.{answer_body};
    ghost use Rattle.page_service.specs.Site.{site, site-sound};

    type Answer = Answer;

    ghost protocol = { site };

    ghost behind_head = { answer_body };

    fn answer(&self, at: u64, bytes: &[u8]) -> Option<(Answer, usize)> {
        answer_to(self, at, bytes)
    }

    fn keeps(&self, answer: Answer) -> bool {
        answer.keeps
    }

    #[tactic(auto, unfolding(http_pages::specs::AnswerText::answer_text))]
    fn head(&self, alloc: Global, answer: Answer) -> Result<Vec<u8>, AllocError> {
        head_of(alloc, self, answer)
    }

    fn body(&self, answer: Answer) -> &[u8] {
        body_of(self, answer)
    }

    ghost sound = { site-sound };
}

/// Whatever comes, in whatever pieces and at whatever times: what a connection's service has offered, with what is left of the answer under
/// way, is the answers of these pages to the requests that it took, in order and each once, each at the time of a segment, and in the order of
/// these. While our FIN isn't wanted, it took nothing that has no answer, unless the answer under way is the last. More bytes and times only go
/// on behind them. Behind a pump nothing waits that could go.
pub fn pages_answer_what_came()
    ensures sent { (pages : List Page) (es : List Entry) → AreEntries es
        → OffersAnswers (site pages) es (kept_serves (service_of (site pages)) es (kept_new (service_of (site pages)))) }
    ensures goes_on { (pages : List Page) (times more bytes rest : List ℕ)
        → IsFront (responses (site pages) times bytes) (responses (site pages) (times ++ more) (bytes ++ rest)) }
    ensures rests { (pages : List Page) (w : Phase Answer) (b : Block) → b.fin_wanted ≡ false → may_offer b.state ≡ true
        → RestsAt (site pages) (pump (site pages) w b).0 (pump (site pages) w b).1 }
    ensures pump { (pages : List Page) (w : Phase Answer) → IsPump (λ b. (pump (site pages) w b).1) }
{}
