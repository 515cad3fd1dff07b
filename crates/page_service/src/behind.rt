//! The pump: the turns of a connection whose service answers requests.

ghost use Rattle.std.specs.Prelude.{◌≡◌, ◌+◌, ◌≤◌, ◌++◌, length, take, drop, IfOk, OnOk};
ghost use Rattle.byte_queues.specs.Limits.{send_space};
ghost use Rattle.byte_queues.specs.ReceiveQueue.{next_of, ready_of};
ghost use Rattle.byte_queues.specs.SendQueue.{room_of};
ghost use Rattle.tcb_machine.specs.BlockState.{offered};
ghost use Rattle.echo_services.specs.Closing.{throws};
ghost use Rattle.page_service.specs.Pump.{behind, closes, gives, reads, said, turn, turns, most_turns, waiting};

use crate::answerer::Answerer;
use crate::phase::Phase;
use echo_services::PortService;
use std::alloc::{AllocError, Global};
use tcb_machine::{Call, State, Tcb};

/// How many turns a pump has at most.
const MOST_TURNS: u32 = 4096;

/// A connection's service, and who answers its requests.
///
/// # Example
///
/// ```
/// let mut behind = Behind { phase: connection.phase, answerer: &letters };
/// serve(&mut behind, &mut connection.tcb, alloc, now, iss, &seg, text)?;
/// connection.phase = behind.phase;
/// ```
#[derive(Drop)]
pub struct Behind<'a, R: Answerer> {
    /// How far the service has come.
    pub phase: Phase<R::Answer>,
    /// Who answers.
    pub answerer: &'a R,
}

impl<R: Answerer> PortService for Behind<'_, R> {
    ghost use Rattle.page_service.specs.Pump.{pump};

    ghost pumps = { λ s b. (pump (R.protocol s.answerer.now) s.phase b).1 };

    ghost after = { λ s b. record s { phase = (pump (R.protocol s.answerer.now) s.phase b).0 } };

    #[tactic(auto, unfolding(crate::specs::Pump::pump))]
    fn pump(&mut self, tcb: &mut Tcb, alloc: Global) -> Result<(), AllocError> {
        if tcb.fin_wanted() {
            throw(tcb);
            return Ok(());
        }
        match tcb.state() {
            State::Established | State::CloseWait => self.take_turns(tcb, alloc),
            _ => Ok(()),
        }
    }
}

impl<R: Answerer> Behind<'_, R> {
    /// Turns follow each other as long as there is something to do.
    fn take_turns(&mut self, tcb: &mut Tcb, alloc: Global) -> Result<(), AllocError>
        ensures turned { OnOk result (turns (R.protocol self.old.answerer.now) most_turns self.old.phase tcb.old ≡ (self.new.phase, tcb.new)) }
        ensures same { OnOk result (self.new.answerer ≡ self.old.answerer) }
        ensures clock { OnOk result (tcb.new.clock ≡ tcb.old.clock) }
        ensures next { OnOk result (next_of tcb.new.recv ≡ next_of tcb.old.recv) }
        ensures offered { OnOk result (offered tcb.new ≤ offered tcb.old + send_space) }
    {
        for _turn in 0..MOST_TURNS {
            let (phase, on) = self.turn(tcb, alloc)?;
            self.phase = phase;
            if !on {
                return Ok(());
            }
        }
        Ok(())
    }

    /// One turn: how far it takes the service, and whether another one follows.
    fn turn(&self, tcb: &mut Tcb, alloc: Global) -> Result<(Phase<R::Answer>, bool), AllocError>
        ensures turned { IfOk result (λ left. turn (R.protocol self.now.answerer.now) self.now.phase tcb.old ≡ said left.1 left.0 tcb.new) }
        ensures clock { OnOk result (tcb.new.clock ≡ tcb.old.clock) }
        ensures next { OnOk result (next_of tcb.new.recv ≡ next_of tcb.old.recv) }
        ensures offered { OnOk result (offered tcb.new + room_of tcb.new.out ≡ offered tcb.old + room_of tcb.old.out) }
    {
        match self.phase {
            Phase::Reads => Ok(self.read(tcb)),
            Phase::Answers { answer, given } => self.give(tcb, alloc, answer, given),
            Phase::Ends => {
                end(tcb, alloc)?;
                Ok((Phase::Ends, false))
            }
        }
    }

    /// The next request is taken once it is whole. Where it never will be, all is over.
    #[tactic(auto, unfolding(tcb_machine::specs::BlockState::offered))]
    fn read(&self, tcb: &mut Tcb) -> (Phase<R::Answer>, bool)
        ensures taken { reads (R.protocol self.now.answerer.now) ((R.protocol self.now.answerer.now).answers tcb.old.clock (waiting tcb.old)) tcb.old ≡ said result.1 result.0 tcb.new }
        ensures clock { tcb.new.clock ≡ tcb.old.clock }
        ensures next { next_of tcb.new.recv ≡ next_of tcb.old.recv }
        ensures offered { offered tcb.new + room_of tcb.new.out ≡ offered tcb.old + room_of tcb.old.out }
    {
        match self.answerer.answer(tcb.clock(), tcb.peek(tcb.ready())) {
            Some((answer, count)) => {
                tcb.skip(count as u32);
                (Phase::Answers { answer, given: 0 }, true)
            }
            None if matches!(tcb.state(), State::CloseWait) => (Phase::Ends, true),
            None => (Phase::Reads, false),
        }
    }

    /// An answer goes on, of which so many bytes were offered.
    fn give(
        &self,
        tcb: &mut Tcb,
        alloc: Global,
        answer: R::Answer,
        given: u64,
    ) -> Result<(Phase<R::Answer>, bool), AllocError>
        ensures given { IfOk result (λ left. gives (R.protocol self.now.answerer.now) answer given tcb.old ≡ said left.1 left.0 tcb.new) }
        ensures clock { OnOk result (tcb.new.clock ≡ tcb.old.clock) }
        ensures next { OnOk result (next_of tcb.new.recv ≡ next_of tcb.old.recv) }
        ensures offered { OnOk result (offered tcb.new + room_of tcb.new.out ≡ offered tcb.old + room_of tcb.old.out) }
    {
        let head = self.answerer.head(alloc, answer)?;
        let body = self.answerer.body(answer);
        let given = offer_both(tcb, head.as_slice(), body, given)?;
        if head.len() as u64 + body.len() as u64 <= given {
            Ok((self.behind(answer), true))
        } else {
            Ok((Phase::Answers { answer, given }, false))
        }
    }

    /// What follows an answer.
    fn behind(&self, answer: R::Answer) -> Phase<R::Answer>
        ensures { result ≡ behind (R.protocol self.now.answerer.now) answer }
    {
        if self.answerer.keeps(answer) {
            Phase::Reads
        } else {
            Phase::Ends
        }
    }
}

/// Offers two texts as one, from a place on, as far as there is room, and answers the place behind what was offered.
fn offer_both(tcb: &mut Tcb, head: &[u8], body: &[u8], from: u64) -> Result<u64, AllocError>
    ensures text { OnOk result (tcb.new ≡ record tcb.old { out = tcb.old.out ++ take (room_of tcb.old.out) (drop from (head.now ++ body.now)) }) }
    ensures place { IfOk result (λ to. to ≡ from + length (take (room_of tcb.old.out) (drop from (head.now ++ body.now)))) }
    ensures offered { OnOk result (offered tcb.new + room_of tcb.new.out ≡ offered tcb.old + room_of tcb.old.out) }
{
    let before = tcb.room();
    offer(tcb, head, from)?;
    offer(tcb, body, from.saturating_sub(head.len() as u64))?;
    Ok(from + u64::from(before - tcb.room()))
}

/// Offers a text from a place on, as far as there is room.
#[tactic(auto, using(crate::proofs::OfferLemmas::rest_offered))]
fn offer(tcb: &mut Tcb, text: &[u8], from: u64) -> Result<(), AllocError>
    ensures { OnOk result (tcb.new ≡ record tcb.old { out = tcb.old.out ++ take (room_of tcb.old.out) (drop from text.now) }) }
{
    let (_, rest) = text.split_at(from.min(text.len() as u64) as usize);
    let (next, _) = rest.split_at((tcb.room() as usize).min(rest.len()));
    tcb.offer(next)
}

/// What is left is thrown away, and our FIN is wanted: CLOSE (RFC 9293, 3.10.4).
fn end(tcb: &mut Tcb, alloc: Global) -> Result<(), AllocError>
    ensures closed { OnOk result (tcb.new ≡ closes tcb.old) }
    ensures clock { OnOk result (tcb.new.clock ≡ tcb.old.clock) }
    ensures next { OnOk result (next_of tcb.new.recv ≡ next_of tcb.old.recv) }
    ensures offered { OnOk result (offered tcb.new + room_of tcb.new.out ≡ offered tcb.old + room_of tcb.old.out) }
{
    throw(tcb);
    tcb.call(alloc, Call::Close)?;
    Ok(())
}

/// What is ready is thrown away.
#[tactic(auto, unfolding(tcb_machine::specs::BlockState::offered))]
fn throw(tcb: &mut Tcb)
    ensures thrown { tcb.new ≡ throws (ready_of tcb.old.recv) tcb.old }
    ensures clock { tcb.new.clock ≡ tcb.old.clock }
    ensures next { next_of tcb.new.recv ≡ next_of tcb.old.recv }
    ensures offered { offered tcb.new ≡ offered tcb.old }
{
    tcb.skip(tcb.ready());
}
