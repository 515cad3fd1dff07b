//! The calls of programs, and what a service does with the two streams.

ghost use Rattle.std.specs.Prelude.{true, false, ◌≡◌, ◌+◌, ◌-◌, ◌<◌, ◌≤◌, ◌++◌, length, take, IfOk, OnOk};
ghost use Rattle.tcb_machine.specs.BlockState.{offered};
ghost use Rattle.byte_queues.specs.ReceiveQueue.{next_of, ready_of, next_bytes, without};
ghost use Rattle.tcb_machine.specs.CallAnswers.{tcp_call, with_buffer, close_in, wants_fin};
ghost use Rattle.tcb_machine.specs.TcpStep.{said};
ghost use Rattle.byte_queues.specs.SendQueue.{room_of};
ghost use Rattle.tcb_machine.specs.Limits.{plain_space, whole_space};

use super::Tcb;
use crate::kinds::{Answer, Call, Next, State};
use byte_queues::RecvQueue;
use sq_base::Octets;
use std::alloc::{AllocError, Global};

impl Tcb {
    /// A program's call (RFC 9293, 3.9.1), at the block's clock. `Go` means that pump and output are to follow.
    /// After NoMemory the block promises nothing more.
    #[tactic(auto, unfolding(crate::specs::CallAnswers::tcp_call))]
    pub fn call(&mut self, alloc: Global, call: Call) -> Result<(Answer, Next), AllocError>
        ensures called { IfOk result (λ r. tcp_call call self.old ≡ record { answer = r.0; verdict = said r.1 self.new }) }
        ensures clock { OnOk result (self.new.clock ≡ self.old.clock) }
        ensures taken { OnOk result (self.new.recv.taken ≤ self.old.recv.taken) }
        ensures next { OnOk result (next_of self.new.recv ≤ next_of self.old.recv) }
        ensures offered { OnOk result (offered self.new ≡ offered self.old) }
    {
        match call {
            Call::Status => Ok((self.status(), Next::Over)),
            Call::Buffer(n) => {
                self.set_buffer(alloc, u32::from(n));
                Ok((Answer::Done, Next::Over))
            }
            Call::Close => Ok(self.close_call()),
        }
    }

    #[tactic(auto, unfolding(crate::specs::BlockState::offered))]
    fn status(&self) -> Answer
        ensures { result ≡ Answer.Status self.now.state (next_of self.now.recv) (offered self.now) (length self.now.out) }
    {
        let unacked = self.send.held();
        Answer::Status {
            state: self.state,
            received: self.recv.next(),
            offered: self.acked + u64::from(unacked),
            unacked,
        }
    }

    /// In LISTEN there is nothing to keep, and the edge may fall.
    #[tactic(auto, unfolding(byte_queues::specs::ReceiveQueue::with_cap, crate::specs::BlockState::offered, byte_queues::specs::ReceiveQueue::next_of))]
    fn set_buffer(&mut self, alloc: Global, n: u32)
        requires { n ≤ plain_space }
        ensures set { self.new ≡ with_buffer self.old.state n self.old }
        ensures clock { self.new.clock ≡ self.old.clock }
        ensures taken { self.new.recv.taken ≤ self.old.recv.taken }
        ensures next { next_of self.new.recv ≤ next_of self.old.recv }
        ensures offered { offered self.new ≡ offered self.old }
    {
        self.want = n;
        if matches!(self.state, State::Listen) {
            self.recv = RecvQueue::make(alloc, n);
        } else {
            self.recv.set_cap(n);
        }
    }

    /// CLOSE (RFC 9293, 3.10.4). The state changes as soon as FIN is wanted, also where text stands before it.
    #[tactic(auto, unfolding(crate::specs::BlockState::offered))]
    fn close_call(&mut self) -> (Answer, Next)
        ensures closed { close_in self.old.state self.old ≡ record { answer = result.0; verdict = said result.1 self.new } }
        ensures clock { self.new.clock ≡ self.old.clock }
        ensures taken { self.new.recv.taken ≤ self.old.recv.taken }
        ensures next { next_of self.new.recv ≤ next_of self.old.recv }
        ensures offered { offered self.new ≡ offered self.old }
    {
        match self.state {
            State::Listen | State::SynReceived => (Answer::NotOpen, Next::Over),
            State::Established => {
                self.fin_wanted = true;
                self.state = State::FinWait1;
                (Answer::Done, Next::Go)
            }
            State::CloseWait => {
                self.fin_wanted = true;
                self.state = State::LastAck;
                (Answer::Done, Next::Go)
            }
            _ => (Answer::Already, Next::Over),
        }
    }

    /// How many received bytes a service can take.
    #[tactic(auto, using(crate::proofs::QueueLemmas::next_near))]
    pub fn ready(&self) -> u32
        ensures is { result ≡ ready_of self.now.recv }
        ensures near { next_of self.now.recv ≤ self.now.recv.taken + whole_space }
    {
        self.recv.ready()
    }

    /// How many bytes a service may offer.
    pub fn room(&self) -> u32
        ensures { result ≡ room_of self.now.out }
    {
        self.send.room()
    }

    /// Whether our FIN is wanted.
    pub fn fin_wanted(&self) -> bool
        ensures { result ≡ self.now.fin_wanted }
    {
        self.fin_wanted
    }

    /// The next `n` received bytes, which leave the block. After NoMemory nothing more is promised.
    #[tactic(auto, using(crate::proofs::QueueLemmas::without_below, crate::proofs::QueueLemmas::without_read, crate::proofs::QueueLemmas::next_without), unfolding(byte_queues::specs::ReceiveQueue::without))]
    pub fn take(&mut self, alloc: Global, n: u32) -> Result<Octets, AllocError>
        requires { n ≤ ready_of self.old.recv }
        ensures bytes { IfOk result (λ text. text ≡ next_bytes n self.old.recv) }
        ensures rest { OnOk result (self.new ≡ record self.old { recv = without n self.old.recv }) }
        ensures next { OnOk result (next_of self.new.recv ≡ next_of self.old.recv) }
    {
        self.recv.take(alloc, n)
    }

    /// Offers the next `n` received bytes as they came; they leave what was received. After NoMemory nothing more is promised.
    pub fn relay(&mut self, n: u32) -> Result<(), AllocError>
        requires ready { n ≤ ready_of self.old.recv }
        requires room { n ≤ room_of self.old.out }
        ensures moved { OnOk result (self.new ≡ record self.old { recv = without n self.old.recv; out = self.old.out ++ next_bytes n self.old.recv }) }
        ensures next { OnOk result (next_of self.new.recv ≡ next_of self.old.recv) }
    {
        self.offer_next(n)?;
        self.skip(n);
        Ok(())
    }

    /// Offers a copy of the next `n` received bytes.
    fn offer_next(&mut self, n: u32) -> Result<(), AllocError>
        requires ready { n ≤ ready_of self.old.recv }
        requires room { n ≤ room_of self.old.out }
        ensures { OnOk result (self.new ≡ record self.old { out = self.old.out ++ next_bytes n self.old.recv }) }
    {
        self.send.offer(self.recv.peek(n))
    }

    /// The next `n` received bytes, which stay in the block.
    pub fn peek(&self, n: u32) -> &[u8]
        requires { n ≤ ready_of self.now.recv }
        ensures bytes { result.now ≡ next_bytes n self.now.recv }
        ensures count { length result.now ≡ n }
    {
        self.recv.peek(n)
    }

    /// Throws the next `n` received bytes away.
    #[tactic(auto, using(crate::proofs::QueueLemmas::without_below, crate::proofs::QueueLemmas::without_read, crate::proofs::QueueLemmas::next_without), unfolding(byte_queues::specs::ReceiveQueue::without))]
    pub fn skip(&mut self, n: u32)
        requires { n ≤ ready_of self.old.recv }
        ensures rest { self.new ≡ record self.old { recv = without n self.old.recv } }
        ensures next { next_of self.new.recv ≡ next_of self.old.recv }
    {
        self.recv.skip(n);
    }

    /// Offers a text for sending. After NoMemory nothing more is promised.
    pub fn offer(&mut self, text: &[u8]) -> Result<(), AllocError>
        requires { length text.now ≤ room_of self.old.out }
        ensures { OnOk result (self.new ≡ record self.old { out = self.old.out ++ text.now }) }
    {
        self.send.offer(text)
    }

    /// The service ends too: our FIN is wanted, and the state becomes LAST-ACK.
    pub fn want_fin(&mut self)
        requires state { self.old.state ≡ State.CloseWait }
        requires fin { self.old.fin_wanted ≡ false }
        ensures { self.new ≡ wants_fin State.LastAck self.old }
    {
        self.fin_wanted = true;
        self.state = State::LastAck;
    }
}
