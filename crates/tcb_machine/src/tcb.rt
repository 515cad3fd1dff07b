//! The block of a connection: its variables (RFC 9293, 3.3.1), and what is read off them.
//!
//! `arrival` has the checks of an arriving segment, `text` the last two of them, `replies` the segments that are sent, `output` the
//! rule by which text, FIN and acknowledgements go out, `timers` the deadlines, and `calls` what programs and services do.

ghost use Rattle.std.specs.Prelude.{false, ◌≡◌, ◌+◌, ◌-◌, ◌*◌, ◌<◌, ◌≤◌, length, None, Some, slice_get, All, IsTrue, ◌↔◌, []};
ghost use Rattle.tcb_machine.specs.Limits.{least_mss, longest_timeout, most_mss, most_retransmissions, most_shift, whole_space};
ghost use Rattle.tcb_machine.specs.Room.{HasRoom};

mod arrival;
mod beside;
mod calls;
mod output;
mod replies;
mod text;
mod timers;

use crate::agreed::Agreed;
use crate::kinds::{State, is_consumed};
use crate::limits::{FIRST_TIMEOUT, MOST_STREAMED, TIME_WAIT, WHOLE_SPACE};
use byte_queues::{RecvQueue, SendQueue};
use segment_codec::Reply;
use sq_base::seq_dist;
use std::alloc::{AllocError, Global};
use std::marker::Model;
use std::mem::replace;

/// The block of a connection (RFC 9293, 3.3.1). Times are in microseconds.
///
/// # Example
///
/// ```
/// let mut tcb = Tcb::make(alloc);
/// ...
/// let sent = receive(&mut tcb, alloc, now, 500, datagram.as_slice())?;
/// assert_eq!(rt; sent.len(), answers);
/// ...
/// let before = tcb.state();
/// assert_eq!(rt; before, State::LastAck);
/// assert_eq!(rt; tcb.next_deadline(), Some(1_003_000));
/// ```
#[derive(Drop)]
pub struct Tcb {
    state: State,
    iss: u32,
    irs: u32,
    una: u32,
    /// SND.WND, with the peer's window scale.
    wnd: u32,
    wl1: u32,
    wl2: u32,
    /// What the options of both SYNs agree on.
    agreed: Agreed,
    /// The receive space asked for.
    want: u32,
    recv: RecvQueue,
    send: SendQueue,
    /// How many bytes were acknowledged, and how many were sent, since LISTEN.
    acked: u64,
    sent: u64,
    fin_wanted: bool,
    fin_sent: bool,
    rto: u64,
    /// At most one of the two deadlines is set.
    retransmit_at: Option<u64>,
    time_wait_at: Option<u64>,
    /// How many retransmissions and probes were made, in the block's life or since they were forgotten.
    retransmissions: u32,
    clock: u64,
    ack_due: bool,
    replies: Vec<Reply>,
}

impl Model for Tcb {
    ghost use Rattle.tcb_machine.specs.BlockState.{Block};

    ghost Value = { Block };

    ghost use Rattle.tcb_machine.specs.Inside.{block_of, IsSound};

    ghost view = { block_of };

    ghost invariant = { IsSound };
}

impl Tcb {
    ghost use Rattle.tcb_machine.specs.BlockState.{new_block, to_listen, rcv_nxt, rcv_wnd, snd_nxt, snd_end, unsent, in_flight, IsOurs};
    ghost use Rattle.tcb_machine.specs.States.{is_consumed, is_listen};
    ghost use Rattle.tcb_machine.specs.TcpStep.{is_fin_acked, in_time_wait};

    /// A block in LISTEN. It takes no memory.
    #[tactic(auto, unfolding(crate::specs::BlockState::new_block))]
    pub fn make(alloc: Global) -> Tcb
        ensures { result ≡ new_block }
    {
        Tcb {
            state: State::Listen,
            iss: 0,
            irs: 0,
            una: 0,
            wnd: 0,
            wl1: 0,
            wl2: 0,
            agreed: Agreed::nothing(),
            want: WHOLE_SPACE,
            recv: RecvQueue::make(alloc, WHOLE_SPACE),
            send: SendQueue::make(alloc),
            acked: 0,
            sent: 0,
            fin_wanted: false,
            fin_sent: false,
            rto: FIRST_TIMEOUT,
            retransmit_at: None,
            time_wait_at: None,
            retransmissions: 0,
            clock: 0,
            ack_due: false,
            replies: Vec::new(alloc),
        }
    }

    /// The connection's state (RFC 9293, 3.3.2).
    pub fn state(&self) -> State
        ensures { result ≡ self.now.state }
    {
        self.state
    }

    /// The time of the last segment or timer run, in microseconds, and 0 before the first: neither takes an earlier one.
    pub fn clock(&self) -> u64
        ensures { result ≡ self.now.clock }
    {
        self.clock
    }

    /// Whether the block takes a segment: 2^61 bytes of neither stream have come. One that has come so far can only be left.
    #[tactic(auto, unfolding(crate::specs::BlockState::offered))]
    pub fn has_room(&self) -> bool
        ensures { IsTrue result ↔ HasRoom self.now }
    {
        self.recv.next() < MOST_STREAMED && self.acked + u64::from(self.send.held()) < MOST_STREAMED
    }

    /// SND.UNA, a sequence number: the first one that isn't acknowledged (RFC 9293, 3.3.1).
    pub fn snd_una(&self) -> u32
        ensures { result ≡ self.now.una }
    {
        self.una
    }

    /// SND.NXT, a sequence number: the next one that is sent (RFC 9293, 3.3.1). In LISTEN, where none is, it is 1.
    #[tactic(auto, unfolding(crate::specs::BlockState::snd_nxt, crate::specs::BlockState::snd_end))]
    pub fn snd_nxt(&self) -> u32
        ensures { result ≡ snd_nxt self.now }
    {
        self.snd_end().wrapping_add(u32::from(self.fin_sent))
    }

    /// Snd.Wind.Shift: by how many bits the windows that arrive are shifted (RFC 7323, 2.2).
    pub fn snd_shift(&self) -> u8
        ensures is { result ≡ self.now.agreed.snd_shift }
        ensures most { result ≤ most_shift }
    {
        self.agreed.snd_shift
    }

    /// The most bytes of text that a segment has which is sent (RFC 9293, 3.7.1).
    pub fn mss(&self) -> u16
        ensures is { result ≡ self.now.agreed.mss }
        ensures least { least_mss ≤ result }
        ensures most { result ≤ most_mss }
    {
        self.agreed.mss
    }

    /// SND.WND, in bytes (RFC 9293, 3.3.1): the peer's last window, with its scale, or the one that was shown in its place.
    pub fn snd_wnd(&self) -> u32
        ensures { result ≡ self.now.wnd }
    {
        self.wnd
    }

    /// RTO, in microseconds: how long the retransmission timer runs (RFC 6298).
    pub fn rto(&self) -> u64
        ensures is { result ≡ self.now.rto }
        ensures most { result ≤ longest_timeout }
    {
        self.rto
    }

    /// When the retransmission timer expires, in microseconds, which may be before the clock, or `None` where it doesn't run (RFC 6298, 5).
    pub fn retransmit_at(&self) -> Option<u64>
        ensures { result ≡ self.now.retransmit_at }
    {
        self.retransmit_at
    }

    /// How many retransmissions and probes were made since the block was new or they were forgotten. Where 64 were, the next
    /// deadline takes the block to LISTEN.
    pub fn retransmissions(&self) -> u32
        ensures is { result ≡ self.now.retransmissions }
        ensures most { result ≤ most_retransmissions }
    {
        self.retransmissions
    }

    /// Counts retransmissions from 0 again. RFC 9293, 3.8.3 counts those of one segment, so its user calls this where a segment
    /// acknowledged something new; without it the block counts those of its life.
    pub fn forget_retransmissions(&mut self)
        ensures { self.new ≡ record self.old { retransmissions = 0 } }
    {
        self.retransmissions = 0;
    }

    /// As new, at the block's clock. So a block for which memory was missing is of use again.
    #[tactic(auto, unfolding(crate::specs::BlockState::new_block))]
    pub fn reset(&mut self, alloc: Global)
        ensures { self.new ≡ record new_block { clock = self.old.clock } }
    {
        let clock = self.clock;
        *self = Tcb::make(alloc);
        self.clock = clock;
    }

    /// Takes room for `n` segments more that are sent. An error says that memory was missing. Either way the block stays as it is.
    pub fn reserve_replies(&mut self, n: usize) -> Result<(), AllocError>
        ensures { self.new ≡ self.old }
    {
        self.replies.reserve(n)
    }

    /// How many segments were sent, since they were last taken.
    pub fn replies(&self) -> usize
        ensures { result ≡ length self.now.replies }
    {
        self.replies.len()
    }

    /// Segment `i` of those that were sent, from 0.
    pub fn reply(&self, i: usize) -> &Reply
        requires { i < length self.now.replies }
        ensures reply { slice_get self.now.replies i ≡ Some result.now }
        ensures ours { IsOurs result.now }
    {
        &self.replies[i]
    }

    /// The segments that were sent, in order, which leave the block. All else of it stays as it is.
    pub fn take_replies(&mut self, alloc: Global) -> Vec<Reply>
        ensures taken { result.items ≡ self.old.replies }
        ensures rest { self.new ≡ record self.old { replies = [] } }
        ensures ours { All IsOurs result.items }
    {
        replace(&mut self.replies, Vec::new(alloc))
    }

    /// RCV.NXT, a sequence number: the next one that is awaited (RFC 9293, 3.3.1). In LISTEN, where none is, it is 1.
    #[tactic(auto, unfolding(crate::specs::BlockState::rcv_nxt))]
    pub fn rcv_nxt(&self) -> u32
        ensures { result ≡ rcv_nxt self.now }
    {
        let low = (self.recv.next() & 0xffff_ffff) as u32;
        self.irs
            .wrapping_add(1)
            .wrapping_add(low)
            .wrapping_add(u32::from(is_consumed(self.state)))
    }

    /// RCV.WND, in bytes (RFC 9293, 3.3.1).
    #[tactic(auto, unfolding(crate::specs::BlockState::rcv_wnd))]
    pub fn rcv_wnd(&self) -> u32
        ensures is { result ≡ rcv_wnd self.now }
        ensures small { result ≤ whole_space }
        ensures fits { result ≤ self.now.recv.edge - self.now.recv.taken }
    {
        self.recv.window()
    }

    /// The sequence number behind the last byte that was sent.
    #[tactic(auto, unfolding(crate::specs::BlockState::snd_end))]
    fn snd_end(&self) -> u32
        ensures { result ≡ snd_end self.now }
    {
        let low = (self.sent & 0xffff_ffff) as u32;
        self.iss.wrapping_add(1).wrapping_add(low)
    }

    /// How many bytes of text were sent and aren't acknowledged.
    pub fn in_flight(&self) -> u32
        ensures flight { result ≡ in_flight self.now }
        ensures held { result ≤ length self.now.out }
    {
        (self.sent - self.acked) as u32
    }

    /// How many bytes of text were offered and aren't sent yet.
    #[tactic(auto, unfolding(crate::specs::BlockState::unsent))]
    pub fn unsent(&self) -> u32
        ensures { result ≡ length (unsent self.now) }
    {
        self.send.held() - self.in_flight()
    }

    /// Our FIN was sent, and all was acknowledged.
    #[tactic(auto, unfolding(crate::specs::TcpStep::is_fin_acked))]
    fn is_fin_acked(&self) -> bool
        ensures { result ≡ is_fin_acked self.now }
    {
        self.fin_sent && self.una == self.snd_nxt()
    }

    /// Back to LISTEN: all is as new but for the receive space asked for, the retransmissions made, the clock and the replies.
    #[tactic(auto, unfolding(crate::specs::BlockState::to_listen))]
    fn go_to_listen(&mut self, alloc: Global)
        ensures { self.new ≡ to_listen self.old }
    {
        self.state = State::Listen;
        self.iss = 0;
        self.irs = 0;
        self.una = 0;
        self.wnd = 0;
        self.wl1 = 0;
        self.wl2 = 0;
        self.agreed = Agreed::nothing();
        self.recv = RecvQueue::make(alloc, self.want);
        self.send = SendQueue::make(alloc);
        self.acked = 0;
        self.sent = 0;
        self.fin_wanted = false;
        self.fin_sent = false;
        self.rto = FIRST_TIMEOUT;
        self.retransmit_at = None;
        self.time_wait_at = None;
        self.ack_due = false;
    }

    /// Into TIME-WAIT, for twice the maximum segment lifetime of 120 s.
    #[tactic(auto, unfolding(crate::specs::TcpStep::in_time_wait))]
    fn wait(&mut self)
        requires open { is_listen self.old.state ≡ false }
        ensures { self.new ≡ in_time_wait self.old }
    {
        self.state = State::TimeWait;
        self.time_wait_at = Some(self.clock + TIME_WAIT);
        self.retransmit_at = None;
    }
}
