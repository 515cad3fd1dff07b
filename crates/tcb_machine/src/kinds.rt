//! The states of a connection, and what is asked of it and answered.

ghost use Rattle.std.specs.Prelude.{◌≡◌};
ghost use Rattle.tcb_machine.specs.Endings.{ending_by, ending_by_segment, ending_by_time, is_over};
ghost use Rattle.tcb_machine.specs.States.{is_consumed};

use segment_codec::{RST, SYN, Seg};

/// The states of RFC 9293, 3.3.2, that a server side has. LISTEN stands for CLOSED too.
#[derive(Clone, Copy, Debug, PartialEq, Eq)]
pub enum State {
    Listen,
    SynReceived,
    Established,
    FinWait1,
    FinWait2,
    CloseWait,
    Closing,
    LastAck,
    TimeWait,
}

/// Whether pump and output are to follow.
#[derive(Clone, Copy, Debug, PartialEq, Eq)]
pub enum Next {
    Over,
    Go,
}

/// What a program asks of a connection (RFC 9293, 3.9.1).
#[derive(Clone, Copy, Debug, PartialEq, Eq)]
pub enum Call {
    /// The state and three counts of bytes.
    Status,
    /// The receive space, in bytes.
    Buffer(u16),
    /// No more is to be sent.
    Close,
}

/// What a call answers.
#[derive(Clone, Copy, Debug, PartialEq, Eq)]
pub enum Answer {
    /// Bytes received in order, bytes offered, and those of them that aren't acknowledged, since LISTEN.
    Status {
        state: State,
        received: u64,
        offered: u64,
        unacked: u32,
    },
    Done,
    /// A close in LISTEN or SYN-RECEIVED.
    NotOpen,
    /// A close after another one.
    Already,
}

/// Why a connection is over and its block back in LISTEN (RFC 9293, 3.10.7.4 and 3.10.8).
#[derive(Clone, Copy, Debug, PartialEq, Eq)]
pub enum Ending {
    /// RST at RCV.NXT.
    Reset,
    /// A SYN in the window of SYN-RECEIVED.
    SynAgain,
    /// The acknowledgement of our FIN in LAST-ACK.
    LastAck,
    /// All retransmissions of the block's life were made.
    GaveUp,
    /// TIME-WAIT is over.
    TimeWaitOver,
}

/// What a check of an arriving segment says: it is over, pump and output follow, or the next check does.
#[derive(Clone, Copy, Debug, PartialEq, Eq)]
pub enum Step {
    Over,
    Go,
    On,
}

/// Where an acknowledgement number stands: in SND.UNA < SEG.ACK =< SND.NXT, at SND.UNA, before it, or beyond SND.NXT.
#[derive(Clone, Copy, Debug, PartialEq, Eq)]
pub enum AckKind {
    Fresh,
    Equal,
    Old,
    Beyond,
}

/// The peer's FIN was consumed.
pub fn is_consumed(state: State) -> bool
    ensures { result ≡ is_consumed state }
{
    matches!(
        state,
        State::CloseWait | State::Closing | State::LastAck | State::TimeWait
    )
}

impl Ending {
    /// Why a connection is over that a segment and what followed it took from one state to another; `None` where it isn't over.
    pub fn by_segment(before: State, seg: &Seg, after: State) -> Option<Ending>
        ensures { result ≡ ending_by_segment before seg.now after }
    {
        if is_over(before, after) {
            Some(ending_by(seg))
        } else {
            None
        }
    }

    /// Why a connection is over that the timers took from one state to another; `None` where it isn't over.
    pub fn by_time(before: State, after: State) -> Option<Ending>
        ensures { result ≡ ending_by_time before after }
    {
        if !is_over(before, after) {
            None
        } else if matches!(before, State::TimeWait) {
            Some(Ending::TimeWaitOver)
        } else {
            Some(Ending::GaveUp)
        }
    }
}

fn is_over(before: State, after: State) -> bool
    ensures { result ≡ is_over before after }
{
    !matches!(before, State::Listen) && matches!(after, State::Listen)
}

fn ending_by(seg: &Seg) -> Ending
    ensures { result ≡ ending_by seg.now }
{
    if seg.flags & RST != 0 {
        Ending::Reset
    } else if seg.flags & SYN != 0 {
        Ending::SynAgain
    } else {
        Ending::LastAck
    }
}
