//! A congestion window beside a block (RFC 5681, RFC 6582, RFC 3042). It acts on the block by the window field of the segments that the
//! block sees, and by what is sent again.

ghost use Rattle.std.specs.Prelude.{◌≡◌, ◌+◌, ◌*◌, ◌<◌, ◌≤◌, if◌then◌else◌};
ghost use Rattle.sq_base.specs.SerialOrder.{dist};
ghost use Rattle.tcb_machine.specs.BlockState.{in_flight};
ghost use Rattle.tcb_machine.specs.Limits.{last_time, longest_timeout};
ghost use Rattle.live_server.specs.Congestion.{acknowledges, again_up_to, begins_recovery, begun, bounded, calls_again, eased, first_segment, first_window, flight, grown, halved, is_at_recover, is_duplicate, is_fresh};
ghost use Rattle.live_server.specs.Congestion.{is_open, is_slow, no_congestion, noted, reaches, recovers, reopens, repeated, rested, restarted, seen, seen_window, segments, slowly, timed_out, tolerance, under_way, usable, within};

use crate::timing::{Mark, is_sending};
use segment_codec::{ACK, FIN, RST, SYN, Seg};
use sq_base::seq_dist;
use tcb_machine::{State, Tcb};

/// cwnd at first, in bytes, where segments have neither fewer than 1,460 bytes of text nor more than 7,300 (RFC 6928, 2).
const FIRST_WINDOW: u32 = 14_600;

/// The most that cwnd becomes, in bytes.
const MOST_WINDOW: u32 = 131_072;

/// What is known of the path to the peer. Windows are in bytes.
#[derive(Clone, Copy, Debug, PartialEq, Eq)]
pub struct Congestion {
    /// cwnd, which is 0 before the handshake, and ssthresh.
    pub window: u32,
    pub threshold: u32,
    /// How many duplicate acknowledgements came since the last new one.
    pub duplicates: u32,
    /// In recovery, up to SND.NXT as it was when that began. Behind it, where SND.UNA is still there, no other one begins.
    pub recovering: bool,
    /// Which the retransmission timer began: it goes by slow start.
    pub slow: bool,
    pub recover: u32,
    /// How many bytes from SND.UNA on were sent again since then.
    pub again: u32,
    /// The peer's last window field.
    pub field: u16,
    /// When text was last sent, in microseconds.
    pub sent: u64,
}

impl Congestion {
    /// Nothing is known yet.
    pub fn fresh() -> Congestion
        ensures { result ≡ no_congestion }
    {
        Congestion {
            window: 0,
            threshold: MOST_WINDOW,
            duplicates: 0,
            recovering: false,
            slow: false,
            recover: 0,
            again: 0,
            field: 0,
            sent: 0,
        }
    }

    /// Where nothing is under way and no text was sent for longer than RTO, cwnd falls to the restart window (RFC 5681, 4.1). Times are in
    /// microseconds.
    #[tactic(auto, unfolding(crate::specs::Congestion::rested))]
    pub fn rest(&mut self, tcb: &Tcb, now: u64, rto: u64)
        requires most { rto ≤ longest_timeout }
        requires time { now ≤ last_time }
        ensures { self.new ≡ rested now rto tcb.now self.old }
    {
        if flight(tcb) == 0 && self.sent.saturating_add(rto) < now {
            self.window = self.window.min(first_window(tcb.mss()));
        }
    }

    /// Whether text was sent is noted.
    #[tactic(auto, unfolding(crate::specs::Congestion::noted))]
    pub fn note(&mut self, tcb: &Tcb, before: Mark, now: u64, again: bool)
        ensures { self.new ≡ noted now again before tcb.now self.old }
    {
        if again || is_sending(tcb, before) {
            self.sent = now;
        }
    }

    /// A segment comes, before the block sees it.
    #[tactic(auto, unfolding(crate::specs::Congestion::eased))]
    pub fn ease(&mut self, tcb: &Tcb, seg: &Seg)
        ensures { self.new ≡ eased seg.now tcb.now self.old }
    {
        if matches!(tcb.state(), State::SynReceived) {
            self.begin(tcb);
        } else if is_fresh(tcb, seg) {
            self.acknowledge(tcb, seg);
        } else if self.is_duplicate(tcb, seg) {
            self.repeat(tcb);
        }
        self.field = seg.wnd;
    }

    /// Whether a segment tells, before the block sees it, that the first segment that isn't acknowledged is to be sent again.
    #[tactic(auto, unfolding(crate::specs::Congestion::calls_again))]
    pub fn calls_again(&self, tcb: &Tcb, seg: &Seg) -> bool
        ensures { result ≡ calls_again seg.now tcb.now self.now }
    {
        if is_fresh(tcb, seg) {
            self.recovering && !self.reaches(seg.ack)
        } else {
            self.reopens(tcb, seg) || (self.is_duplicate(tcb, seg) && self.begins_recovery(tcb))
        }
    }

    /// Whether the peer's window was 0, and opens.
    #[tactic(auto, unfolding(crate::specs::Congestion::reopens))]
    fn reopens(&self, tcb: &Tcb, seg: &Seg) -> bool
        ensures { result ≡ reopens seg.now tcb.now self.now }
    {
        seg.flags & ACK != 0
            && is_open(tcb)
            && seg.ack == tcb.snd_una()
            && self.field == 0
            && seg.wnd != 0
    }

    /// Whether fast recovery begins with the next duplicate.
    fn begins_recovery(&self, tcb: &Tcb) -> bool
        ensures { result ≡ begins_recovery tcb.now self.now }
    {
        !self.recovering
            && !self.is_at_recover(tcb)
            && u64::from(self.duplicates) + 1 >= tolerance(tcb, self.within(tcb))
    }

    /// Whether nothing was acknowledged beyond the last recovery (RFC 6582, 3.2).
    fn is_at_recover(&self, tcb: &Tcb) -> bool
        ensures { result ≡ is_at_recover tcb.now self.now }
    {
        tcb.snd_una() == self.recover
    }

    /// FlightSize without what limited transmit sent.
    fn within(&self, tcb: &Tcb) -> u32
        ensures { result ≡ within tcb.now self.now }
    {
        flight(tcb).min(self.window)
    }

    /// Whether slow start brings all again that was under way when the timer fired.
    pub fn is_slow(&self) -> bool
        ensures { result ≡ is_slow self.now }
    {
        self.recovering && self.slow
    }

    /// Up to which offset from SND.UNA what was under way may go again, where the peer's window has so many bytes.
    #[tactic(auto, unfolding(crate::specs::Congestion::again_up_to))]
    pub fn again_up_to(&self, tcb: &Tcb, window: u32) -> u32
        ensures is { result ≡ again_up_to window tcb.now self.now }
        ensures sent { self.now.again < result → result ≤ in_flight tcb.now }
    {
        let all = self.under_way(tcb);
        let most = window.min(self.window);
        if all <= most {
            return self.again.max(all);
        }
        let mss = u32::from(tcb.mss());
        self.again + most.saturating_sub(self.again) / mss * mss
    }

    fn under_way(&self, tcb: &Tcb) -> u32
        ensures { result ≡ under_way tcb.now self.now }
    {
        tcb.in_flight().min(seq_dist(tcb.snd_una(), self.recover))
    }

    /// The segment as the block is to see it.
    pub fn seen(&self, tcb: &Tcb, seg: &Seg) -> Seg
        ensures { result ≡ seen seg.now tcb.now self.now }
    {
        Seg {
            wnd: self.seen_window(tcb, seg),
            ..*seg
        }
    }

    #[tactic(auto, unfolding(crate::specs::Congestion::seen_window))]
    fn seen_window(&self, tcb: &Tcb, seg: &Seg) -> u16
        ensures { result ≡ seen_window seg.now tcb.now self.now }
    {
        if seg.flags & SYN != 0 || seg.wnd == 0 {
            return seg.wnd;
        }
        let most = self.usable(tcb) >> u64::from(tcb.snd_shift());
        u64::from(seg.wnd).min(most).max(1) as u16
    }

    /// How much may be under way: one segment more for each of the first two duplicates (RFC 3042).
    fn usable(&self, tcb: &Tcb) -> u64
        ensures is { result ≡ usable tcb.now self.now }
    {
        u64::from(self.window) + u64::from(self.duplicates.min(2)) * u64::from(tcb.mss())
    }

    /// The retransmission timer of the block has fired.
    #[tactic(auto, unfolding(crate::specs::Congestion::timed_out))]
    pub fn time_out(&mut self, tcb: &Tcb)
        ensures { self.new ≡ timed_out tcb.now self.old }
    {
        self.window = u32::from(tcb.mss());
        self.threshold = halved(tcb, flight(tcb));
        self.duplicates = 0;
        self.recovering = true;
        self.slow = true;
        self.recover = tcb.snd_nxt();
        self.again = first_segment(tcb);
        self.sent = tcb.clock();
    }

    /// A router dropped what was too long for the path (RFC 1191, 6.4).
    #[tactic(auto, unfolding(crate::specs::Congestion::restarted))]
    pub fn restart(&mut self, tcb: &Tcb)
        ensures { self.new ≡ restarted tcb.now self.old }
    {
        let mss = u32::from(tcb.mss());
        if !self.recovering {
            self.threshold = self.window.max(2 * mss);
        }
        self.window = mss;
        self.duplicates = 0;
        self.recovering = true;
        self.slow = false;
        self.recover = tcb.snd_nxt();
    }

    /// The handshake goes on, and the MSS is known.
    #[tactic(auto, unfolding(crate::specs::Congestion::begun))]
    fn begin(&mut self, tcb: &Tcb)
        ensures { self.new ≡ begun tcb.now self.old }
    {
        if self.recovering {
            return;
        }
        self.window = first_window(tcb.mss());
        self.recover = tcb.snd_una();
    }

    /// New bytes are acknowledged.
    fn acknowledge(&mut self, tcb: &Tcb, seg: &Seg)
        ensures { self.new ≡ acknowledges (dist tcb.now.una seg.now.ack) seg.now tcb.now self.old }
    {
        let count = seq_dist(tcb.snd_una(), seg.ack);
        if self.is_slow() {
            self.go_slowly(tcb, seg, count);
        } else if self.recovering {
            self.recover(tcb, seg, count);
        } else {
            self.grow(tcb, count);
        }
    }

    #[tactic(auto, unfolding(crate::specs::Congestion::slowly, crate::specs::Congestion::grown))]
    fn go_slowly(&mut self, tcb: &Tcb, seg: &Seg, count: u32)
        ensures { self.new ≡ slowly count seg.now tcb.now self.old }
    {
        let ends = self.reaches(seg.ack);
        self.grow(tcb, count);
        self.recovering = !ends;
        self.slow = !ends;
        self.again = self.again.saturating_sub(count);
    }

    #[tactic(auto, unfolding(crate::specs::Congestion::recovers))]
    fn recover(&mut self, tcb: &Tcb, seg: &Seg, count: u32)
        ensures { self.new ≡ recovers count seg.now tcb.now self.old }
    {
        if self.reaches(seg.ack) {
            self.window = self.threshold;
            self.duplicates = 0;
            self.recovering = false;
        } else {
            let mss = u32::from(tcb.mss());
            let back = if mss <= count { mss } else { 0 };
            self.window = sum(self.window.saturating_sub(count), back).max(2 * mss);
        }
    }

    fn reaches(&self, ack: u32) -> bool
        ensures { result ≡ reaches ack self.now }
    {
        seq_dist(self.recover, ack) < 1 << 31
    }

    #[tactic(auto, unfolding(crate::specs::Congestion::grown))]
    fn grow(&mut self, tcb: &Tcb, count: u32)
        ensures { self.new ≡ grown count tcb.now self.old }
    {
        let mss = u32::from(tcb.mss());
        let more = if self.window < self.threshold {
            count.min(mss)
        } else {
            (square(tcb) / self.window.max(1)).max(1)
        };
        self.window = sum(self.window, more);
        self.duplicates = 0;
    }

    /// One duplicate acknowledgement more.
    #[tactic(auto, unfolding(crate::specs::Congestion::repeated))]
    fn repeat(&mut self, tcb: &Tcb)
        ensures { self.new ≡ repeated tcb.now self.old }
    {
        let mss = u32::from(tcb.mss());
        if self.recovering {
            if !self.slow {
                self.window = sum(self.window, mss);
            }
        } else if self.begins_recovery(tcb) {
            self.threshold = halved(tcb, self.within(tcb));
            self.window = sum(self.threshold, 3 * mss);
            self.duplicates = 0;
            self.recovering = true;
            self.slow = false;
            self.recover = tcb.snd_nxt();
        } else if !self.is_at_recover(tcb) {
            self.duplicates += 1;
        }
    }

    #[tactic(auto, unfolding(crate::specs::Congestion::is_duplicate))]
    fn is_duplicate(&self, tcb: &Tcb, seg: &Seg) -> bool
        ensures { result ≡ is_duplicate seg.now tcb.now self.now }
    {
        if seg.flags & SYN != 0 || seg.flags & FIN != 0 || seg.flags & RST != 0 {
            return false;
        }
        seg.flags & ACK != 0
            && is_open(tcb)
            && seg.ack == tcb.snd_una()
            && flight(tcb) > 0
            && seg.text_len == 0
            && seg.wnd == self.field
            && seg.wnd != 0
    }
}

/// Whether new bytes are acknowledged.
#[tactic(auto, unfolding(crate::specs::Congestion::is_fresh))]
pub(crate) fn is_fresh(tcb: &Tcb, seg: &Seg) -> bool
    ensures { result ≡ is_fresh seg.now tcb.now }
{
    let count = seq_dist(tcb.snd_una(), seg.ack);
    seg.flags & ACK != 0 && is_open(tcb) && count > 0 && count <= flight(tcb)
}

pub(crate) fn is_open(tcb: &Tcb) -> bool
    ensures { result ≡ is_open tcb.now }
{
    !matches!(tcb.state(), State::Listen | State::SynReceived)
}

/// How many sequence numbers were sent and aren't acknowledged.
pub(crate) fn flight(tcb: &Tcb) -> u32
    ensures { result ≡ flight tcb.now }
{
    seq_dist(tcb.snd_una(), tcb.snd_nxt())
}

/// How many segments so many bytes are.
fn segments(tcb: &Tcb, count: u32) -> u64
    ensures is { result ≡ segments count tcb.now }
    ensures some { 1 ≤ result }
    ensures most { result ≤ 4294967296 }
{
    u64::from(count.saturating_sub(1)) / u64::from(tcb.mss()) + 1
}

fn halved(tcb: &Tcb, count: u32) -> u32
    ensures { result ≡ halved count tcb.now }
{
    (count / 2).max(2 * u32::from(tcb.mss()))
}

/// How many bytes of what is under way the timer has sent again.
fn first_segment(tcb: &Tcb) -> u32
    ensures { result ≡ first_segment tcb.now }
{
    u32::from(tcb.mss()).min(tcb.in_flight().min(tcb.snd_wnd().max(1)))
}

/// cwnd at first, by the most text of a segment.
fn first_window(mss: u16) -> u32
    ensures { result ≡ first_window mss }
{
    let mss = u32::from(mss);
    (10 * mss).min((2 * mss).max(FIRST_WINDOW))
}

/// How many duplicate acknowledgements tell a loss, where so many bytes are under way.
fn tolerance(tcb: &Tcb, bytes: u32) -> u64
    ensures { result ≡ tolerance bytes tcb.now }
{
    let count = segments(tcb, bytes);
    if 1 < count && count < 4 {
        count - 1
    } else {
        (2 * count / 3).max(3)
    }
}

/// The square of the most text of a segment.
fn square(tcb: &Tcb) -> u32
    ensures { result ≡ tcb.now.agreed.mss * tcb.now.agreed.mss }
{
    let mss = u32::from(tcb.mss());
    mss * mss
}

/// A sum, up to the most that a window becomes.
fn sum(a: u32, b: u32) -> u32
    ensures { result ≡ bounded (a + b) }
{
    (u64::from(a) + u64::from(b)).min(u64::from(MOST_WINDOW)) as u32
}
