//! What the options of a SYN and of our SYN,ACK agree on, as `specs/Agreed.antt` has it. An option more that TCP minds is a field of
//! `Agreed`, what a SYN makes of it in `taken_from`, and what is said of it in `announced`.

ghost use Rattle.std.specs.Prelude.{◌≡◌, ◌≤◌};
ghost use Rattle.tcb_machine.specs.Agreed.{nothing_agreed, send_mss, send_shift, taken_from, announced, space_of};
ghost use Rattle.tcb_machine.specs.Limits.{least_mss, most_mss, most_shift};

use crate::limits::{DEFAULT_MSS, LEAST_MSS, MOST_MSS, MOST_SHIFT, OUR_SHIFT, PLAIN_SPACE};
use segment_codec::Options;

/// What both sides agreed on.
#[derive(Clone, Copy, Debug, PartialEq, Eq)]
pub struct Agreed {
    /// The most text of a segment that is sent, in bytes (RFC 9293, 3.7.1).
    pub mss: u16,
    /// The SYN carried a window scale, and so does our SYN,ACK.
    pub scaled: bool,
    /// The shift of the windows that arrive (Snd.Wind.Shift; RFC 7323, 2.2).
    pub snd_shift: u8,
}

impl Agreed {
    /// Before a SYN.
    pub(crate) fn nothing() -> Agreed
        ensures { result ≡ nothing_agreed }
    {
        Agreed {
            mss: DEFAULT_MSS,
            scaled: false,
            snd_shift: 0,
        }
    }

    /// What is taken from the options of a SYN.
    pub(crate) fn taken_from(options: &Options) -> Agreed
        ensures is { result ≡ taken_from options.now }
        ensures least { least_mss ≤ result.mss }
        ensures most { result.mss ≤ most_mss }
        ensures shift { result.snd_shift ≤ most_shift }
    {
        Agreed {
            mss: send_mss(options.mss),
            scaled: options.scale.is_some(),
            snd_shift: send_shift(options.scale),
        }
    }

    /// The options of the SYN,ACK: our MSS, and our window scale where the SYN carried one.
    pub(crate) fn announced(&self) -> Options
        ensures { result ≡ announced self.now }
    {
        Options {
            mss: Some(MOST_MSS),
            scale: if self.scaled { Some(OUR_SHIFT) } else { None },
        }
    }

    /// The receive space in bytes, where so much is asked for.
    pub(crate) fn space_of(&self, want: u32) -> u32
        ensures { result ≡ space_of self.now want }
    {
        if self.scaled {
            want
        } else {
            want.min(PLAIN_SPACE)
        }
    }
}

/// SendMSS (3.7.1): the option's value from 64 to 1,460, or 536 without it.
fn send_mss(mss: Option<u16>) -> u16
    ensures { result ≡ send_mss mss }
{
    match mss {
        None => DEFAULT_MSS,
        Some(n) => n.max(LEAST_MSS).min(MOST_MSS),
    }
}

/// Snd.Wind.Shift: the option's value, up to 14, or 0 without it (RFC 7323, 2.3).
fn send_shift(scale: Option<u8>) -> u8
    ensures { result ≡ send_shift scale }
{
    match scale {
        None => 0,
        Some(shift) => shift.min(MOST_SHIFT),
    }
}
