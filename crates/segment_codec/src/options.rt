//! The options of a TCP header (RFC 9293, 3.2): what they say, read from bytes and written to bytes. A walk over bytes stops at the
//! first option that is broken, and refuses nothing.
//!
//! An option more is a field of `Options`, the reading of it in `read`, and its words in `words`.

ghost use Rattle.std.specs.Prelude.{◌≡◌, ◌<◌, ◌≤◌, length, false, None, Some, MatchOption, IfSome, flat_map};
ghost use Rattle.segment_codec.specs.Options.{is_end, is_broken, option_size, is_option, first_option, no_options, options_read, option_bytes};
ghost use Rattle.segment_codec.specs.Options.{mss_in, mss_bytes, scale_in, scale_bytes, word_bytes};

use crate::places::word_at;

/// What the options of a segment say; None where one isn't carried.
#[derive(Clone, Copy, Debug, PartialEq, Eq)]
pub struct Options {
    /// The maximum segment size, in bytes (RFC 9293, 3.7.1).
    pub mss: Option<u16>,
    /// The shift of the window scale (RFC 7323, 2.2).
    pub scale: Option<u8>,
}

impl Options {
    /// Those of a segment without options.
    pub fn none() -> Options
        ensures { result ≡ no_options }
    {
        Options {
            mss: None,
            scale: None,
        }
    }

    /// What these bytes say. The first option of a kind counts, and one of another length than its kind's is passed over.
    #[tactic(auto, unfolding(crate::specs::Options::options_read))]
    pub(crate) fn read(bytes: &[u8]) -> Options
        ensures { result ≡ options_read bytes.now }
    {
        Options {
            mss: mss_in(bytes),
            scale: scale_in(bytes),
        }
    }

    /// The bytes of these options, in words of four: each option fills whole ones, and None stands where one isn't carried.
    pub(crate) fn words(&self) -> [Option<u32>; 2]
        ensures { flat_map word_bytes result ≡ option_bytes self.now }
    {
        [mss_word(self.mss), scale_word(self.scale)]
    }
}

#[tactic(auto, unfolding(crate::specs::Options::mss_in))]
fn mss_in(options: &[u8]) -> Option<u16>
    ensures { result ≡ mss_in options.now }
{
    match first_option(options, 2, 4) {
        Some(option) => Some(word_at(option, 2)),
        None => None,
    }
}

fn mss_word(mss: Option<u16>) -> Option<u32>
    ensures { word_bytes result ≡ mss_bytes mss }
{
    match mss {
        Some(mss) => Some(0x0204_0000 + u32::from(mss)),
        None => None,
    }
}

#[tactic(auto, unfolding(crate::specs::Options::scale_in))]
fn scale_in(options: &[u8]) -> Option<u8>
    ensures { result ≡ scale_in options.now }
{
    match first_option(options, 3, 3) {
        Some(option) => Some(option[2]),
        None => None,
    }
}

/// A byte of kind 1 stands before the option.
fn scale_word(scale: Option<u8>) -> Option<u32>
    ensures { word_bytes result ≡ scale_bytes scale }
{
    match scale {
        Some(shift) => Some(0x0103_0300 + u32::from(shift)),
        None => None,
    }
}

/// The first option of a kind that has this size, with its kind and its length byte.
fn first_option(options: &[u8], kind: u8, size: usize) -> Option<&[u8]>
    ensures found { MatchOption result (first_option kind size options.now ≡ None) (λ option. first_option kind size options.now ≡ Some option.now) }
    ensures whole { IfSome result (λ option. length option.now ≡ size) }
{
    let mut rest = options;
    while !is_end(rest) {
        let (option, others) = rest.split_at(option_size(rest));
        if is_option(option, kind, size) {
            return Some(option);
        }
        rest = others;
    }
    None
}

/// Whether no option begins here.
fn is_end(rest: &[u8]) -> bool
    ensures { result ≡ is_end rest.now }
{
    rest.is_empty() || rest[0] == 0 || rest[0] != 1 && is_broken(rest)
}

/// Whether the length byte is missing, is below 2, or reaches past the end.
fn is_broken(rest: &[u8]) -> bool
    ensures { result ≡ is_broken rest.now }
{
    rest.len() < 2 || rest[1] < 2 || rest.len() < usize::from(rest[1])
}

/// How many bytes the option that begins here takes.
#[tactic(auto, using(crate::proofs::OptionLemmas::option_size_within))]
fn option_size(rest: &[u8]) -> usize
    requires { is_end rest.now ≡ false }
    ensures value { result ≡ option_size rest.now }
    ensures some { 0 < result }
    ensures within { result ≤ length rest.now }
{
    if rest[0] == 1 {
        1
    } else {
        usize::from(rest[1])
    }
}

fn is_option(option: &[u8], kind: u8, size: usize) -> bool
    requires { 0 < length option.now }
    ensures { result ≡ is_option kind size option.now }
{
    option[0] == kind && option.len() == size
}
