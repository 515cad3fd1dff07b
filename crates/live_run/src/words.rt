//! The words of the command line.

ghost use Rattle.std.specs.Prelude.{◌≡◌, ◌<◌, map};
ghost use Rattle.std.specs.String.{string_bytes};
ghost use Rattle.shell.specs.Numbers.{numeral};
ghost use Rattle.live_run.specs.Words.{address_of, asked, device_asked, frames_asked, host_in, length_of, pings_in, secret_of, setting_of};

use crate::marking_words::marking_in;
use crate::port_words::ports_in;
use byteorder::{BigEndian, ByteOrder};
use hex::decode_to_slice;
use live_server::{Secret, Setting};
use shell::numeral;
use sq_base::Addr;

/// Where datagrams come from and go to.
#[derive(Clone, Copy)]
pub enum Medium {
    /// Frames, with the secret behind the initial sequence numbers.
    Frames(Secret),
    /// A device. Its secret is nobody's to give.
    Device,
}

/// What is asked for.
#[derive(Drop)]
pub struct ServerWords {
    pub mode: Medium,
    pub setting: Setting,
}

/// What the words behind the program's name ask for, where they do.
pub fn asked_in(words: &[String]) -> Option<ServerWords>
    ensures { result ≡ asked (map (λ s. string_bytes s) words.now) }
{
    let [mode, rest @ ..] = words else {
        return None;
    };
    match mode.as_str() {
        "frames" => frames_asked(rest),
        "device" => device_asked(rest),
        _ => None,
    }
}

fn frames_asked(words: &[String]) -> Option<ServerWords>
    ensures { result ≡ frames_asked (map (λ s. string_bytes s) words.now) }
{
    let [secret, rest @ ..] = words else {
        return None;
    };
    Some(ServerWords {
        mode: Medium::Frames(secret_of(secret.as_str())?),
        setting: setting_of(rest)?,
    })
}

fn device_asked(words: &[String]) -> Option<ServerWords>
    ensures { result ≡ device_asked (map (λ s. string_bytes s) words.now) }
{
    Some(ServerWords {
        mode: Medium::Device,
        setting: setting_of(words)?,
    })
}

/// The address that is answered for and the network's broadcast address, each as eight hexadecimal digits, how many connections are
/// kept, after how many seconds one is idle, how many bytes all may hold, and how many a segment that is sent; then, where they are given,
/// TTL and DSCP, the ports of the services, how many echo requests are answered from tick to tick, and the address of the host whose orders are obeyed.
fn setting_of(words: &[String]) -> Option<Setting>
    ensures { result ≡ setting_of (map (λ s. string_bytes s) words.now) }
{
    let [address, broadcast, places, idle, bytes, segment, rest @ ..] = words else {
        return None;
    };
    let (marking, rest) = marking_in(rest)?;
    Some(Setting {
        address: address_of(address.as_str())?,
        broadcast: address_of(broadcast.as_str())?,
        places: numeral(places.as_str())? as usize,
        idle: u64::from(numeral(idle.as_str())?) * 1_000_000,
        bytes: u64::from(numeral(bytes.as_str())?),
        segment: length_of(segment.as_str())?,
        marking,
        ports: ports_in(rest)?,
        pings: pings_in(rest)?,
        site: None,
        host: host_in(rest)?,
    })
}

/// How many echo requests are answered from tick to tick: 1,000 without the word behind that of the ports.
fn pings_in(words: &[String]) -> Option<u32>
    ensures { result ≡ pings_in (map (λ s. string_bytes s) words.now) }
{
    match words {
        [] | [_] => Some(1000),
        [_, word, ..] => numeral(word.as_str()),
    }
}

/// The host whose orders are obeyed, where its address stands behind that word.
fn host_in(words: &[String]) -> Option<Option<Addr>>
    ensures { result ≡ host_in (map (λ s. string_bytes s) words.now) }
{
    match words {
        [] | [_] | [_, _] => Some(None),
        [_, _, word] => Some(Some(address_of(word.as_str())?)),
        _ => None,
    }
}

fn secret_of(word: &str) -> Option<Secret>
    ensures { result ≡ secret_of word.now }
{
    let mut bytes = [0u8; 16];
    match decode_to_slice(word, &mut bytes) {
        Ok(()) => Some(Secret(bytes)),
        Err(_) => None,
    }
}

fn address_of(word: &str) -> Option<Addr>
    ensures { result ≡ address_of word.now }
{
    let mut bytes = [0u8; 4];
    match decode_to_slice(word, &mut bytes) {
        Ok(()) => Some(Addr(BigEndian::read_u32(&bytes))),
        Err(_) => None,
    }
}

/// A number below 2^16.
fn length_of(word: &str) -> Option<u16>
    ensures { result ≡ length_of word.now }
{
    let value = numeral(word)?;
    if value < 1 << 16 {
        Some(value as u16)
    } else {
        None
    }
}
