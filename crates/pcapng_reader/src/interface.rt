//! An interface: how much of a packet it keeps, and what its packets' ticks are worth.

ghost use Rattle.std.specs.Prelude.{◌≡◌, ◌+◌, ◌*◌, ◌/◌, ◌-◌, ◌^◌, ◌<◌, ◌≤◌, length};
ghost use Rattle.capture_reader.specs.Limits.{latest_time};
ghost use Rattle.pcapng_reader.specs.Numbers.{padded};
ghost use Rattle.pcapng_reader.specs.Options.{resolution, ticks_per_second, time_of};
ghost use Rattle.pcapng_reader.specs.Blocks.{interface_in};
ghost use Rattle.pcapng_reader.specs.Limits.{least_interface};

use crate::frame::LEAST_INTERFACE;
use crate::order::{Order, rest_at};
use capture_reader::LATEST_TIME;

/// The resolution without an option: microseconds.
const MICROS: u8 = 6;

/// An interface of a section (draft-ietf-opsawg-pcapng, section 4.2).
#[derive(Clone, Copy, Debug, PartialEq, Eq)]
pub struct Interface {
    /// The most captured bytes of a packet, and 0 for no limit.
    pub snapshot: u32,
    /// A tick is 10^-v seconds, or 2^-(v - 128) seconds from 128 on.
    pub resolution: u8,
}

impl Interface {
    /// The interface that a whole block describes.
    pub fn of(order: Order, block: &[u8]) -> Interface
        requires { least_interface ≤ length block.now }
        ensures { result ≡ interface_in order block.now }
    {
        let options = rest_at(block, 16)
            .split_at(block.len() - LEAST_INTERFACE as usize)
            .0;
        Interface {
            snapshot: order.u32_at(block, 12),
            resolution: resolution(order, options),
        }
    }
}

/// A length with the bytes that fill it up to a multiple of four.
pub fn padded(len: usize) -> usize
    requires { len < 2 ^ 32 }
    ensures { result ≡ padded len }
{
    (len + 3) / 4 * 4
}

/// The first resolution among the options, or microseconds.
fn resolution(order: Order, options: &[u8]) -> u8
    ensures { result ≡ resolution order options.now }
{
    let mut rest = options;
    while rest.len() >= 4 {
        let code = order.u16_at(rest, 0);
        let len = order.u16_at(rest, 2);
        let size = 4 + padded(len as usize);
        if code == 0 || rest.len() < size {
            return MICROS;
        }
        if code == 9 && len == 1 {
            return rest[4];
        }
        rest = rest_at(rest, size);
    }
    MICROS
}

/// The time after so many ticks of this resolution, in whole microseconds.
#[tactic(auto, unfolding(crate::specs::Options::time_of))]
pub fn time_of(resolution: u8, ticks: u64) -> u64
    ensures value { result ≡ time_of resolution ticks }
    ensures most { result ≤ latest_time }
{
    let micros = micros(resolution, u128::from(ticks));
    if micros < u128::from(LATEST_TIME) {
        micros as u64
    } else {
        LATEST_TIME
    }
}

/// The whole microseconds of so many ticks.
fn micros(resolution: u8, ticks: u128) -> u128
    requires { ticks < 2 ^ 64 }
    ensures { result ≡ ticks * 1000000 / ticks_per_second resolution }
{
    if resolution == MICROS {
        return ticks;
    }
    let whole = ticks * 1_000_000;
    if resolution >= 128 {
        whole >> (resolution - 128)
    } else {
        over_power_of_ten(whole, resolution)
    }
}

/// A number over 10^v, which is 0 from 10^26 on.
fn over_power_of_ten(whole: u128, v: u8) -> u128
    requires { whole < 10 ^ 26 }
    ensures { result ≡ whole / 10 ^ v }
{
    if v >= 26 {
        return 0;
    }
    whole / power_of_ten(v)
}

fn power_of_ten(v: u8) -> u128
    requires { v < 26 }
    ensures { result ≡ 10 ^ v }
{
    let mut power = 1u128;
    for i in 0..v {
        power *= 10;
    }
    power
}
