//! The packets of a capture, decoded in several threads.

ghost use Rattle.std.specs.Prelude.{◌≡◌, ℕ, ◌+◌, ◌<◌, ◌≤◌, IfOk, length, get_or};
ghost use Rattle.capture_reader.specs.Limits.{most_records};
ghost use Rattle.conn_classifier.specs.Connections.{decoded};
ghost use Rattle.segment_codec.specs.declared.packet.Packet.{Packet};

use capture_reader::Capture;
use rayon::prelude::par_chunks_mut_for_each;
use segment_codec::{Packet, decode};
use std::alloc::{AllocError, Global};
use std::thread::Threads;

/// How many records a thread decodes before it takes more.
const CHUNK: usize = 8192;

/// The packet of each record, in the order of the records. A capture has at most 1,048,576.
pub fn decode_all(
    rt: &(impl Threads + Sync),
    alloc: Global,
    capture: &Capture,
    verify: bool,
) -> Result<Vec<Packet>, AllocError>
    ensures value { IfOk result (λ v. v.items ≡ decoded capture.now verify) }
    ensures most { IfOk result (λ v. length v.items ≤ most_records) }
{
    let mut packets = vec![in alloc; Packet::Other; capture.len() as usize]?;
    par_chunks_mut_for_each(
        rt,
        packets.as_mut_slice(),
        CHUNK,
        |at: usize, chunk: &mut [Packet]|
            requires { (at + length chunk.now ≤ length capture.now.packets) × (length capture.now.packets ≤ most_records) }
            ensures { (k : ℕ) (d : Packet) → k < length chunk.old → get_or chunk.new k d ≡ get_or (decoded capture.entry.now verify) (at + k) d }
        { decode_from(capture, verify, at, chunk) },
    );
    Ok(packets)
}

/// The packets of the records from number `at` on, one at each place.
fn decode_from(capture: &Capture, verify: bool, at: usize, places: &mut [Packet])
    requires few { length capture.now.packets ≤ most_records }
    requires within { at + length places.old ≤ length capture.now.packets }
    ensures { (k : ℕ) (d : Packet) → k < length places.old → get_or places.new k d ≡ get_or (decoded capture.now verify) (at + k) d }
{
    for k in 0..places.len() {
        places[k] = decode(capture.link(), capture.body((at + k) as u32), verify);
    }
}
