//! One item is served.

ghost use Rattle.std.specs.Prelude.{◌≡◌, ◌+◌, ◌<◌, ◌≤◌, ◌^◌, ◌++◌, IfSome, OnOk, length, slice_get};
ghost use Rattle.byte_queues.specs.ReceiveQueue.{next_of};
ghost use Rattle.tcb_machine.specs.BlockState.{offered};
ghost use Rattle.tcb_machine.specs.Room.{HasRoom};
ghost use Rattle.chargen_service.specs.Chargen.{enters};
ghost use Rattle.conn_classifier.specs.Plan.{IsInside, time_of};
ghost use Rattle.stream_plan.specs.Sound.{HasText};
ghost use Rattle.datagram_services.specs.Items.{answers_to, entry_of, text_in};

use crate::answer::SentDatagram;
use capture_reader::Capture;
use chargen_service::GenBlock;
use conn_classifier::Item;
use sq_base::{ECHO_PORT, Tuple};
use std::alloc::{AllocError, Global};
use stream_plan::ServedDatagram;
use udp_codec::encode_udp;

/// Echo answers the datagram at its time with the same text, discard with nothing. Fails only for want of memory.
pub fn answer(
    answers: &mut Vec<SentDatagram>,
    alloc: Global,
    capture: &Capture,
    tuple: &Tuple,
    datagram: &ServedDatagram,
) -> Result<(), AllocError>
    requires { HasText capture.now datagram.now }
    ensures { OnOk result (answers.new.items ≡ answers.old.items ++ answers_to capture.now tuple.now datagram.now) }
{
    if tuple.server_port == ECHO_PORT {
        let udp = datagram.udp;
        let text = text_at(capture, datagram.rec, udp.text_from, udp.text_len);
        let sent = encode_udp(alloc, tuple, text)?;
        answers.push(SentDatagram {
            at: datagram.at,
            datagram: sent,
        })?;
    }
    Ok(())
}

/// The item comes to the generator's block. Fails only for want of memory.
pub fn enter(
    generator: &mut GenBlock,
    alloc: Global,
    capture: &Capture,
    item: &Item,
) -> Result<(), AllocError>
    requires inside { IsInside capture.now item.now }
    requires clock { generator.old.block.clock ≤ time_of item.now }
    requires time { time_of item.now ≤ 2 ^ 62 }
    requires room { HasRoom generator.old.block }
    ensures step { OnOk result (generator.new ≡ enters (entry_of capture.now item.now) generator.old) }
    ensures clock { OnOk result (generator.new.block.clock ≡ time_of item.now) }
    ensures next { OnOk result (next_of generator.new.block.recv ≤ next_of generator.old.block.recv + 2 ^ 20) }
    ensures offered { OnOk result (offered generator.new.block ≤ offered generator.old.block + 2 ^ 16) }
{
    match *item {
        Item::Time { at } => generator.time(alloc, at),
        Item::Segment { at, rec, iss, seg } => {
            let text = text_at(capture, rec, seg.text_from, seg.text_len);
            generator.segment(alloc, at, iss, &seg, text)
        }
    }
}

// A text of the capture: so many bytes of a record's body, from a place on.
fn text_at(capture: &Capture, rec: u32, from: u32, len: u32) -> &[u8]
    requires rec { rec < length capture.now.packets }
    requires within { IfSome (slice_get capture.now.packets rec) (λ r. from + len ≤ length r.body) }
    ensures text { result.now ≡ text_in capture.now rec from len }
    ensures len { length result.now ≡ len }
{
    let from = from as usize;
    &capture.body(rec)[from..from + len as usize]
}
