//! A run over frames: each is a datagram with its time, or the time alone.

ghost use Rattle.std.specs.Prelude.{◌≡◌, ◌++◌, ◌+◌, ◌≤◌, false, true, length, IfOk, OnErr, OnOk};
ghost use Rattle.std.specs.Io.{StartsWith};
ghost use Rattle.std.specs.List.{flat_map};
ghost use Rattle.live_server.specs.Frames.{answers, body_size, frame_at, frame_of, frames_in, is_broken, is_end, on_frame, rest_of, serves_frames, time_of, GrowsByFrames, HasAnswered};
ghost use Rattle.live_server.specs.Limits.{frame_head, most_body};
ghost use Rattle.live_server.specs.Serving.{server_of};
ghost use Rattle.live_server.specs.Told.{told_frame, told_frames};
ghost use Rattle.tcb_machine.specs.Limits.{last_time};

use crate::acting::Datagram;
use crate::conn_table::ConnTable;
use crate::rules::Rules;
use crate::server::Server;
use byteorder::{BigEndian, ByteOrder};
use std::alloc::{AllocError, Global};
use tcb_machine::LAST_TIME;

/// The most bytes of a datagram.
const MOST_BODY: u64 = 65_535;

/// The bytes of a frame before its body.
pub const FRAME_HEAD: usize = 16;

/// Serves the whole frames at the front of some bytes. What is sent goes as frames behind the bytes that are there. The answer
/// is what is left: nothing, less than a whole frame, or one that is broken. An error says that memory was missing: then what is sent
/// for a front of the frames went.
pub fn serve_frames<'a>(
    server: &mut Server,
    alloc: Global,
    bytes: &'a [u8],
    out: &mut Vec<u8>,
) -> Result<&'a [u8], AllocError>
    ensures server { OnOk result (server.new ≡ (serves_frames (frames_in bytes.now) server.old).server) }
    ensures sent { OnOk result (out.new.items ≡ out.old.items ++ answers bytes.now server.old) }
    ensures wrote { OnErr result (HasAnswered out.old.items out.new.items (frames_in bytes.now) server.old) }
    ensures rest { IfOk result (λ rest. rest.now ≡ rest_of bytes.now) }
    ensures ended { IfOk result (λ rest. is_end rest.now ≡ true) }
{
    let mut lost = false;
    serve_by_rules(&mut server.rules, alloc, bytes, out, false, &mut lost)
}

/// The same by rules over any table. Where memory is missing at a frame, and `goes_on` says so, that is noted in `lost`, and the next
/// frame is served. Whole frames go out, whatever happens.
pub fn serve_by_rules<'a, T: ConnTable>(
    rules: &mut Rules<T>,
    alloc: Global,
    bytes: &'a [u8],
    out: &mut Vec<u8>,
    goes_on: bool,
    lost: &mut bool,
) -> Result<&'a [u8], AllocError>
    requires good { T.good rules.old.table }
    ensures good { T.good rules.new.table }
    ensures sticky { lost.old ≡ true → lost.new ≡ true }
    ensures stops { goes_on ≡ false → lost.new ≡ lost.old }
    ensures server { OnOk result (lost.new ≡ false
        → server_of T.conns rules.new ≡ (serves_frames (frames_in bytes.now) (server_of T.conns rules.old)).server) }
    ensures sent { OnOk result (lost.new ≡ false → out.new.items ≡ out.old.items ++ answers bytes.now (server_of T.conns rules.old)) }
    ensures framed { GrowsByFrames out.old.items out.new.items }
    ensures wrote { OnErr result (lost.new ≡ false → HasAnswered out.old.items out.new.items (frames_in bytes.now) (server_of T.conns rules.old)) }
    ensures gave_up { OnErr result (goes_on ≡ false) }
    ensures told { OnOk result (lost.new ≡ false
        → T.tells rules.old.table (told_frames (frames_in bytes.now) (server_of T.conns rules.old)) rules.new.table) }
    ensures rest { IfOk result (λ rest. rest.now ≡ rest_of bytes.now) }
    ensures ended { IfOk result (λ rest. is_end rest.now ≡ true) }
{
    let mut rest = bytes;
    'frames: while !is_end(rest) {
        serve_next(rules, alloc, rest, out, goes_on, lost)?;
        let (_, others) = rest.split_at(frame_size(rest));
        rest = others;
    }
    Ok(rest)
}

/// Whether no frame begins here that is whole and isn't broken.
fn is_end(rest: &[u8]) -> bool
    ensures { result ≡ is_end rest.now }
{
    rest.len() < FRAME_HEAD || is_broken(rest) || rest.len() < FRAME_HEAD + body_size(rest)
}

/// Whether a broken frame begins here: its datagram is too long, or its time too late.
pub fn is_broken(rest: &[u8]) -> bool
    requires { frame_head ≤ length rest.now }
    ensures { result ≡ is_broken rest.now }
{
    BigEndian::read_u64(rest) > MOST_BODY || time_of(rest) > LAST_TIME
}

/// How long the datagram of the frame is that begins here.
fn body_size(rest: &[u8]) -> usize
    requires head { frame_head ≤ length rest.now }
    requires whole { is_broken rest.now ≡ false }
    ensures value { result ≡ body_size rest.now }
    ensures small { result ≤ most_body }
{
    BigEndian::read_u64(rest) as usize
}

fn time_of(rest: &[u8]) -> u64
    requires { frame_head ≤ length rest.now }
    ensures { result ≡ time_of rest.now }
{
    BigEndian::read_u64(&rest[8..])
}

/// How many bytes the frame has that begins here.
fn frame_size(rest: &[u8]) -> usize
    requires { is_end rest.now ≡ false }
    ensures value { result ≡ frame_head + body_size rest.now }
    ensures within { result ≤ length rest.now }
{
    FRAME_HEAD + body_size(rest)
}

/// Serves the frame that begins here. Where memory is missing, nothing is sent for it.
fn serve_next<T: ConnTable>(
    rules: &mut Rules<T>,
    alloc: Global,
    rest: &[u8],
    out: &mut Vec<u8>,
    goes_on: bool,
    lost: &mut bool,
) -> Result<(), AllocError>
    requires good { T.good rules.old.table }
    requires whole { is_end rest.now ≡ false }
    ensures good { T.good rules.new.table }
    ensures sticky { lost.old ≡ true → lost.new ≡ true }
    ensures stops { goes_on ≡ false → lost.new ≡ lost.old }
    ensures server { OnOk result (lost.new ≡ false → server_of T.conns rules.new ≡ (on_frame (frame_at rest.now) (server_of T.conns rules.old)).server) }
    ensures sent { OnOk result (lost.new ≡ false
        → out.new.items ≡ out.old.items ++ flat_map frame_of (on_frame (frame_at rest.now) (server_of T.conns rules.old)).sent) }
    ensures framed { GrowsByFrames out.old.items out.new.items }
    ensures none { OnErr result (out.new.items ≡ out.old.items) }
    ensures gave_up { OnErr result (goes_on ≡ false) }
    ensures told { OnOk result (lost.new ≡ false → T.tells rules.old.table (told_frame (frame_at rest.now) (server_of T.conns rules.old)) rules.new.table) }
{
    let whole = out.len();
    match serve_front(rules, alloc, rest, out) {
        Ok(()) => Ok(()),
        Err(error) => {
            out.truncate(whole);
            if !goes_on {
                return Err(error);
            }
            *lost = true;
            Ok(())
        }
    }
}

/// Serves the frame that begins here, and writes what is sent for it. What was there stays, and after an error more may be behind it.
fn serve_front<T: ConnTable>(
    rules: &mut Rules<T>,
    alloc: Global,
    rest: &[u8],
    out: &mut Vec<u8>,
) -> Result<(), AllocError>
    requires good { T.good rules.old.table }
    requires whole { is_end rest.now ≡ false }
    ensures good { T.good rules.new.table }
    ensures server { OnOk result (server_of T.conns rules.new ≡ (on_frame (frame_at rest.now) (server_of T.conns rules.old)).server) }
    ensures sent { OnOk result (out.new.items ≡ out.old.items ++ flat_map frame_of (on_frame (frame_at rest.now) (server_of T.conns rules.old)).sent) }
    ensures stays { StartsWith out.new.items out.old.items }
    ensures told { OnOk result (T.tells rules.old.table (told_frame (frame_at rest.now) (server_of T.conns rules.old)) rules.new.table) }
{
    let (_, behind) = rest.split_at(FRAME_HEAD);
    let (body, _) = behind.split_at(body_size(rest));
    let mut sent = Vec::new(alloc);
    serve_frame(rules, alloc, time_of(rest), body, &mut sent)?;
    push_frames(&sent, out)?;
    Ok(())
}

/// Serves a datagram, or the time alone where there is none.
fn serve_frame<T: ConnTable>(
    rules: &mut Rules<T>,
    alloc: Global,
    at: u64,
    body: &[u8],
    sent: &mut Vec<Datagram>,
) -> Result<(), AllocError>
    requires good { T.good rules.old.table }
    requires time { at ≤ last_time }
    requires body { length body.now ≤ most_body }
    ensures good { T.good rules.new.table }
    ensures server { OnOk result (server_of T.conns rules.new ≡ (on_frame (record { at = at; body = body.now }) (server_of T.conns rules.old)).server) }
    ensures sent { OnOk result (sent.new.items ≡ sent.old.items ++ (on_frame (record { at = at; body = body.now }) (server_of T.conns rules.old)).sent) }
    ensures told { OnOk result (T.tells rules.old.table (told_frame (record { at = at; body = body.now }) (server_of T.conns rules.old)) rules.new.table) }
{
    if body.is_empty() {
        rules.tick(alloc, at, sent)
    } else {
        rules.datagram(alloc, at, body, sent)
    }
}

/// A frame for each datagram.
fn push_frames(sent: &[Datagram], out: &mut Vec<u8>) -> Result<(), AllocError>
    ensures sent { OnOk result (out.new.items ≡ out.old.items ++ flat_map frame_of sent.now) }
    ensures stays { StartsWith out.new.items out.old.items }
{
    for datagram in sent {
        push_frame(datagram, out)?;
    }
    Ok(())
}

fn push_frame(datagram: &Datagram, out: &mut Vec<u8>) -> Result<(), AllocError>
    ensures sent { OnOk result (out.new.items ≡ out.old.items ++ frame_of datagram.now) }
    ensures stays { StartsWith out.new.items out.old.items }
{
    let bytes = datagram.bytes.as_slice();
    out.extend_from_slice(&(bytes.len() as u64).to_be_bytes())?;
    out.extend_from_slice(&datagram.at.to_be_bytes())?;
    out.extend_from_slice(bytes)?;
    Ok(())
}
