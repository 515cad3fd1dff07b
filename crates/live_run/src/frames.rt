//! Frames from a source and to a sink.

ghost use Rattle.std.specs.Prelude.{◌≡◌, ◌≢◌, ◌++◌, ◌<◌, ◌≤◌, [], false, true, length, Err, IfSome, List, ℕ, OnErr, OnOk};
ghost use Rattle.std.specs.Io.KnownBytes.{Appends, Consumes};
ghost use Rattle.sq_base.specs.Ends.{Rose};
ghost use Rattle.live_server.specs.Frames.{answers, frames_in, is_broken, rest_of, serves_frames};
ghost use Rattle.live_server.specs.Limits.{frame_head};
ghost use Rattle.live_server.specs.Serving.{server_of};
ghost use Rattle.live_server.specs.Told.{told_frames};
ghost use Rattle.live_run.specs.Fronts.{AppendsFront, AppendsFrames};

use crate::fault::Fault;
use live_server::{ConnTable, FRAME_HEAD, Rules, Server, is_broken, serve_by_rules};
use sq_base::{Sink, Source, put};
use std::alloc::Global;
use std::mem::swap;

/// How many bytes are read at once.
const PIECE: usize = 1 << 20;

/// The most bytes of a frame's body.
const MOST_BODY: usize = 65_535;

/// Serves the frames up to the end of the input, and writes what is sent after each read. What was answered before a fault is written,
/// but for want of memory, where only what was answered to earlier reads may be.
pub fn serve_frames_of<S: Source, K: Sink>(
    alloc: Global,
    server: Server,
    source: &mut S,
    sink: &mut K,
) -> Result<(), Fault>
    ensures written { OnOk result (IfSome (S.rest source.old) (λ input. Appends (K.contents sink.old) (K.contents sink.new) (answers input server))) }
    ensures whole { OnOk result (IfSome (S.rest source.old) (λ input. rest_of input ≡ [])) }
    ensures front { IfSome (S.rest source.old) (λ input. AppendsFront (K.contents sink.old) (K.contents sink.new) (answers input server)) }
    ensures framed { result ≢ Err Fault.Writing → AppendsFrames (K.contents sink.old) (K.contents sink.new) }
    ensures reading { result ≡ Err Fault.Reading → Rose (S.read_faults source.old) (S.read_faults source.new) }
    ensures writing { result ≡ Err Fault.Writing → Rose (K.write_faults sink.old) (K.write_faults sink.new) }
    ensures frames { result ≡ Err Fault.Frames → IfSome (S.rest source.old) (λ input. rest_of input ≢ []) }
    ensures answered { result ≡ Err Fault.Frames → IfSome (S.rest source.old)
        (λ input. Appends (K.contents sink.old) (K.contents sink.new) (answers input server)) }
    ensures so_far { result ≡ Err Fault.Reading → (there : List ℕ) × Consumes (S.rest source.old) (S.rest source.new) there
        × Appends (K.contents sink.old) (K.contents sink.new) (answers there server) }
    ensures words { result ≢ Err Fault.Words }
{
    let mut rules = server.into_rules();
    let mut lost = false;
    serve_stream(alloc, &mut rules, source, sink, false, &mut lost)
}

/// The same by rules over any table. Where memory is missing at a frame, and `goes_on` says so, that is noted in `lost`, and the next
/// frame is served: then a connection, or some of what it sent, is missing. What is written is whole frames, unless a write fails.
pub fn serve_stream<T: ConnTable, S: Source, K: Sink>(
    alloc: Global,
    rules: &mut Rules<T>,
    source: &mut S,
    sink: &mut K,
    goes_on: bool,
    lost: &mut bool,
) -> Result<(), Fault>
    requires good { T.good rules.old.table }
    ensures good { T.good rules.new.table }
    ensures sticky { lost.old ≡ true → lost.new ≡ true }
    ensures stops { goes_on ≡ false → lost.new ≡ lost.old }
    ensures written { OnOk result (lost.new ≡ false
        → IfSome (S.rest source.old) (λ input. Appends (K.contents sink.old) (K.contents sink.new) (answers input (server_of T.conns rules.old)))) }
    ensures told { OnOk result (lost.new ≡ false
        → IfSome (S.rest source.old) (λ input. T.tells rules.old.table (told_frames (frames_in input) (server_of T.conns rules.old)) rules.new.table)) }
    ensures whole { OnOk result (IfSome (S.rest source.old) (λ input. rest_of input ≡ [])) }
    ensures front { lost.new ≡ false → IfSome (S.rest source.old)
        (λ input. AppendsFront (K.contents sink.old) (K.contents sink.new) (answers input (server_of T.conns rules.old))) }
    ensures framed { result ≢ Err Fault.Writing → AppendsFrames (K.contents sink.old) (K.contents sink.new) }
    ensures reading { result ≡ Err Fault.Reading → Rose (S.read_faults source.old) (S.read_faults source.new) }
    ensures writing { result ≡ Err Fault.Writing → Rose (K.write_faults sink.old) (K.write_faults sink.new) }
    ensures frames { result ≡ Err Fault.Frames → IfSome (S.rest source.old) (λ input. rest_of input ≢ []) }
    ensures answered { result ≡ Err Fault.Frames → lost.new ≡ false → IfSome (S.rest source.old)
        (λ input. Appends (K.contents sink.old) (K.contents sink.new) (answers input (server_of T.conns rules.old))) }
    ensures so_far { result ≡ Err Fault.Reading → lost.new ≡ false → (there : List ℕ) × Consumes (S.rest source.old) (S.rest source.new) there
        × Appends (K.contents sink.old) (K.contents sink.new) (answers there (server_of T.conns rules.old)) }
    ensures words { result ≢ Err Fault.Words }
{
    let Ok(mut piece) = vec![in alloc; 0u8; PIECE] else {
        return Err(Fault::NoMemory);
    };
    serve_pieces(alloc, rules, source, sink, &mut piece[..], goes_on, lost)
}

/// The same, by pieces of at most so many bytes.
fn serve_pieces<T: ConnTable, S: Source, K: Sink>(
    alloc: Global,
    rules: &mut Rules<T>,
    source: &mut S,
    sink: &mut K,
    piece: &mut [u8],
    goes_on: bool,
    lost: &mut bool,
) -> Result<(), Fault>
    requires good { T.good rules.old.table }
    requires piece { 0 < length piece.old }
    ensures good { T.good rules.new.table }
    ensures sticky { lost.old ≡ true → lost.new ≡ true }
    ensures stops { goes_on ≡ false → lost.new ≡ lost.old }
    ensures written { OnOk result (lost.new ≡ false
        → IfSome (S.rest source.old) (λ input. Appends (K.contents sink.old) (K.contents sink.new) (answers input (server_of T.conns rules.old)))) }
    ensures told { OnOk result (lost.new ≡ false
        → IfSome (S.rest source.old) (λ input. T.tells rules.old.table (told_frames (frames_in input) (server_of T.conns rules.old)) rules.new.table)) }
    ensures whole { OnOk result (IfSome (S.rest source.old) (λ input. rest_of input ≡ [])) }
    ensures front { lost.new ≡ false → IfSome (S.rest source.old)
        (λ input. AppendsFront (K.contents sink.old) (K.contents sink.new) (answers input (server_of T.conns rules.old))) }
    ensures framed { result ≢ Err Fault.Writing → AppendsFrames (K.contents sink.old) (K.contents sink.new) }
    ensures reading { result ≡ Err Fault.Reading → Rose (S.read_faults source.old) (S.read_faults source.new) }
    ensures writing { result ≡ Err Fault.Writing → Rose (K.write_faults sink.old) (K.write_faults sink.new) }
    ensures frames { result ≡ Err Fault.Frames → IfSome (S.rest source.old) (λ input. rest_of input ≢ []) }
    ensures answered { result ≡ Err Fault.Frames → lost.new ≡ false → IfSome (S.rest source.old)
        (λ input. Appends (K.contents sink.old) (K.contents sink.new) (answers input (server_of T.conns rules.old))) }
    ensures so_far { result ≡ Err Fault.Reading → lost.new ≡ false → (there : List ℕ) × Consumes (S.rest source.old) (S.rest source.new) there
        × Appends (K.contents sink.old) (K.contents sink.new) (answers there (server_of T.conns rules.old)) }
    ensures words { result ≢ Err Fault.Words }
{
    let mut pending = room_for_pieces(alloc);
    let mut spare = room_for_pieces(alloc);
    'pieces: for _ in 0..u64::MAX {
        let Ok(read) = source.read(piece) else {
            return Err(Fault::Reading);
        };
        if read == 0 {
            return end_of(pending.as_slice());
        }
        if let Err(fault) = serve_piece(
            rules,
            alloc,
            &mut pending,
            &mut spare,
            &piece[..read],
            sink,
            goes_on,
            lost,
        ) {
            return Err(fault);
        }
    }
    // No run makes so many reads.
    Err(Fault::NoMemory)
}

/// Nothing, with room for what is left of a frame and a read behind it, so that a read takes no memory later. Where memory is missing,
/// there is no room yet.
fn room_for_pieces(alloc: Global) -> Vec<u8>
    ensures { result.items ≡ [] }
{
    match Vec::with_capacity(alloc, FRAME_HEAD + MOST_BODY + PIECE) {
        Ok(room) => room,
        Err(_) => Vec::new(alloc),
    }
}

/// Serves the whole frames of what was left and of a piece behind it, and writes what is sent. `spare` is for what is left then.
fn serve_piece<T: ConnTable, K: Sink>(
    rules: &mut Rules<T>,
    alloc: Global,
    pending: &mut Vec<u8>,
    spare: &mut Vec<u8>,
    piece: &[u8],
    sink: &mut K,
    goes_on: bool,
    lost: &mut bool,
) -> Result<(), Fault>
    requires good { T.good rules.old.table }
    ensures good { T.good rules.new.table }
    ensures sticky { lost.old ≡ true → lost.new ≡ true }
    ensures stops { goes_on ≡ false → lost.new ≡ lost.old }
    ensures server { OnOk result (lost.new ≡ false → server_of T.conns rules.new
        ≡ (serves_frames (frames_in (pending.old.items ++ piece.now)) (server_of T.conns rules.old)).server) }
    ensures written { OnOk result (lost.new ≡ false
        → Appends (K.contents sink.old) (K.contents sink.new) (answers (pending.old.items ++ piece.now) (server_of T.conns rules.old))) }
    ensures told { OnOk result (lost.new ≡ false
        → T.tells rules.old.table (told_frames (frames_in (pending.old.items ++ piece.now)) (server_of T.conns rules.old)) rules.new.table) }
    ensures left { OnOk result (pending.new.items ≡ rest_of (pending.old.items ++ piece.now)) }
    ensures kept { OnOk result (K.write_faults sink.new ≡ K.write_faults sink.old) }
    ensures front { OnErr result (lost.new ≡ false → AppendsFront (K.contents sink.old) (K.contents sink.new)
        (answers (pending.old.items ++ piece.now) (server_of T.conns rules.old))) }
    ensures framed { result ≢ Err Fault.Writing → AppendsFrames (K.contents sink.old) (K.contents sink.new) }
    ensures writing { result ≡ Err Fault.Writing → Rose (K.write_faults sink.old) (K.write_faults sink.new) }
    ensures frames { result ≡ Err Fault.Frames → (frame_head ≤ length (rest_of (pending.old.items ++ piece.now)))
        × (is_broken (rest_of (pending.old.items ++ piece.now)) ≡ true) }
    ensures answered { result ≡ Err Fault.Frames → lost.new ≡ false
        → Appends (K.contents sink.old) (K.contents sink.new) (answers (pending.old.items ++ piece.now) (server_of T.conns rules.old)) }
    ensures reading { result ≢ Err Fault.Reading }
    ensures words { result ≢ Err Fault.Words }
{
    if pending.extend_from_slice(piece).is_err() {
        return Err(Fault::NoMemory);
    }
    let mut out = Vec::new(alloc);
    let Ok(rest) = serve_by_rules(rules, alloc, pending.as_slice(), &mut out, goes_on, lost) else {
        return Err(Fault::NoMemory);
    };
    let broken = begins_broken(rest);
    spare.clear();
    let Ok(()) = spare.extend_from_slice(rest) else {
        return Err(Fault::NoMemory);
    };
    if put(sink, out.as_slice()).is_err() {
        return Err(Fault::Writing);
    }
    if broken {
        return Err(Fault::Frames);
    }
    swap(pending, spare);
    Ok(())
}

/// Whether a broken frame begins here.
fn begins_broken(rest: &[u8]) -> bool
    ensures { result ≡ true → (frame_head ≤ length rest.now) × (is_broken rest.now ≡ true) }
{
    rest.len() >= FRAME_HEAD && is_broken(rest)
}

/// The end of the input, where so many bytes are left.
fn end_of(pending: &[u8]) -> Result<(), Fault>
    ensures ok { OnOk result (pending.now ≡ []) }
    ensures err { OnErr result (pending.now ≢ []) }
    ensures fault { (fault : Fault) → result ≡ Err fault → fault ≡ Fault.Frames }
{
    if pending.is_empty() {
        Ok(())
    } else {
        Err(Fault::Frames)
    }
}
