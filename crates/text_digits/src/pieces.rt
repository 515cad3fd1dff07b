//! A text that is written in pieces.

ghost use Rattle.std.specs.Prelude.{◌≡◌, ⊤, ◌+◌, ◌*◌, ◌<◌, ◌≤◌, ◌++◌, true, false, length, take, vec_len, OnOk, OnErr};
ghost use Rattle.std.specs.Io.KnownBytes.{Appends};
ghost use Rattle.std.proofs.Props.{props};
ghost use Rattle.sq_base.specs.Ends.{AppendsProperly, Rose};
ghost use Rattle.hex.specs.Hex.{encode_lower};
ghost use Rattle.text_digits.specs.Told.{more};
ghost use Rattle.text_digits.specs.Pieces.{Telling, told_first, IsWhole, IsCut, Appends-prop, HasFront-prop};

use crate::ends::TextEnd;
use crate::{digits_in, write_digits};
use perimeter_core::Known;
use sq_base::{Failed, Sink, put};
use std::convert::Infallible;
use std::marker::Model;

/// For contracts alone: what a text was told, and what was written of it.
#[derive(Drop)]
pub struct Said {
    never: Infallible,
}

impl Model for Said {
    ghost use Rattle.text_digits.specs.Pieces.{Telling};

    ghost Value = { Telling };

    ghost view = { λ e. elim e.never [ ] };
}

/// The end of a text that is written to a sink in pieces of one size. Nothing of it fails: once a write has failed, what is still
/// told goes nowhere, and `finish` says so.
#[derive(Drop)]
pub struct Pieces<'k, K: Sink> {
    sink: &'k mut K,
    piece: Vec<u8>,
    filled: usize,
    cut: bool,
    said: Known<Said>,
    ghost place: { sink.ghost_name ≡ said.value.told.place },
    ghost room: { filled ≤ length piece.items },
    ghost whole: { cut ≡ false → IsWhole said.value (K.contents sink.now) (K.write_faults sink.now) (take filled piece.items) } by { Prim.hlevel (props, Appends-prop) },
    ghost front: { cut ≡ true → IsCut said.value.told (K.contents sink.now) (K.write_faults sink.now) } by { Prim.hlevel (props, HasFront-prop) },
}

impl<'k, K: Sink> Pieces<'k, K> {
    /// The end of a text that goes to this sink, with the room for one piece. The caller picks what is said, which is that
    /// nothing was told yet.
    pub fn over(sink: &'k mut K, piece: Vec<u8>) -> Pieces<'k, K>
        ghost start: { Telling }
        requires { start ≡ told_first sink.ghost_name (K.contents sink.old) (K.write_faults sink.old) }
        ensures { result.said.value.told ≡ start.told }
    {
        Pieces {
            sink,
            piece,
            filled: 0,
            cut: false,
            said: Known::pick(),
        }
    }

    /// Writes what is left of the text, and gives the sink back. At `Failed` a write has failed, now or before, and a front of the text
    /// was written that isn't all of it.
    pub fn finish(self) -> (&'k mut K, Result<(), Failed>)
        ensures place { result.0.ghost_name ≡ self.entry.said.value.told.place }
        ensures ok { OnOk result.1 (Appends self.entry.said.value.told.was (K.contents result.0.now) self.entry.said.value.told.text
            × (K.write_faults result.0.now ≡ self.entry.said.value.told.faults)) }
        ensures failed { OnErr result.1 (AppendsProperly self.entry.said.value.told.was (K.contents result.0.now) self.entry.said.value.told.text
            × Rose self.entry.said.value.told.faults (K.write_faults result.0.now)) }
    {
        let mut last = self;
        last.flush();
        if last.cut {
            return (last.sink, Err(Failed));
        }
        (last.sink, Ok(()))
    }

    /// Appends these bytes, for which there isn't room behind those that are kept.
    fn pass(&mut self, bytes: &[u8])
        ensures { self.new.said.value.told ≡ more self.old.said.value.told bytes.now }
    {
        self.flush();
        if bytes.len() <= self.piece.len() {
            self.keep(bytes);
        } else {
            self.send(bytes);
        }
    }

    /// Writes these bytes, where none are kept and no write has failed.
    fn send(&mut self, bytes: &[u8])
        requires { self.old.filled ≡ 0 }
        ensures { self.new.said.value.told ≡ more self.old.said.value.told bytes.now }
    {
        if self.cut {
            self.said = grown(&self.said, bytes);
            return;
        }
        self.cut = put(self.sink, bytes).is_err();
        self.said = written(&grown(&self.said, bytes));
    }

    /// Keeps these bytes.
    fn keep(&mut self, bytes: &[u8])
        requires { self.old.filled + length bytes.now ≤ vec_len self.old.piece }
        ensures { self.new.said.value.told ≡ more self.old.said.value.told bytes.now }
    {
        fill(&mut self.piece, self.filled, bytes);
        self.filled += bytes.len();
        self.said = grown(&self.said, bytes);
    }

    /// Keeps the digits of these bytes.
    fn keep_hex(&mut self, bytes: &[u8])
        requires { self.old.filled + 2 * length bytes.now ≤ vec_len self.old.piece }
        ensures { self.new.said.value.told ≡ more self.old.said.value.told (encode_lower bytes.now) }
    {
        fill_hex(&mut self.piece, self.filled, bytes);
        self.filled += 2 * bytes.len();
        self.said = grown_hex(&self.said, bytes);
    }

    /// Writes what is kept, where no write has failed.
    fn flush(&mut self)
        ensures told { self.new.said.value.told ≡ self.old.said.value.told }
        ensures empty { self.new.filled ≡ 0 }
        ensures room { vec_len self.new.piece ≡ vec_len self.old.piece }
    {
        if self.cut {
            self.filled = 0;
            return;
        }
        self.cut = put(self.sink, &self.piece[..self.filled]).is_err();
        self.said = written(&self.said);
        self.filled = 0;
    }
}

/// Copies these bytes behind the first `filled`.
fn fill(piece: &mut Vec<u8>, filled: usize, bytes: &[u8])
    requires { filled + length bytes.now ≤ vec_len piece.old }
    ensures front { take (filled + length bytes.now) piece.new.items ≡ take filled piece.old.items ++ bytes.now }
    ensures room { vec_len piece.new ≡ vec_len piece.old }
{
    piece[filled..filled + bytes.len()].copy_from_slice(bytes);
}

/// Makes the digits of these bytes behind the first `filled`.
fn fill_hex(piece: &mut Vec<u8>, filled: usize, bytes: &[u8])
    requires { filled + 2 * length bytes.now ≤ vec_len piece.old }
    ensures front { take (filled + 2 * length bytes.now) piece.new.items ≡ take filled piece.old.items ++ encode_lower bytes.now }
    ensures room { vec_len piece.new ≡ vec_len piece.old }
{
    write_digits(&mut piece[filled..filled + 2 * bytes.len()], bytes);
}

// The text that was told, with more bytes behind it.
fn grown(said: &Known<Said>, bytes: &[u8]) -> Known<Said>
    ensures { result.value ≡ record { told = more said.now.value.told bytes.now; written = said.now.value.written } }
{
    said_as(said, bytes)
}

// The text that was told, with the digits of these bytes behind it.
fn grown_hex(said: &Known<Said>, bytes: &[u8]) -> Known<Said>
    ensures { result.value ≡ record { told = more said.now.value.told (encode_lower bytes.now); written = said.now.value.written } }
{
    said_as(said, bytes)
}

// All that was told is written.
fn written(said: &Known<Said>) -> Known<Said>
    ensures { result.value ≡ record { told = said.now.value.told; written = said.now.value.told.text } }
{
    said_as(said, &[])
}

// What it is made of is passed beside it, since a pick sees the call's arguments alone.
fn said_as(_said: &Known<Said>, _bytes: &[u8]) -> Known<Said>
    ghost picked: { Telling }
    ensures { result.value ≡ picked }
{
    Known::pick()
}

impl<K: Sink> TextEnd for Pieces<'_, K> {
    type Fault = Infallible;

    ghost told = { λ p. p.said.value.told };

    ghost has_room = { λ _ _. ⊤ };

    fn reserve(&mut self, _more: usize) -> Result<(), Infallible> {
        Ok(())
    }

    fn put(&mut self, bytes: &[u8]) -> Result<(), Infallible> {
        if bytes.len() <= self.piece.len() - self.filled {
            self.keep(bytes);
        } else {
            self.pass(bytes);
        }
        Ok(())
    }

    fn put_hex(&mut self, bytes: &[u8]) -> Result<(), Infallible> {
        if 2 * bytes.len() <= self.piece.len() - self.filled {
            self.keep_hex(bytes);
        } else {
            let mut room = [0u8; 128];
            self.pass(digits_in(&mut room, bytes));
        }
        Ok(())
    }

    ghost less = { λ _ _ _ h. h };
}
