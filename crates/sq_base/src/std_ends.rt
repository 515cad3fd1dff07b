//! Sources and sinks over std's readers and writers: the edge to the system. They add a count of faults, and take a write
//! of no byte for one. What they tell of bytes is what the reader or writer tells, which is nothing at a file or a pipe.

ghost use Rattle.std.specs.Prelude.{◌≡◌};

use crate::ends::{Failed, Sink, Source};
use std::io::{Read, Write};

/// A source over a reader. Each error is a fault.
#[derive(Drop)]
pub struct StdSource<X> {
    reader: X,
    faults: u64,
}

impl<X: Read> StdSource<X> {
    /// A source without a fault so far.
    pub fn over(reader: X) -> StdSource<X>
        ensures rest { ⟦<StdSource<X> as Source>⟧.rest result ≡ X.remaining reader }
        ensures none { ⟦<StdSource<X> as Source>⟧.read_faults result ≡ 0 }
    {
        StdSource { reader, faults: 0 }
    }
}

impl<X: Read> Source for StdSource<X> {
    ghost rest = { λ s. X.remaining s.reader };

    ghost read_faults = { λ s. s.faults };

    fn read(&mut self, buf: &mut [u8]) -> Result<usize, Failed> {
        match self.reader.read(buf) {
            Ok(n) => Ok(n),
            Err(_) => {
                self.faults = self.faults.saturating_add(1);
                Err(Failed)
            }
        }
    }
}

/// A sink over a writer. Each error is a fault, and so is a write of no byte of a piece that has some.
#[derive(Drop)]
pub struct StdSink<X> {
    writer: X,
    faults: u64,
}

impl<X: Write> StdSink<X> {
    /// A sink without a fault so far.
    pub fn over(writer: X) -> StdSink<X>
        ensures contents { ⟦<StdSink<X> as Sink>⟧.contents result ≡ X.contents writer }
        ensures none { ⟦<StdSink<X> as Sink>⟧.write_faults result ≡ 0 }
    {
        StdSink { writer, faults: 0 }
    }
}

impl<X: Write> Sink for StdSink<X> {
    ghost contents = { λ s. X.contents s.writer };

    ghost write_faults = { λ s. s.faults };

    fn write(&mut self, piece: &[u8]) -> Result<usize, Failed> {
        match self.writer.write(piece) {
            Ok(n) if n > 0 || piece.is_empty() => Ok(n),
            _ => {
                self.faults = self.faults.saturating_add(1);
                Err(Failed)
            }
        }
    }
}
