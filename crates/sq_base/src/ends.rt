//! Where bytes come from and where they go.

ghost use Rattle.std.specs.Prelude.{◌≡◌, ℕ, ◌+◌, ◌<◌, ◌≤◌, List, Option, None, length, IfOk, OnOk, OnErr};
ghost use Rattle.std.specs.Io.KnownBytes.{ReadConsumes, WriteAppends, Appends};
ghost use Rattle.sq_base.specs.Ends.{Rose, AppendsProperly};

/// A read or a write that failed. The end that it came from has counted it.
#[derive(Clone, Copy, Debug, PartialEq, Eq)]
pub struct Failed;

/// Where bytes come from.
pub trait Source {
    /// The bytes that are left, where they are known.
    ghost rest: { Self → Option (List ℕ) } = { λ _. None };

    /// How many reads failed so far. The count stays at 2^64 - 1 once it is there.
    ghost read_faults: { Self → ℕ };

    /// Puts the next bytes into the front of `buf` and gives their number. `Ok(0)` at a `buf` with room is the end of
    /// the input. At `Failed` nothing was taken, and the count of faults rose; at any other answer it stays.
    fn read(&mut self, buf: &mut [u8]) -> Result<usize, Failed>
        ensures bound { IfOk result (λ n. n ≤ length buf.new) }
        ensures bytes { ReadConsumes (rest self.old) (rest self.new) result buf.new }
        ensures never_falls { read_faults self.old ≤ read_faults self.new }
        ensures kept { OnOk result (read_faults self.new ≡ read_faults self.old) }
        ensures failed { OnErr result (Rose (read_faults self.old) (read_faults self.new)) };
}

/// Where bytes go to.
pub trait Sink {
    /// The bytes so far, where they are known.
    ghost contents: { Self → Option (List ℕ) } = { λ _. None };

    /// How many writes failed so far. The count stays at 2^64 - 1 once it is there.
    ghost write_faults: { Self → ℕ };

    /// Appends a front of the piece and gives its length, which is 0 only for an empty piece. At `Failed` nothing was
    /// appended, and the count of faults rose; at any other answer it stays.
    fn write(&mut self, piece: &[u8]) -> Result<usize, Failed>
        ensures bound { IfOk result (λ n. n ≤ length piece.now) }
        ensures some { 0 < length piece.now → IfOk result (λ n. 0 < n) }
        ensures bytes { WriteAppends (contents self.old) (contents self.new) result piece.now }
        ensures never_falls { write_faults self.old ≤ write_faults self.new }
        ensures kept { OnOk result (write_faults self.new ≡ write_faults self.old) }
        ensures failed { OnErr result (Rose (write_faults self.old) (write_faults self.new)) };
}

/// Appends all of the bytes, piece by piece. At `Failed` a proper front of them was appended. A write that failed is not tried
/// again, so `Ok` says that none did.
///
/// # Example
///
/// ```
/// let mut sink = StdSink::over(File::create(&rt, "ten")?);
/// put(&mut sink, b"0123")?;
/// put(&mut sink, b"")?;
/// put(&mut sink, b"456789")?;
/// let mut source = StdSource::over(File::open(&rt, "ten")?);
/// ```
pub fn put<K: Sink>(sink: &mut K, bytes: &[u8]) -> Result<(), Failed>
    ensures ok { OnOk result (Appends (K.contents sink.old) (K.contents sink.new) bytes.now) }
    ensures failed { OnErr result (AppendsProperly (K.contents sink.old) (K.contents sink.new) bytes.now) }
    ensures rose { OnErr result (Rose (K.write_faults sink.old) (K.write_faults sink.new)) }
    ensures kept { OnOk result (K.write_faults sink.new ≡ K.write_faults sink.old) }
    ensures never_falls { K.write_faults sink.old ≤ K.write_faults sink.new }
{
    let mut at = 0;
    while at < bytes.len() {
        at += sink.write(&bytes[at..])?;
    }
    Ok(())
}
