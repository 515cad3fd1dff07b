//! What a trace tells.
ghost use Rattle.std.specs.Prelude.{◌≡◌, ◌≢◌, true, false};

use squeue_state::{Trace, TraceMark};

/// Whether the marks of the trace are these, and no others.
pub fn has_marks(trace: &Trace, marks: &[TraceMark]) -> bool
    ensures yes { result ≡ true → trace.now.marks ≡ marks.now }
    ensures no { result ≡ false → trace.now.marks ≢ marks.now }
{
    if trace.len() != marks.len() as u64 {
        return false;
    }
    for (i, mark) in marks.iter().enumerate() {
        if !is_same(trace.mark(i as u64), *mark) {
            return false;
        }
    }
    true
}

// Whether the two marks are the same.
fn is_same(a: TraceMark, b: TraceMark) -> bool
    ensures yes { result ≡ true → a ≡ b }
    ensures no { result ≡ false → a ≢ b }
{
    a == b
}
