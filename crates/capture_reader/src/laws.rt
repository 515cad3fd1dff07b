//! Each list of bytes is one thing: a capture, or a refusal with its cause. A capture's packets are short.

ghost use Rattle.std.specs.Prelude.{◌≡◌, ℕ, List, Result};
ghost use Rattle.capture_reader.specs.declared.fault.CaptureFault.{CaptureFault};
ghost use Rattle.capture_reader.specs.CaptureFile.{Contents, Meets};
ghost use Rattle.capture_reader.specs.Outcome.{CaptureFile, IsCapture, HasShortBodies};

/// Bytes are never two captures, nor refused for two causes, nor both.
pub fn one_outcome()
    ensures { (bytes : List ℕ) (x y : Result Contents CaptureFault) → Meets bytes x → Meets bytes y → x ≡ y }
{}

/// Bytes are a capture, or are refused.
pub fn some_outcome()
    ensures { (bytes : List ℕ) → (x : Result Contents CaptureFault) × Meets bytes x }
{}

/// No packet of a capture that was read has more than 262,144 captured bytes.
pub fn bodies_are_short()
    ensures { (file : CaptureFile) → IsCapture file → HasShortBodies file }
{}
