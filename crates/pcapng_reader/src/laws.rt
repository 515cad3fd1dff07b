//! Each list of bytes is one thing: a capture, or a refusal with its cause.

ghost use Rattle.std.specs.Prelude.{◌≡◌, ℕ, List, Result};
ghost use Rattle.capture_reader.specs.CaptureFile.{Contents};
ghost use Rattle.pcapng_reader.specs.declared.fault.PcapngFault.{PcapngFault};
ghost use Rattle.pcapng_reader.specs.PcapngFile.{Meets};

/// Bytes are never two captures, nor refused for two causes, nor both.
pub fn one_outcome()
    ensures { (bytes : List ℕ) (x y : Result Contents PcapngFault) → Meets bytes x → Meets bytes y → x ≡ y }
{}

/// Bytes are a capture, or are refused.
pub fn some_outcome()
    ensures { (bytes : List ℕ) → (x : Result Contents PcapngFault) × Meets bytes x }
{}
