//! What is wanted beside what came. A difference is told as one line: of what, which line, wanted, got.

ghost use Rattle.std.specs.Prelude.{◌≡◌, ◌≢◌, ◌∷◌, ◌++◌, [], IfSome, MatchResult, OnOk};
ghost use Rattle.std.specs.List.{flat_map};

use crate::fault::RowFault;
use std::alloc::Global;

/// What stands before the first newline, or all.
fn first_line(bytes: &[u8]) -> &[u8] {
    match bytes.iter().position(|byte| *byte == b'\n') {
        Some(end) => bytes.split_at(end).0,
        None => bytes,
    }
}

/// The fault that says what differs.
fn differs(alloc: Global, what: &str, number: usize, wanted: &str, got: &[u8]) -> RowFault {
    let line = first_line(got);
    let told = match str::from_utf8(line) {
        Ok(text) => format!(in alloc; "{what} line {number}: wanted {wanted}, got {text}"),
        Err(_) => format!(in alloc; "{what} line {number}: wanted {wanted}, got {line:?}"),
    };
    match told {
        Ok(told) => RowFault::Told(told),
        Err(_) => RowFault::NoMemory,
    }
}

/// What stands behind a line and its newline, where the bytes begin with them.
fn after_line<'a>(bytes: &'a [u8], line: &str) -> Option<&'a [u8]>
    ensures { IfSome result (λ more. bytes.now ≡ line.now ++ 10 ∷ more.now) }
{
    bytes.strip_prefix(line.as_bytes())?.strip_prefix(b"\n")
}

/// The bytes are these lines, each with a newline at its end, and no more.
pub fn expect_lines(alloc: Global, what: &str, wanted: &[&str], got: &[u8]) -> Result<(), RowFault>
    ensures { OnOk result (got.now ≡ flat_map (λ line. line.now ++ 10 ∷ []) wanted.now) }
{
    let mut rest = got;
    let mut number = 0usize;
    for line in wanted {
        number = number.saturating_add(1);
        match after_line(rest, line) {
            Some(more) => rest = more,
            None => return Err(differs(alloc, what, number, line, rest)),
        }
    }
    if !rest.is_empty() {
        let number = number.saturating_add(1);
        return Err(differs(alloc, what, number, "no more", rest));
    }
    Ok(())
}

/// The bytes are these.
pub fn expect_bytes(alloc: Global, what: &str, wanted: &[u8], got: &[u8]) -> Result<(), RowFault>
    ensures { MatchResult result (λ _. wanted.now ≡ got.now) (λ _. wanted.now ≢ got.now) }
{
    if wanted == got {
        return Ok(());
    }
    Err(RowFault::Told(format!(in alloc; "{what}: wanted {wanted:?}, got {got:?}")?))
}

/// The text is this one.
pub fn expect_text(alloc: Global, what: &str, wanted: &str, got: &str) -> Result<(), RowFault>
    ensures { MatchResult result (λ _. wanted.now ≡ got.now) (λ _. wanted.now ≢ got.now) }
{
    if wanted == got {
        return Ok(());
    }
    Err(RowFault::told(alloc, &[what, ": wanted ", wanted, ", got ", got]))
}

/// The number is this one.
pub fn expect_number(alloc: Global, what: &str, wanted: u64, got: u64) -> Result<(), RowFault>
    ensures { MatchResult result (λ _. wanted ≡ got) (λ _. wanted ≢ got) }
{
    if wanted == got {
        return Ok(());
    }
    Err(RowFault::Told(format!(in alloc; "{what}: wanted {wanted}, got {got}")?))
}
