//! What is run, and what came of it.

ghost use Rattle.std.specs.Prelude.{IfOk};
ghost use Rattle.case_rows.specs.Runs.{CameOf};

use crate::fault::RowFault;
use crate::given::Given;
use sq_base::{MemSink, MemSource};
use std::alloc::Global;

/// Room for what a run writes, and for what it tells.
const ROOM: usize = 1_000_000;

const ROOM_TO_TELL: usize = 1000;

/// What came of a run.
#[derive(Drop)]
pub struct Came {
    pub status: u8,
    pub out: MemSink,
    pub err: MemSink,
}

/// A run over what is given of a program: it reads words and an input, writes an output and an error line, and answers the status that
/// its process ends with.
pub fn came_of<P: Fn(Global, &[String], &mut MemSource, &mut MemSink, &mut MemSink) -> u8>(
    program: &P,
    alloc: Global,
    given: &Given,
    input: &[u8],
) -> Result<Came, RowFault>
    requires { P.IsAlwaysCallable program.now }
    ensures { IfOk result (λ came. CameOf P.Fn program.now given.now input.now came) }
{
    let mut src = MemSource::make(alloc, input, given.reads.max(1), &given.failing.reads)?;
    let mut out = MemSink::make(alloc, ROOM, given.writes.max(1), &given.failing.writes)?;
    let mut err = MemSink::make(alloc, ROOM_TO_TELL, ROOM_TO_TELL, &given.failing.tellings)?;
    let status = program(alloc, &given.words, &mut src, &mut out, &mut err);
    Ok(Came { status, out, err })
}
