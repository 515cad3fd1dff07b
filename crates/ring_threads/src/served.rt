//! What was served.
ghost use Rattle.std.specs.Prelude.{◌≡◌, ℕ, ◌<◌, [], false, Box, IfOk, Some, length, map, slice_get};
ghost use Rattle.std.specs.declared.alloc.Global.{Global};
ghost use Rattle.conn_blocks.specs.ServeOrder.{BlockOf};
ghost use Rattle.ring_threads.specs.Lying.{AreThere, blocks_at};

use crate::kept::Kept;
use conn_blocks::Block;
use squeue_pool::Finished;
use squeue_state::Trace;
use std::alloc::{AllocError, Global};
use std::marker::Model;

/// One block for each connection of the plan, by number, and the end and the trace of each squeue, by number.
/// Where there is an end, each block lies where it lay when its squeue ended, and none is short: squeues alone leave ends.
#[derive(Drop)]
pub struct Served {
    kept: Kept,
}

impl Model for Served {
    ghost use Rattle.ring_threads.specs.Served.{ServedOf};
    ghost use Rattle.ring_threads.specs.Lying.{IsSound, served_in};

    ghost Value = { ServedOf };

    ghost view = { λ s. served_in s.kept };

    ghost invariant = { λ s. IsSound s.kept };
}

impl Served {
    /// These blocks, of which no squeue tells: no end and no trace. It takes no memory.
    pub fn of(_alloc: Global, blocks: Vec<Box<Block>>) -> Result<Served, AllocError>
        ensures blocks { IfOk result (λ v. v.blocks ≡ map (λ b. b.value) blocks.items) }
        ensures none { IfOk result (λ v. (v.ended ≡ []) × (v.traces ≡ [])) }
    {
        Ok(Served {
            kept: Kept::Made(blocks),
        })
    }

    /// What squeues left, if the block of none of these connections is short. Takes no memory.
    pub(crate) fn left(finished: Finished<Box<Block>>, conns: u32) -> Result<Served, AllocError>
        requires count { length finished.parts ≡ conns }
        requires there { AreThere finished.parts }
        ensures ended { IfOk result (λ v. v.ended ≡ finished.ended) }
        ensures traces { IfOk result (λ v. v.traces ≡ finished.traces) }
        ensures count { IfOk result (λ v. length v.blocks ≡ length finished.parts) }
        ensures blocks { IfOk result (λ v. (c : ℕ) (b : Box BlockOf Global) → slice_get finished.parts c ≡ Some (Some b)
            → (slice_get v.blocks c ≡ Some b.value) × (b.value.short ≡ false)) }
    {
        if is_short(&finished, conns) {
            return Err(AllocError);
        }
        Ok(Served {
            kept: Kept::Left(finished),
        })
    }

    /// The block of connection `c`.
    pub fn block(&self, c: u32) -> &Block
        requires { c < length self.now.blocks }
        ensures { slice_get self.now.blocks c ≡ Some result.now }
    {
        match &self.kept {
            Kept::Left(finished) => left_block(finished, c),
            Kept::Made(blocks) => &blocks[c as usize],
        }
    }

    /// The trace of squeue `q`: the marks of its history where they were kept, else nothing.
    pub fn trace(&self, q: u32) -> &Trace
        requires { q < length self.now.traces }
        ensures { slice_get self.now.traces q ≡ Some result.now }
    {
        match &self.kept {
            Kept::Left(finished) => finished.trace(q),
            Kept::Made(_) => unreachable!(),
        }
    }
}

// The block of connection `c`, which lies where its squeue left it.
fn left_block(finished: &Finished<Box<Block>>, c: u32) -> &Block
    requires there { AreThere finished.now.parts }
    requires range { c < length (blocks_at finished.now.parts) }
    ensures { slice_get (blocks_at finished.now.parts) c ≡ Some result.now }
{
    let Some(block) = finished.part(c) else {
        unreachable!()
    };
    block
}

// Whether the block of one of these connections is short.
fn is_short(finished: &Finished<Box<Block>>, conns: u32) -> bool
    requires count { length finished.now.parts ≡ conns }
    requires there { AreThere finished.now.parts }
    ensures { result ≡ false → (c : ℕ) (b : Box BlockOf Global) → slice_get finished.now.parts c ≡ Some (Some b) → b.value.short ≡ false }
{
    for c in 0..conns {
        let Some(block) = finished.part(c) else {
            unreachable!()
        };
        if block.short() {
            return true;
        }
    }
    false
}
