//! What was served.
ghost use Rattle.std.specs.Prelude.{◌≡◌, ◌<◌, ℕ, false, IfOk, IfSome, Some, length, slice_get};
ghost use Rattle.datagram_services.specs.Standing.{served_of};
ghost use Rattle.datagram_services.specs.declared.block.StreamBlock.{StreamBlock as BlockOf};
ghost use Rattle.datagram_services.specs.Lying.{AreThere, HandsOut};

use crate::answer::SentDatagram;
use crate::block::StreamBlock;
use chargen_service::GenBlock;
use squeue_pool::Finished;
use std::alloc::AllocError;
use std::marker::Model;

/// What the items of each stream of a plan were served into, by the stream's number, and the end of each squeue, by number. No memory
/// was missing. Each block lay in the resident of a squeue that ended: that is the type of `Finished`.
#[derive(Drop)]
pub struct MoreServed {
    /// What squeues left that have ended, the block of each stream at its number.
    finished: Finished<StreamBlock>,
}

impl Model for MoreServed {
    ghost use Rattle.datagram_services.specs.Lying.{AreThere, streams_at};
    ghost use Rattle.datagram_services.specs.Served.{MoreServedOf};

    ghost Value = { MoreServedOf };

    ghost view = { λ s. record { streams = streams_at s.finished.parts; ended = s.finished.ended } };

    ghost invariant = { λ s. AreThere s.finished.parts };
}

impl MoreServed {
    /// What squeues left, if the block of none of these streams is short. Takes no memory.
    pub(crate) fn left(
        finished: Finished<StreamBlock>,
        streams: u32,
    ) -> Result<MoreServed, AllocError>
        requires count { length finished.parts ≡ streams }
        requires there { AreThere finished.parts }
        ensures { IfOk result (λ v. HandsOut finished v) }
    {
        if is_short(&finished, streams) {
            return Err(AllocError);
        }
        Ok(MoreServed { finished })
    }

    /// The answers to the datagrams of stream `c`, in order.
    pub fn answers(&self, c: u32) -> &[SentDatagram]
        requires { c < length self.now.streams }
        ensures { IfSome (slice_get self.now.streams c) (λ s. result.now ≡ s.answers) }
    {
        self.block(c).answers()
    }

    /// The character generator's block of stream `c`, as new where the stream has datagrams: what it sent, and its state.
    pub fn generator(&self, c: u32) -> &GenBlock
        requires { c < length self.now.streams }
        ensures { IfSome (slice_get self.now.streams c) (λ s. result.now ≡ s.generator) }
    {
        self.block(c).generator()
    }

    // The block of stream `c`.
    fn block(&self, c: u32) -> &StreamBlock
        requires { c < length self.now.streams }
        ensures { slice_get self.now.streams c ≡ Some (served_of result.now) }
    {
        let Some(block) = self.finished.part(c) else {
            unreachable!()
        };
        block
    }
}

// Whether the block of one of these streams is short.
fn is_short(finished: &Finished<StreamBlock>, streams: u32) -> bool
    requires count { length finished.now.parts ≡ streams }
    requires there { AreThere finished.now.parts }
    ensures { result ≡ false → (c : ℕ) (block : BlockOf) → slice_get finished.now.parts c ≡ Some (Some block) → block.short ≡ false }
{
    for c in 0..streams {
        let Some(block) = finished.part(c) else {
            unreachable!()
        };
        if block.short() {
            return true;
        }
    }
    false
}
