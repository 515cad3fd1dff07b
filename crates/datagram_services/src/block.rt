//! What a stream's first items left.

ghost use Rattle.std.specs.Prelude.{◌≡◌, ◌+◌, ◌<◌, ◌^◌, false, [], OnOk};
ghost use Rattle.chargen_service.specs.Chargen.{new_generating};
ghost use Rattle.stream_plan.specs.Sound.{IsStream};
ghost use Rattle.stream_plan.specs.Streams.{item_count};
ghost use Rattle.datagram_services.specs.Standing.{HasServed};

use crate::answer::SentDatagram;
use crate::items::{answer, enter};
use capture_reader::Capture;
use chargen_service::GenBlock;
use std::alloc::{AllocError, Global};
use stream_plan::CapturedStream;

/// What a stream's first items were served into: the answers to its datagrams, in order, and the generator's block.
#[derive(Drop)]
pub struct StreamBlock {
    /// How many items were served.
    had: u64,
    answers: Vec<SentDatagram>,
    generator: GenBlock,
    /// Memory was missing: what is here is of no use.
    short: bool,
}

impl StreamBlock {
    /// Nothing was served. It takes no memory.
    pub(crate) fn make(alloc: Global) -> StreamBlock
        ensures had { result.had ≡ 0 }
        ensures whole { result.short ≡ false }
        ensures answers { result.answers.items ≡ [] }
        ensures generator { result.generator ≡ new_generating }
    {
        StreamBlock {
            had: 0,
            answers: Vec::new(alloc),
            generator: GenBlock::make(alloc),
            short: false,
        }
    }

    /// The answers to datagrams, in order.
    pub fn answers(&self) -> &[SentDatagram]
        ensures { result.now ≡ self.now.answers.items }
    {
        self.answers.as_slice()
    }

    /// The generator's block.
    pub fn generator(&self) -> &GenBlock
        ensures { result.now ≡ self.now.generator }
    {
        &self.generator
    }

    /// Whether memory was missing.
    pub fn short(&self) -> bool
        ensures { result ≡ self.now.short }
    {
        self.short
    }

    /// The stream's next item is served.
    pub(crate) fn feed(&mut self, alloc: Global, capture: &Capture, stream: &CapturedStream)
        requires stream { IsStream capture.now stream.now }
        requires few { item_count stream.now < 2 ^ 32 }
        requires next { self.old.had < item_count stream.now }
        requires so_far { self.old.short ≡ false → HasServed capture.now stream.now self.old }
        ensures had { self.new.had ≡ self.old.had + 1 }
        ensures served { self.new.short ≡ false → HasServed capture.now stream.now self.new }
    {
        if !self.short {
            self.short = self.serve_next(alloc, capture, stream).is_err();
        }
        self.had += 1;
    }

    // The stream's next item is served, and not counted.
    fn serve_next(
        &mut self,
        alloc: Global,
        capture: &Capture,
        stream: &CapturedStream,
    ) -> Result<(), AllocError>
        requires stream { IsStream capture.now stream.now }
        requires few { item_count stream.now < 2 ^ 32 }
        requires next { self.old.had < item_count stream.now }
        requires so_far { HasServed capture.now stream.now self.old }
        ensures had { self.new.had ≡ self.old.had }
        ensures served { OnOk result (HasServed capture.now stream.now (record self.new { had = self.old.had + 1 })) }
    {
        let n = self.had as usize;
        let datagrams = stream.datagrams();
        if n < datagrams.len() {
            answer(
                &mut self.answers,
                alloc,
                capture,
                &stream.tuple(),
                &datagrams[n],
            )
        } else {
            let item = &stream.items()[n - datagrams.len()];
            enter(&mut self.generator, alloc, capture, item)
        }
    }
}
