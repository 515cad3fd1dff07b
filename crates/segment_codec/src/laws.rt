//! What is sent is read again.

ghost use Rattle.sq_base.specs.declared.kinds.Tuple.{Tuple};
ghost use Rattle.segment_codec.specs.Options.{OptionsAreReadAgain};
ghost use Rattle.segment_codec.specs.declared.packet.Reply.{Reply};
ghost use Rattle.segment_codec.specs.SentIsRead.{Fits, ReadsAgain};

/// The bytes of a sent segment decode, as raw IP with its checksums verified, to its own fields.
pub fn what_is_sent_is_read()
    ensures { (tuple : Tuple) (reply : Reply) → Fits tuple reply → ReadsAgain tuple reply }
{}

/// The bytes of options, whose values fit them, say these options.
pub fn written_options_are_read()
    ensures { OptionsAreReadAgain }
{}
