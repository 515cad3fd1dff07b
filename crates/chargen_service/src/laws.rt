//! What the definitions say of a block that generates: each law is a function that does nothing, whose contract is the law.

ghost use Rattle.std.specs.Prelude.{◌≡◌, ℕ, ◌+◌, ◌≤◌, List};
ghost use Rattle.tcb_machine.specs.Room.{StreamsBelow};
ghost use Rattle.tcb_machine.specs.Validity.{IsValid};
ghost use Rattle.chargen_service.specs.Chargen.{Generating, Entry, segment, time, enters, serves, new_generating};
ghost use Rattle.echo_services.specs.Chargen.{pattern_from};
ghost use Rattle.echo_services.specs.Limits.{most_given};
ghost use Rattle.chargen_service.specs.WholeStream.{whole_serves, whole_new, all_offered};
ghost use Rattle.segment_codec.specs.declared.packet.Seg.{Seg};
ghost use Rattle.tcb_machine.specs.Limits.{segment_growth};

/// Whatever a block is given leaves it valid, from a new one on.
pub fn every_served_block_is_valid()
    ensures { (es : List Entry) (x : Generating) → IsValid x.block → IsValid (serves es x).block }
{}

/// Serving with all that was offered beside the block gives the same block.
pub fn serving_is_kept()
    ensures { (es : List Entry) → (whole_serves es whole_new).now ≡ serves es new_generating }
{}

/// All bytes offered in the block's life, over all its connections, are the first bytes of the pattern, as many as it counts, and
/// at most 65,535.
pub fn the_pattern_is_offered()
    ensures offered { (es : List Entry) → all_offered (whole_serves es whole_new) ≡ pattern_from 0 (serves es new_generating).given }
    ensures most { (es : List Entry) → (serves es new_generating).given ≤ most_given }
{}

/// While both streams stand below a number, a segment takes neither 2^21 further, and a time takes neither further.
pub fn a_segment_adds_little()
    ensures segment { (most now iss : ℕ) (s : Seg) (text : List ℕ) (x : Generating) → IsValid x.block → StreamsBelow most x.block
        → StreamsBelow (most + segment_growth) (enters (segment now iss s text) x).block }
    ensures time { (most to : ℕ) (x : Generating) → StreamsBelow most x.block → StreamsBelow most (enters (time to) x).block }
{}
