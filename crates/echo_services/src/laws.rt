//! What the definitions say of a connection that is served: each law is a function that does nothing, whose contract is the law.

ghost use Rattle.std.specs.Prelude.{◌≡◌, false, ℕ, ◌+◌, ◌<◌, List, ◌∷◌};
ghost use Rattle.byte_queues.specs.ReceiveQueue.{next_of};
ghost use Rattle.segment_codec.specs.declared.packet.Seg.{Seg};
ghost use Rattle.tcb_machine.specs.BlockState.{Block, new_block, offered};
ghost use Rattle.tcb_machine.specs.Limits.{segment_growth};
ghost use Rattle.tcb_machine.specs.Validity.{IsValid};
ghost use Rattle.echo_services.specs.Chargen.{chargen};
ghost use Rattle.echo_services.specs.Daytime.{daytime};
ghost use Rattle.echo_services.specs.Discard.{discard};
ghost use Rattle.echo_services.specs.Echo.{echo};
ghost use Rattle.echo_services.specs.Pump.{pump};
ghost use Rattle.echo_services.specs.Pumping.{IsPump};
ghost use Rattle.echo_services.specs.Serving.{Entry, enters, segment, serves};
ghost use Rattle.echo_services.specs.WholeStreams.{IsBeside, IsEntry, AreEntries, AreBetween, HasNoClose, all_offered, whole_serves, whole_new};
ghost use Rattle.echo_services.specs.declared.service.Service.{Service};
ghost use Rattle.echo_services.specs.declared.service.Service.TheVariants.{Echo};

/// The pumps of the services here are such as the laws below speak of: any service whose pump is one has them.
pub fn services_are_pumps()
    ensures echo { IsPump echo }
    ensures discard { IsPump discard }
    ensures chargen { (given : ℕ) → IsPump (chargen given) }
    ensures daytime { (text : List ℕ) → IsPump (daytime text) }
    ensures by_port { (service : Service) → IsPump (pump service) }
{}

/// Whatever a connection is given leaves it a valid block, from a new one on. Where the service keeps something, each entry is served
/// by another pump.
pub fn every_served_block_is_valid()
    ensures one { (p : Block → Block) → IsPump p → (e : Entry) (b : Block) → IsEntry e → IsValid b → IsValid (enters p e b) }
    ensures all { (p : Block → Block) → IsPump p → (es : List Entry) (b : Block) → AreEntries es → IsValid b → IsValid (serves p es b) }
{}

/// Serving with the whole streams beside the block gives the same block, and so the same replies and state. The lists beside it have as many
/// bytes as the block counts as taken and as acknowledged: with what the block keeps they are the whole streams.
pub fn serving_is_kept()
    ensures block { (p : Block → Block) (es : List Entry) → (whole_serves p es whole_new).block ≡ serves p es new_block }
    ensures beside { (p : Block → Block) → IsPump p → (es : List Entry) → AreEntries es → IsBeside (whole_serves p es whole_new) }
{}

/// From one segment to the next, whatever calls and times stand between, the number of the next byte and the bytes offered
/// rise by less than 2^21 each.
pub fn a_segment_adds_little()
    ensures next { (p : Block → Block) → IsPump p → (now iss : ℕ) (s : Seg) (text : List ℕ) (es : List Entry) (b : Block) → AreBetween es → IsValid b
        → next_of (serves p (segment now iss s text ∷ es) b).recv < next_of b.recv + segment_growth }
    ensures offered { (p : Block → Block) → IsPump p → (now iss : ℕ) (s : Seg) (text : List ℕ) (es : List Entry) (b : Block) → AreBetween es → IsValid b
        → offered (serves p (segment now iss s text ∷ es) b) < offered b + segment_growth }
{}

/// What echo has offered since LISTEN is what it took, byte for byte, as long as our FIN isn't wanted (RFC 862). Where no program
/// closes, it is so behind the close too: our FIN follows all that the peer sent before its own.
pub fn echo_offers_what_it_took()
    ensures before { (es : List Entry) → AreEntries es → (whole_serves (pump Echo) es whole_new).block.fin_wanted ≡ false
        → all_offered (whole_serves (pump Echo) es whole_new) ≡ (whole_serves (pump Echo) es whole_new).read }
    ensures behind { (es : List Entry) → AreEntries es → HasNoClose es
        → all_offered (whole_serves (pump Echo) es whole_new) ≡ (whole_serves (pump Echo) es whole_new).read }
{}
