//! What the definitions say of every block: each law is a function that does nothing, whose contract is the law.

ghost use Rattle.std.specs.Prelude.{false, ◌≡◌, ℕ, ◌+◌, ◌<◌, ◌≤◌, List};
ghost use Rattle.byte_queues.specs.ReceiveQueue.{next_of};
ghost use Rattle.segment_codec.specs.declared.packet.Seg.{Seg};
ghost use Rattle.tcb_machine.specs.Beside.{AbortingKeeps, ProbingKeeps, ResendingKeeps, RetimingKeeps, ShowingKeeps};
ghost use Rattle.tcb_machine.specs.BlockState.{Block, new_block, offered};
ghost use Rattle.tcb_machine.specs.CallAnswers.{tcp_call};
ghost use Rattle.tcb_machine.specs.Challenges.{ChallengeIsAlone};
ghost use Rattle.tcb_machine.specs.Forgetting.{ForgettingKeepsNumber, ForgettingKeepsWindow, ForgettingHoldsOrder, ForgettingHoldsLess, ForgettingKeepsValid};
ghost use Rattle.tcb_machine.specs.Forgetting.{ForgettingKeepsNumbers, ForgettingAddsNothing};
ghost use Rattle.tcb_machine.specs.Shortening.{ShorteningLengthensNone, ShorteningKeepsValid, ShorteningKeepsNumbers, ShorteningAddsNothing};
ghost use Rattle.tcb_machine.specs.Numbering.{IsNumbered, SegmentKeepsNumbers, TimeKeepsNumbers, CallKeepsNumbers, OutputKeepsNumbers, ResendKeepsNumbers};
ghost use Rattle.tcb_machine.specs.Output.{output};
ghost use Rattle.tcb_machine.specs.Room.{StreamsBelow, SegmentAddsLittle, TimeAddsNothing, CallAddsNothing, OutputAddsNothing, ResendAddsNothing};
ghost use Rattle.tcb_machine.specs.States.{is_listen};
ghost use Rattle.tcb_machine.specs.TcpStep.{tcp_segment, OneSerialOrder};
ghost use Rattle.tcb_machine.specs.Timers.{tcp_time, retransmits, QuietBeforeDeadline};
ghost use Rattle.tcb_machine.specs.Validity.{IsValid, IsAskable, AtMostOneDeadline, left_by};
ghost use Rattle.tcb_machine.specs.declared.kinds.Call.{Call};
ghost use Rattle.tcb_machine.specs.Limits.{segment_growth};

/// The output rule sets no clock, takes nothing from the receive queue and offers nothing.
pub fn output_moves_no_text()
    ensures clock { (b : Block) → (output b).clock ≡ b.clock }
    ensures recv { (b : Block) → (output b).recv ≡ b.recv }
    ensures offered { (b : Block) → offered (output b) ≡ offered b }
{}

/// The timers take nothing from the receive queue and offer nothing.
pub fn timers_move_no_text()
    ensures taken { (to : ℕ) (b : Block) → (tcp_time to b).recv.taken ≤ b.recv.taken }
    ensures offered { (to : ℕ) (b : Block) → offered (tcp_time to b) ≤ offered b }
{}

/// A new block is valid, and whatever is given to a valid block leaves a valid one. So each of its replies has at most 1,460 bytes of
/// text and no options but the MSS of 1,460 and beside it the window scale of 5, and in LISTEN all is as new.
pub fn every_block_is_valid()
    ensures new { IsValid new_block }
    ensures segment { (now iss : ℕ) (s : Seg) (text : List ℕ) (b : Block) → IsValid b → IsValid (left_by (tcp_segment now iss s text b)) }
    ensures time { (to : ℕ) (b : Block) → IsValid b → IsValid (tcp_time to b) }
    ensures call { (call : Call) (b : Block) → IsAskable call → IsValid b → IsValid (left_by (tcp_call call b).verdict) }
    ensures output { (b : Block) → IsValid b → IsValid (output b) }
    ensures resent { (b : Block) → is_listen b.state ≡ false → IsValid b → IsValid (retransmits b.state b) }
    ensures forgotten { (b : Block) → IsValid b → IsValid (record b { retransmissions = 0 }) }
{}

/// A segment raises the number of the next byte by less than 2^21, and offers nothing; calls and timers raise neither.
pub fn a_segment_adds_little()
    ensures next { (now iss : ℕ) (s : Seg) (text : List ℕ) (b : Block) → IsValid b
        → next_of (left_by (tcp_segment now iss s text b)).recv < next_of b.recv + segment_growth }
    ensures offered { (now iss : ℕ) (s : Seg) (text : List ℕ) (b : Block) → IsValid b → offered (left_by (tcp_segment now iss s text b)) ≤ offered b }
    ensures next_timed { (to : ℕ) (b : Block) → next_of (tcp_time to b).recv ≤ next_of b.recv }
    ensures next_called { (call : Call) (b : Block) → next_of (left_by (tcp_call call b).verdict).recv ≤ next_of b.recv }
    ensures offered_called { (call : Call) (b : Block) → offered (left_by (tcp_call call b).verdict) ≡ offered b }
{}

/// A new block has room, and while it stands below a number a segment takes neither stream 2^21 further, and nothing else takes one
/// further. So a connection of fewer than 2^40 segments has room all the time.
pub fn streams_grow_little()
    ensures new { StreamsBelow 1 new_block }
    ensures segment { SegmentAddsLittle }
    ensures time { TimeAddsNothing }
    ensures call { CallAddsNothing }
    ensures output { OutputAddsNothing }
    ensures resent { ResendAddsNothing }
{}

/// At most one deadline of a valid block is set.
pub fn at_most_one_deadline_is_set()
    ensures { AtMostOneDeadline }
{}

/// Until the next deadline the time sets the clock, and does nothing else.
pub fn nothing_fires_before_the_next_deadline()
    ensures { QuietBeforeDeadline }
{}

/// Sequence numbers have one order, that of `sq_base`.
pub fn sequence_numbers_have_one_order()
    ensures { OneSerialOrder }
{}

/// SND.UNA and the count of acknowledged bytes go together: behind the handshake SND.UNA stands behind our SYN, the bytes that were
/// acknowledged, and our FIN where it was (RFC 9293, 3.4).
pub fn acknowledged_numbers_and_bytes_go_together()
    ensures new { IsNumbered new_block }
    ensures segment { SegmentKeepsNumbers }
    ensures time { TimeKeepsNumbers }
    ensures call { CallKeepsNumbers }
    ensures output { OutputKeepsNumbers }
    ensures resent { ResendKeepsNumbers }
{}

/// A segment that is challenged is answered by an acknowledgement, and changes nothing else.
pub fn a_challenge_is_alone()
    ensures { ChallengeIsAlone }
{}

/// A block that forgets the text behind a gap announces the same, and holds what is in order and what it offered, so no more than before.
/// All that holds of every block holds of it.
pub fn forgetting_keeps_what_is_acknowledged()
    ensures number { ForgettingKeepsNumber }
    ensures window { ForgettingKeepsWindow }
    ensures held { ForgettingHoldsOrder }
    ensures less { ForgettingHoldsLess }
    ensures valid { ForgettingKeepsValid }
    ensures numbers { ForgettingKeepsNumbers }
    ensures room { ForgettingAddsNothing }
{}

/// A block that sends no longer segments than its path takes lengthens none. All that holds of every block holds of it.
pub fn shortening_lengthens_no_segment()
    ensures less { ShorteningLengthensNone }
    ensures valid { ShorteningKeepsValid }
    ensures numbers { ShorteningKeepsNumbers }
    ensures room { ShorteningAddsNothing }
{}

/// What a server beside a block sets and sends leaves a block of which all holds that holds of every block.
pub fn a_server_beside_keeps_a_block()
    ensures retimed { RetimingKeeps }
    ensures shown { ShowingKeeps }
    ensures resent { ResendingKeeps }
    ensures probed { ProbingKeeps }
    ensures aborted { AbortingKeeps }
{}
