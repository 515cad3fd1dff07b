//! What is written out was served, and what was done was all that was asked.

ghost use Rattle.std.specs.Prelude.{◌≡◌, ℕ, ◌+◌, ◌∷◌, true, false, None, Some, [], sum, sum_by};
ghost use Rattle.std.proofs.Common.{Global};
ghost use Rattle.rtrb.specs.declared.AnyItems.{AnyItems};
ghost use Rattle.rtrb.specs.declared.consumer.Consumer.{Consumer};
ghost use Rattle.sq_base.specs.declared.kinds.Status.TheVariants as status;
ghost use Rattle.sq_base.specs.declared.kinds.Tuple.{Tuple};
ghost use Rattle.capture_reader.specs.Outcome.{CaptureFile};
ghost use Rattle.pcapng_reader.specs.Input.{IsInput};
ghost use Rattle.conn_classifier.specs.Plan.{plan_of};
ghost use Rattle.conn_classifier.specs.declared.kinds.Counts.{Counts};
ghost use Rattle.conn_classifier.specs.declared.kinds.Item.{Item};
ghost use Rattle.turn_gate.specs.declared.pass.Pass.{Pass};
ghost use Rattle.perimeter_core.specs.Ending.{IsOver};
ghost use Rattle.perimeter_core.specs.History.{Element, run};
ghost use Rattle.perimeter_core.specs.Legal.{Legal};
ghost use Rattle.perimeter_core.specs.declared.known.Known.{Known};
ghost use Rattle.placed_parts.specs.declared.places.Places.{Places};
ghost use Rattle.histories.specs.declared.mode.Mode.TheVariants as Mode;
ghost use Rattle.squeue_pool.specs.Calls.{HaveHadAll, WasDoneBy};
ghost use Rattle.squeue_pool.specs.Keeping.{PassesKeep};
ghost use Rattle.squeue_pool.specs.ServedParts.{IsServed, WasServedBy};
ghost use Rattle.squeue_pool.specs.declared.served.ServedParts.{ServedParts};
ghost use Rattle.histories.specs.Keeping.{KeepsPace};
ghost use Rattle.moving_bank.specs.Settling.{statements_of};
ghost use Rattle.squeue_state.specs.Naming.{Named};
ghost use Rattle.squeue_streams.specs.declared.streams.Stream.{Stream};
ghost use Rattle.squeue_arrivals.specs.Arriving.{IsServedIn};
ghost use Rattle.squeue_arrivals.specs.Watching.{SawLast};
ghost use Rattle.squeue_arrivals.specs.declared.served.ServedSource.{ServedSource};
ghost use Rattle.stream_stays.specs.declared.stay.Stay.{Stay};
ghost use Rattle.stream_stays.specs.declared.stay.Vacant.{Vacant};
ghost use Rattle.ring_quotas.specs.Quotas.{setting_at};
ghost use Rattle.ring_threads.specs.Served.{HasServed};
ghost use Rattle.datagram_services.specs.MoreRan.{HasMoreRan, MoreAccepts};
ghost use Rattle.datagram_services.specs.MoreWords.{more_setup};
ghost use Rattle.datagram_services.specs.Served.{HasMoreServed};
ghost use Rattle.trace_replay.specs.Answers.{HasReplayed};
ghost use Rattle.trace_replay.specs.Replays.{Replays, most_input};
ghost use Rattle.trace_replay.specs.declared.run.Replayed.TheVariants as replayed;
ghost use Rattle.live_rings.specs.Served.{AllEnded, AllLived};
ghost use Rattle.squeue_run.specs.Asked.{asked};
ghost use Rattle.squeue_run.specs.Ran.{Accepts, HasRan};
ghost use Rattle.worked_runs.specs.FiveSegments as Five;
ghost use Rattle.worked_runs.specs.OneArrival as Arrived;
ghost use Rattle.worked_runs.specs.OneArrival.{ComesBy, GaveOne, HasItsItem};
ghost use Rattle.worked_runs.specs.OneCall as Called;
ghost use Rattle.worked_runs.specs.OneCall.{AreResidents};
ghost use Rattle.worked_runs.specs.OneClose as Closed;
ghost use Rattle.worked_runs.specs.OneClose.{HasClosed, IsClosed};
ghost use Rattle.worked_runs.specs.OneDatagram as Echoed;
ghost use Rattle.worked_runs.specs.OneEcho as Frames;
ghost use Rattle.worked_runs.specs.OneKey as Keyed;
ghost use Rattle.worked_runs.specs.OneKey.{IsLeftOf};
ghost use Rattle.worked_runs.specs.OneLook as Looked;
ghost use Rattle.worked_runs.specs.OneLook.{HasLooked, IsLooked};
ghost use Rattle.worked_runs.specs.OneSqueue as One;
ghost use Rattle.worked_runs.specs.OneTransfer as Paid;
ghost use Rattle.worked_runs.specs.TracedCall as Traced;
ghost use Rattle.worked_runs.specs.TwoSqueues as Two;

use placed_parts::Parts;
use replay_law::laws::a_traced_run_replays;
use squeue_arrivals::{Arrivals, KeySteps};
use squeue_streams::Steps;

/// The history is legal, ends, keeps the pace of its setup, each mark of all passes is the one for what its turn found, and it has the
/// setting of its homes and quotas.
pub fn a_history_fits()
    ensures legal { Legal One.setting One.history }
    ensures over { IsOver One.setting (run One.setting One.history) }
    ensures keeps { KeepsPace 1 0 Mode.Process 64 0 One.setting 0 One.history }
    ensures passes { PassesKeep Mode.Process One.ending }
    ensures set { (file : CaptureFile) (counts : Counts) (t : Tuple) (x y : Item) → One.setting ≡ setting_at (One.plan file counts t x y) [] 1 1 0 0 }
{}

/// There is a run: for every capture, tuple and two items, what is written out was served.
pub fn there_is_a_run()
    ensures { (file : CaptureFile) (counts : Counts) (t : Tuple) (x y : Item)
        → HasServed (One.plan file counts t x y) [] One.setup (One.served (One.plan file counts t x y)) }
{
    a_history_fits();
}

/// Of a run with a move, the history of the squeue at which the connection begins.
pub fn a_history_with_an_out_fits()
    ensures legal { Legal Two.first_setting Two.first_history }
    ensures over { IsOver Two.first_setting (run Two.first_setting Two.first_history) }
    ensures keeps { KeepsPace 2 1 Mode.Process 64 0 Two.first_setting 0 Two.first_history }
    ensures passes { PassesKeep Mode.Process Two.first }
    ensures set { (file : CaptureFile) (counts : Counts) (t : Tuple) (x y : Item) → Two.first_setting ≡ setting_at (One.plan file counts t x y) [] 2 1 1 0 }
{}

/// And of the squeue to which it moves.
pub fn a_history_with_an_in_fits()
    ensures legal { Legal Two.second_setting Two.second_history }
    ensures over { IsOver Two.second_setting (run Two.second_setting Two.second_history) }
    ensures keeps { KeepsPace 2 1 Mode.Process 64 1 Two.second_setting 0 Two.second_history }
    ensures passes { PassesKeep Mode.Process Two.second }
    ensures set { (file : CaptureFile) (counts : Counts) (t : Tuple) (x y : Item) → Two.second_setting ≡ setting_at (One.plan file counts t x y) [] 2 1 1 1 }
{}

/// There is a run with a move: for every capture, tuple and two items, what is written out with two squeues was served.
pub fn there_is_a_run_with_a_move()
    ensures { (file : CaptureFile) (counts : Counts) (t : Tuple) (x y : Item)
        → HasServed (One.plan file counts t x y) [] Two.setup (Two.served (One.plan file counts t x y)) }
{
    a_history_with_an_out_fits();
    a_history_with_an_in_fits();
}

/// The bytes that are written out of a short echo session are a capture, and its plan is the one that is written out.
pub fn a_capture_has_a_plan()
    ensures capture { IsInput Five.file }
    ensures plan { plan_of Five.file false ≡ Five.plan }
{}

/// Of a run over it, the history of its squeue.
pub fn a_history_of_six_feeds_fits()
    ensures legal { Legal Five.setting Five.history }
    ensures over { IsOver Five.setting (run Five.setting Five.history) }
    ensures keeps { KeepsPace 1 0 Mode.Process 64 0 Five.setting 0 Five.history }
    ensures passes { PassesKeep Mode.Process Five.ending }
    ensures set { Five.setting ≡ setting_at Five.plan Five.no_calls 1 1 0 0 }
{}

/// There is a whole run that ends well: without words, over this capture, its report was written, and what is written out was served
/// and is handed back. And the capture is one with which a run has to end so, but for want of memory, or a read or a write
/// that fails.
pub fn there_is_a_run_that_ends_well()
    ensures ran { HasRan (asked []) Five.source Five.out Five.err (Some Five.served) status.Ok }
    ensures accepted { Accepts (asked []) (Some Five.file.bytes) }
{
    a_history_of_six_feeds_fits();
}

/// Of a run over it with a call, the history of its squeue.
pub fn a_history_with_a_call_between_fits()
    ensures legal { Legal Traced.setting Traced.history }
    ensures over { IsOver Traced.setting (run Traced.setting Traced.history) }
    ensures keeps { KeepsPace 1 0 Mode.Process 64 0 Traced.setting 0 Traced.history }
    ensures passes { PassesKeep Mode.Process Traced.ending }
    ensures set { Traced.setting ≡ setting_at Five.plan Traced.calls 1 1 0 0 }
{}

/// There is a run of a connection with a call: what is written out was served, between two segments a call, and its marks were kept.
pub fn there_is_a_run_with_a_call()
    ensures { HasServed Five.plan Traced.calls (One.setup_by true) Traced.served }
{
    a_history_with_a_call_between_fits();
}

/// And such a whole run, for words that ask for the call and for the marks: its report was written with them. So with these words over this
/// capture a run has to end, but for want of memory, or a read or a write that fails.
pub fn there_is_a_traced_run()
    ensures ran { HasRan (asked Traced.words) Five.source Traced.out Five.err (Some Traced.served) status.Ok }
    ensures accepted { Accepts (asked Traced.words) (Some Five.file.bytes) }
{
    a_history_with_a_call_between_fits();
}

/// What that run wrote replays, with the capture behind it, and there is a run of the replay that says so.
pub fn there_is_a_replay()
    ensures replays { Replays Traced.input }
    ensures replayed { HasReplayed most_input false Traced.replay_source Traced.replay_out Five.err replayed.Yes }
{
    there_is_a_traced_run();
    a_traced_run_replays();
}

/// Of a run of `sqmore`, the history of its squeue.
pub fn a_history_of_one_feed_fits()
    ensures legal { Legal Echoed.setting Echoed.history }
    ensures over { IsOver Echoed.setting (run Echoed.setting Echoed.history) }
    ensures keeps { KeepsPace 1 0 Mode.Process 64 0 Echoed.setting 0 Echoed.history }
    ensures passes { PassesKeep Mode.Process Echoed.ending }
{}

/// There is a run of `sqmore` that ends well: without words, over a capture of one datagram, its report was written; with that capture a run
/// has to end so, but for want of memory, or a read or a write that fails. And what is written out was served by a squeue.
pub fn there_is_a_run_over_datagrams()
    ensures ran { HasMoreRan (more_setup []) Echoed.source Echoed.out Five.err status.Ok }
    ensures accepted { MoreAccepts (more_setup []) (Some Echoed.file.bytes) }
    ensures served { HasMoreServed Echoed.plan One.setup Echoed.served }
{
    a_history_of_one_feed_fits();
}

/// Of a run of live servers with one connection, the history of its squeue is legal, and ends.
pub fn a_history_of_one_life_fits()
    ensures legal { Legal Frames.setting Frames.history }
    ensures over { IsOver Frames.setting (run Frames.setting Frames.history) }
{}

/// There is a run of live servers that ends well: of the one stream, whose ends are lists, all frames were read, of a connection that opens,
/// sends a text and closes; and what was written is a SYN,ACK, the text, and a FIN. In the history that is written out its part had a feed
/// for its beginning, and one for each frame that it heard.
pub fn there_is_a_run_over_frames()
    ensures ended { (pass : Known (Pass Element))
        → AllEnded (λ bytes. Some bytes) (λ _. 0) (λ bytes. Some bytes) (λ _. 0) Frames.layout (Frames.before ∷ []) (Frames.after pass ∷ []) }
    ensures lived { (pass : Known (Pass Element)) → AllLived (λ bytes. Some bytes) (λ _. 0) (λ bytes. Some bytes) (λ _. 0)
        Frames.layout (Frames.ending ∷ []) (Frames.before ∷ []) (Frames.after pass ∷ []) }
{
    a_history_of_one_life_fits();
}

/// Of a run with a call, the history is legal, ends, and keeps the pace of its pool, and each mark of all passes is the one for what its
/// turn found.
pub fn a_history_with_a_call_fits()
    ensures legal { Legal Called.setting Called.history }
    ensures over { IsOver Called.setting (run Called.setting Called.history) }
    ensures keeps { KeepsPace 1 0 Mode.Process 64 0 Called.setting 0 Called.history }
    ensures passes { PassesKeep Mode.Process Called.ending }
{}

/// There is work with a call: for parts of every kind, the pool did what is written out, and the part has had all its feeds and its
/// call.
pub fn there_is_work_with_a_call<S: Parts>()
    ensures done { (shared : S) (first last : Places S S.Part S.Origin S.Parts) (new part : S.Part) → AreResidents S.Parts shared first last new part
        → WasDoneBy S.Parts shared Called.counts Called.calls Called.pool (Called.finished part) }
    ensures had { (shared : S) (first last : Places S S.Part S.Origin S.Parts) (new part : S.Part) → AreResidents S.Parts shared first last new part
        → HaveHadAll S.Parts shared Called.counts Called.calls (Called.finished part) }
{
    a_history_with_a_call_fits();
}

/// Of work by key, the history is legal, ends, and keeps the pace of its pool, and each mark of all passes is the one for what its turn
/// found.
pub fn a_history_by_key_fits()
    ensures legal { Legal Keyed.setting Keyed.history }
    ensures over { IsOver Keyed.setting (run Keyed.setting Keyed.history) }
    ensures keeps { KeepsPace 1 0 Mode.Process 64 0 Keyed.setting 0 Keyed.history }
    ensures passes { PassesKeep Mode.Process Keyed.ending }
{}

/// There is work by key: for parts of every kind, the pool served what is written out, and the part has had all its feeds. With one feed less
/// it wasn't served by this pool.
pub fn there_is_work_by_key<S: Parts>()
    ensures served { (v : ServedParts S S.Part S.Origin S.Parts) (first last : Places S S.Part S.Origin S.Parts) (new part : S.Part)
        → IsLeftOf S.Parts Keyed.ending v first last new part → IsServed v × WasServedBy Called.pool v }
    ensures refused { (v : ServedParts S S.Part S.Origin S.Parts) (first last : Places S S.Part S.Origin S.Parts) (new part : S.Part)
        → IsLeftOf S.Parts Keyed.too_short v first last new part → WasServedBy Called.pool v → ⊥ }
{
    a_history_by_key_fits();
}

/// Of a look, the history is legal.
pub fn a_history_with_a_look_fits()
    ensures legal { Legal Looked.setting Looked.after }
{}

/// There is a look: for parts of every kind, what is read behind two feeds is the part that stands for both; and an empty place is no answer.
pub fn there_is_a_look<S: Parts>()
    ensures seen { (s : Named (Places S S.Part S.Origin S.Parts)) (r : Places S S.Part S.Origin S.Parts) (part : S.Part) (from to : Pass Element)
        → IsLooked S.Parts s r part from to → HasLooked S.Parts s from to (Some part ∷ []) }
    ensures refused { (s : Named (Places S S.Part S.Origin S.Parts)) (r : Places S S.Part S.Origin S.Parts) (part : S.Part) (from to : Pass Element)
        → IsLooked S.Parts s r part from to → HasLooked S.Parts s from to (None ∷ []) → ⊥ }
{
    a_history_with_a_look_fits();
}

/// Of work that arrives, the history is legal, also up to the look, and ends.
pub fn a_history_of_one_arrival_fits()
    ensures legal { Legal Arrived.setting Arrived.ending.history }
    ensures looked { Legal Arrived.setting Arrived.looked }
    ensures over { IsOver Arrived.setting (run Arrived.setting Arrived.ending.history) }
{}

/// There is work that arrives: for items and sources of every kind, a source that gave one item is served, in the history that is written
/// out, where the item's key has its part, and isn't where it has none; and who looked saw the part.
pub fn there_is_work_that_arrives<X: KeySteps, A: Arrivals<Item = X::Item>>()
    ensures served { (work : X) (source : A) (left : ServedSource A X.Item X.State) (key : ℕ) (item : X.Item) (from to : X.State)
        → GaveOne A.origin A.given A.is_over source left key item → ComesBy X.begins X.step work item from to
        → left.parts.items ≡ record { key = key; state = to } ∷ []
        → IsServedIn X.begins X.step A.origin A.given A.is_over work 1 Arrived.ending 0 source left }
    ensures refused { (work : X) (source : A) (left : ServedSource A X.Item X.State) (key : ℕ) (item : X.Item)
        → GaveOne A.origin A.given A.is_over source left key item → left.parts.items ≡ []
        → IsServedIn X.begins X.step A.origin A.given A.is_over work 1 Arrived.ending 0 source left → ⊥ }
    ensures seen { (work : X) (stream : Stream X.Item X.State) (item : X.Item) (from : X.State) → HasItsItem X.begins X.step work stream item from
        → SawLast X.begins X.step work (λ parts seen. seen ≡ parts) Arrived.setting 1 1 Arrived.ending.history (Some (Some stream ∷ [])) }
{
    a_history_of_one_arrival_fits();
}

/// There are statements: these are those of two accounts, and all that was paid in and sent stands in them.
pub fn there_are_statements()
    ensures statements { statements_of Paid.deposits Paid.transfers ≡ Paid.statements }
    ensures kept { sum_by (λ s. s.credit) Paid.statements ≡ sum_by sum Paid.deposits + sum_by (λ s. s.debit) Paid.statements }
{}

/// Of a place that is closed, the history is legal.
pub fn a_history_with_a_close_fits()
    ensures legal { Legal Closed.setting Closed.history }
{}

/// There is a place that is closed: for items and steps of every kind, its part has had a feed for its only item, and took it, from a state
/// in which it may begin. In a history without the feed it wasn't closed so.
pub fn there_is_a_close<X: Steps>()
    ensures closed { (o : X.Origin) (stay : Stay X.Item) (vacant : Vacant X.Item X.State) (item : X.Item) (from : X.State)
        (input : Consumer X.Item Global AnyItems) → IsClosed X.begins X.step o stay vacant item from input
        → HasClosed X.begins X.step o stay vacant Closed.history }
    ensures refused { (o : X.Origin) (stay : Stay X.Item) (vacant : Vacant X.Item X.State) (item : X.Item) (from : X.State)
        (input : Consumer X.Item Global AnyItems) → IsClosed X.begins X.step o stay vacant item from input
        → HasClosed X.begins X.step o stay vacant Closed.unfed → ⊥ }
{
    a_history_with_a_close_fits();
}
