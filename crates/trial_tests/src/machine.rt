//! The machine on worked histories, what each mark needs, and a resident through its bound.
ghost use Rattle.std.specs.Prelude.{◌≡◌, ◌<◌, ◌≤◌, List, length, [], ◌∷◌, ◌++◌, Some, Contains, slice_index};
ghost use Rattle.perimeter_core.specs.declared.entries.Act.{Act};
ghost use Rattle.perimeter_core.specs.declared.entries.Act.TheVariants as Did;
ghost use Rattle.perimeter_core.specs.declared.entries.Entry.TheVariants as Entry';
ghost use Rattle.perimeter_core.specs.declared.marks.SynchAct.TheVariants as Done;
ghost use Rattle.perimeter_core.specs.Blocks.{Blocks, with_feeds, with_act};
ghost use Rattle.perimeter_core.specs.Residing.{HadFeeds};

use perimeter_core::{Act, Core, Entry, Few, Hook, Mark, NoHook, Own, Resident, SynchAct};
use perimeter_trial::Logs;
use std::alloc::Global;
use std::process::Abort;
use std::test::Fail;

// Feed `n` of connection `c`.
fn feed(c: u32, n: u32) -> Entry {
    Entry::Feed { c, n }
}

// The Ask of pass `p`.
fn ask(p: u32) -> Entry {
    Entry::Ask { p }
}

// A mark that its condition allows, and then who has the perimeter, how many entries stand in chain and hand, and the wake.
type Row = (Mark, Own, usize, usize, bool);

// The state after the marks of the rows.
fn follow<A: Abort>(rt: &A, start: Core, rows: &[Row]) -> Core {
    let mut core = start;
    for (i, (mark, own, chain, hand, wake)) in rows.iter().enumerate() {
        assert!(rt; core.takes(mark), "row {i}");
        core = core.step(mark).expect(rt, "the mark's condition holds");
        assert_eq!(rt; core.own(), *own, "row {i}");
        assert_eq!(rt; core.chain().len(), *chain, "row {i}");
        assert_eq!(rt; core.hand().len(), *hand, "row {i}");
        assert_eq!(rt; core.wake(), *wake, "row {i}");
    }
    core
}

// Each of the marks fails its condition.
fn refuse<A: Abort>(rt: &A, core: &Core, marks: &[Mark]) {
    for (i, mark) in marks.iter().enumerate() {
        assert!(rt; core.takes(mark), "mark {i}");
        assert!(rt; core.step(mark).is_none(), "mark {i}");
    }
}

// The pass queues the entries.
fn fill(p: u32, entries: &[Entry]) -> Mark
    requires { length entries.now ≤ 32 }
{
    Mark::Fill(p, Few::of(entries))
}

// The pass takes the whole queue and the entries.
fn claim(p: u32, entries: &[Entry]) -> Mark
    requires { length entries.now ≤ 32 }
{
    Mark::Claim(p, Few::of(entries))
}

#[test]
fn three_passes_one_worker(rt: HostRuntime) {
    let rows = [
        (fill(0, &[feed(0, 0), feed(0, 1)]), Own::Free, 2, 0, true),
        (fill(1, &[feed(1, 0), feed(1, 1)]), Own::Free, 4, 0, true),
        (fill(2, &[feed(2, 0)]), Own::Free, 5, 0, true),
        (Mark::Close(0), Own::Free, 5, 0, true),
        (Mark::Close(1), Own::Free, 5, 0, true),
        (Mark::Close(2), Own::Free, 5, 0, true),
        (Mark::Work(3), Own::Out(3), 0, 5, false),
        (Mark::Leave(3, 0, SynchAct::None), Own::Free, 0, 0, false),
    ];
    let core = follow(&rt, Core::start(4, 4), &rows);
    assert_eq!(rt; core.passes(), 4);
    assert!(rt; core.is_closed(0) && core.is_closed(2) && !core.is_closed(3));
}

#[test]
fn granted_call(rt: HostRuntime) {
    let called = SynchAct::Call { c: 0, j: 0, k: 0 };
    let rows = [
        (claim(0, &[feed(0, 0)]), Own::Out(0), 0, 1, false),
        (Mark::Ask(2), Own::Out(0), 1, 1, false),
        (fill(1, &[feed(1, 0)]), Own::Out(0), 2, 1, false),
        (Mark::Take(0), Own::Out(0), 0, 2, false),
        (Mark::Grant(0, 2, 1), Own::Granted(2), 1, 0, false),
        (Mark::Accept(2), Own::Out(2), 1, 0, false),
        (Mark::Leave(2, 0, called), Own::Free, 1, 0, true),
        (Mark::Work(3), Own::Out(3), 0, 1, false),
        (Mark::Leave(3, 0, SynchAct::None), Own::Free, 0, 0, false),
        (Mark::Fast(1, feed(1, 1)), Own::Out(1), 0, 1, false),
    ];
    follow(&rt, Core::start(4, 2), &rows);
}

#[test]
fn one_migration(rt: HostRuntime) {
    let out = SynchAct::Out { c: 0 };
    let moved_out = [
        (fill(0, &[feed(0, 0), feed(0, 1)]), Own::Free, 2, 0, true),
        (claim(0, &[ask(0)]), Own::Out(0), 0, 3, false),
        (Mark::Leave(0, 0, out), Own::Free, 0, 0, false),
    ];
    let core = follow(&rt, Core::start(2, 1), &moved_out);
    assert_eq!(rt; core.conns(), 1);
    assert!(rt; !core.is_here(0));
    let back = SynchAct::In { c: 0 };
    let moved_in = [
        (claim(0, &[ask(0)]), Own::Out(0), 0, 1, false),
        (Mark::Leave(0, 0, back), Own::Free, 0, 0, false),
    ];
    let core = follow(&rt, core, &moved_in);
    assert_eq!(rt; core.conns(), 1);
    assert!(rt; core.is_here(0));
}

#[test]
fn each_condition_refuses(rt: HostRuntime) {
    let free = [
        fill(0, &[]),
        claim(0, &[]),
        Mark::Take(0),
        Mark::Leave(0, 0, SynchAct::None),
        Mark::Ask(0),
        Mark::Grant(0, 1, 0),
        Mark::Accept(0),
        Mark::Work(3),
    ];
    refuse(&rt, &Core::start(4, 4), &free);
    let filled = [(fill(0, &[feed(0, 0)]), Own::Free, 1, 0, true)];
    let core = follow(&rt, Core::start(4, 4), &filled);
    let refused_fast = [Mark::Fast(0, feed(0, 1)), Mark::Work(2)];
    refuse(&rt, &core, &refused_fast);
}

#[test]
fn each_condition_of_an_owner_refuses(rt: HostRuntime) {
    let hand = [feed(1, 0), ask(1), feed(0, 0), ask(0)];
    let owned = [(claim(0, &hand), Own::Out(0), 0, 4, false)];
    let core = follow(&rt, Core::start(4, 4), &owned);
    let out = [
        Mark::Fast(1, feed(1, 0)),
        claim(1, &[feed(1, 0)]),
        Mark::Take(0),
        Mark::Leave(1, 0, SynchAct::None),
        Mark::Leave(0, 5, SynchAct::None),
        Mark::Grant(1, 0, 0),
        Mark::Grant(0, 1, 5),
        Mark::Grant(0, 1, 1),
        Mark::Grant(0, 0, 0),
        Mark::Accept(0),
        Mark::Work(3),
        Mark::Close(0),
        Mark::Close(1),
    ];
    refuse(&rt, &core, &out);
    let grant = [(Mark::Grant(0, 1, 2), Own::Granted(1), 2, 0, false)];
    let core = follow(&rt, core, &grant);
    let granted = [
        Mark::Take(1),
        Mark::Accept(0),
        Mark::Close(1),
        Mark::Close(0),
    ];
    refuse(&rt, &core, &granted);
    let close = [(Mark::Close(2), Own::Granted(1), 2, 0, false)];
    refuse(&rt, &follow(&rt, core, &close), &[Mark::Close(2)]);
}

#[test]
fn polling_mark(rt: HostRuntime) {
    let fifteen = [(fill(0, &[feed(0, 0); 15]), Own::Free, 15, 0, true)];
    let core = follow(&rt, Core::start(2, 1), &fifteen);
    assert!(rt; !core.polling());
    let one_more = [(fill(0, &[feed(0, 15)]), Own::Free, 16, 0, true)];
    let core = follow(&rt, core, &one_more);
    assert!(rt; core.polling());
    assert!(rt; !core.takes(&fill(0, &[feed(0, 16); 17])));
    let worked = [(Mark::Work(1), Own::Out(1), 0, 16, false)];
    let core = follow(&rt, core, &worked);
    assert!(rt; !core.polling());
}

// One feed and one call, and then out and in again.
fn each_call<R: Resident>(alloc: Global, resident: &mut R, c: u32, j: u32, k: u32)
    requires range { c < R.size resident.old }
    requires fresh { HadFeeds (R.stands resident.old) c 0 }
    requires limit { 0 < slice_index (R.limits resident.old).feeds c }
    requires exists { Contains (R.limits resident.old).calls (c, j, k) }
    ensures size { R.size resident.new ≡ R.size resident.old }
    ensures stands { (blocks : Blocks) (had : List Act) → R.stands resident.old blocks → blocks c ≡ Some had
        → R.stands resident.new (with_act (Done.In c) (had ++ Did.Feed 0 ∷ Did.Call j k ∷ [])
        (with_act (Done.Out c) [] (with_act (Done.Call c j k) [] (with_feeds (Entry'.Feed c 0 ∷ []) blocks)))) }
{
    resident.feed(alloc, c, 0);
    resident.call(alloc, c, j, k);
    let part = resident.take_out(c);
    resident.put_in(c, part);
}

#[test]
fn logs_by_their_bound(rt: HostRuntime) -> Result<(), Fail> {
    let alloc = rt.alloc();
    let mut calls = Vec::new(alloc);
    calls.push((0, 1, 2))?;
    let mut logs = Logs::make(alloc, &[true, false], 3, 1, calls)?;
    each_call(alloc, &mut logs, 0, 1, 2);
    assert_eq!(rt; logs.conns(), 2);
    assert!(rt; logs.is_here(0) && !logs.is_here(1));
    let done = logs.log(0).ok_or("here")?;
    assert_eq!(rt;
        done.acts(),
        [Act::Feed { n: 0 }, Act::Call { j: 1, k: 2 }].as_slice()
    );
    assert!(rt; !done.short());
    NoHook.before(0, 0, 0);
    Ok(())
}
