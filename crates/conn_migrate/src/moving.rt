//! A move and its two halves.
ghost use Rattle.std.specs.Prelude.{◌≡◌, ◌<◌, [], true, false};
ghost use Rattle.perimeter_core.specs.declared.marks.SynchAct.TheVariants as Done;
ghost use Rattle.perimeter_core.specs.Deeds.{acts, due};
ghost use Rattle.squeue_state.specs.Naming.{setting_of};
ghost use Rattle.synch_enter.specs.Hinting.{conns_of, squeues_of};
ghost use Rattle.turn_gate.specs.Passes.{seen};
ghost use Rattle.conn_migrate.specs.Moving.{MayLeave, MayCome, Moved, RingLearns};

use perimeter_core::{Hook, Resident};
use squeue_state::{Notes, Pass, Squeue};
use std::alloc::Global;
use std::marker::Brand;
use std::sync::Wait;
use synch_enter::{Hints, put_block, synch_enter, synch_exit, take_block};

/// Moves the block of connection `c` from squeue `a` to squeue `b`. The passes are those of its ring. The hint of `c` names
/// `b` before the ring leaves there.
///
/// It waits twice to be owner. What was queued before it at either squeue is processed on the way, each feed first by `hook`
/// and then by the resident with `alloc`. It gives the passes of `a` and `b`. The next feed of `c` has at `b` the number that
/// it would have had at `a`.
///
/// # Example
///
/// ```
/// let hints = Hints::make(alloc, 3, 2)?;
/// ...
/// let (ring_a, ring_b) = migrate(&rt, alloc, &NoHook, &a, ring_a, &b, ring_b, 2, &hints);
/// assert_eq!(rt; hinted(&hints), [0, 1, 1]);
/// ```
pub fn migrate<R: Resident, H: Hook, W: Wait>(
    rt: &W,
    alloc: Global,
    hook: &H,
    a: &Squeue<R>,
    pass_a: Pass,
    b: &Squeue<R>,
    pass_b: Pass,
    c: u32,
    hints: &Hints,
) -> (Pass, Pass)
    requires from { MayLeave R.limits a.now c pass_a }
    requires to { MayCome R.limits b.now c pass_b }
    requires origin { R.origin a.now.given.first ≡ R.origin b.now.given.first }
    requires hint { (c < conns_of hints.now) × (b.now.given.number < squeues_of hints.now) }
    ensures out { Moved R.limits a.now (Done.Out c) [] pass_a result.0 }
    ensures put { Moved R.limits b.now (Done.In c) (acts (setting_of R.limits a.now.given) (seen result.0) c) pass_b result.1 }
    ensures left { RingLearns R.limits a.now c false 1 pass_a result.0 }
    ensures come { RingLearns R.limits b.now c true 0 pass_b result.1 }
    ensures next { due (seen result.0) c ≡ due (seen pass_a) c }
    ensures due { due (seen result.1) c ≡ due (seen result.0) c }
{
    let (left, part) = take_from(rt, alloc, hook, a, pass_a, c);
    let taken = Taken {
        from: a,
        left: &left,
        c,
        part,
    };
    let come = put_into::<R, Brand, H, W>(rt, alloc, hook, b, pass_b, hints, taken);
    (left, come)
}

// The block of connection `c` on its way, with the squeue that it was taken from, and the pass that left there. From these two a
// proof picks what the block has had, and a pick sees the call's arguments alone.
struct Taken<'a, R: Resident> {
    from: &'a Squeue<R>,
    left: &'a Pass,
    c: u32,
    part: R::Part,
}

// Takes the block out, behind all that was queued for it, and leaves.
fn take_from<R: Resident, H: Hook, W: Wait>(
    rt: &W,
    alloc: Global,
    hook: &H,
    sq: &Squeue<R>,
    pass: Pass,
    c: u32,
) -> (Pass, R::Part)
    requires { MayLeave R.limits sq.now c pass }
    ensures moved { Moved R.limits sq.now (Done.Out c) [] pass result.0 }
    ensures had { R.part_stands result.1 (acts (setting_of R.limits sq.now.given) (seen result.0) c) }
    ensures part { R.is_part_of (R.origin sq.now.given.first) c result.1 }
{
    let mut owner = synch_enter(sq, rt, alloc, hook, pass);
    let part = take_block(&mut owner, c);
    (synch_exit::<R, Brand, W>(sq, rt, owner), part)
}

// Puts the block in, writes its hint, and leaves. `N` names what the part stands for.
fn put_into<R: Resident, N: Notes, H: Hook, W: Wait>(
    rt: &W,
    alloc: Global,
    hook: &H,
    sq: &Squeue<R>,
    pass: Pass,
    hints: &Hints,
    taken: Taken<'_, R>,
) -> Pass
    requires may { MayCome R.limits sq.now taken.c pass }
    requires had { R.part_stands taken.part N.note }
    requires part { R.is_part_of (R.origin sq.now.given.first) taken.c taken.part }
    requires hint { (taken.c < conns_of hints.now) × (sq.now.given.number < squeues_of hints.now) }
    ensures { Moved R.limits sq.now (Done.In taken.entry.c) N.note pass result }
{
    let Taken {
        from: _,
        left: _,
        c,
        part,
    } = taken;
    let mut arrived = synch_enter(sq, rt, alloc, hook, pass);
    put_block(&mut arrived, c, part);
    hints.set(c, sq.number());
    synch_exit::<R, N, W>(sq, rt, arrived)
}
