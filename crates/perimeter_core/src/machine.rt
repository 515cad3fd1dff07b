//! A small perimeter without memory, for tests.
ghost use Rattle.std.specs.Prelude.{◌≡◌, ◌+◌, ◌<◌, ◌≤◌, ◌↔◌, List, [], ◌++◌, length, IsTrue, IsNone, IfSome, false};
ghost use Rattle.perimeter_core.specs.declared.entries.Entry.{Entry};
ghost use Rattle.perimeter_core.specs.declared.marks.Own.TheVariants as Own;
ghost use Rattle.perimeter_core.specs.Perimeter.{Can, Idle, after, polls, is_here, is_closed, unprocessed, here_after};
ghost use Rattle.perimeter_core.specs.SmallPerimeter.{all_here, last_pass, HasRoom, InReach, ActInReach};

use crate::entries::Entry;
use crate::few::{Few, ends_with_ask, has_ask};
use crate::flags::Flags;
use crate::marks::{Mark, Own, SynchAct};
use std::marker::Model;

/// A perimeter with at most 32 connections and 64 passes. Contracts see it as its state. The last pass is the worker's.
///
/// # Example
///
/// ```
/// let mut core = start;
/// ...
/// assert!(rt; core.takes(mark), "row {i}");
/// core = core.step(mark).expect(rt, "the mark's condition holds");
/// assert_eq!(rt; core.own(), *own, "row {i}");
/// assert_eq!(rt; core.chain().len(), *chain, "row {i}");
/// ```
#[derive(Drop)]
pub struct Core {
    own: Own,
    chain: Few,
    hand: Few,
    wake: bool,
    polling: bool,
    here: Flags,
    closed: Flags,
}

impl Model for Core {
    ghost use Rattle.perimeter_core.specs.Perimeter.{State};

    ghost Value = { State };

    ghost view = { λ c. record { own = c.own; chain = c.chain; hand = c.hand; wake = c.wake; polling = c.polling; here = c.here; closed = c.closed } };
}

impl Core {
    /// Nobody has it, nothing is queued, no pass is closed, and the connections below `conns` are here.
    pub fn start(passes: u32, conns: u32) -> Core
        requires some_pass { 1 ≤ passes }
        requires few_passes { passes ≤ 64 }
        requires few_conns { conns ≤ 32 }
        ensures { result ≡ all_here passes conns }
    {
        Core {
            own: Own::Free,
            chain: Few::of(&[]),
            hand: Few::of(&[]),
            wake: false,
            polling: false,
            here: Flags::all(conns, true),
            closed: Flags::all(passes, false),
        }
    }

    /// How many passes there are.
    pub fn passes(&self) -> usize
        ensures { result ≡ length self.now.closed }
    {
        self.closed.len()
    }

    /// How many connections there are, here or elsewhere.
    pub fn conns(&self) -> usize
        ensures { result ≡ length self.now.here }
    {
        self.here.len()
    }

    /// Who has it.
    pub fn own(&self) -> Own
        ensures { result ≡ self.now.own }
    {
        self.own
    }

    /// What is queued.
    pub fn chain(&self) -> &[Entry]
        ensures { result.now ≡ self.now.chain }
    {
        self.chain.as_slice()
    }

    /// What the owner took out of the queue.
    pub fn hand(&self) -> &[Entry]
        ensures { result.now ≡ self.now.hand }
    {
        self.hand.as_slice()
    }

    /// Whether the worker is to run.
    pub fn wake(&self) -> bool
        ensures { result ≡ self.now.wake }
    {
        self.wake
    }

    /// Whether the ring is to bring chains.
    pub fn polling(&self) -> bool
        ensures { result ≡ self.now.polling }
    {
        self.polling
    }

    /// Whether the connection's block is here.
    pub fn is_here(&self, c: u32) -> bool
        requires { c < length self.now.here }
        ensures { result ≡ is_here self.now c }
    {
        self.here.get(c)
    }

    /// Whether the pass is closed.
    pub fn is_closed(&self, p: u32) -> bool
        requires { p < length self.now.closed }
        ensures { result ≡ is_closed self.now p }
    {
        self.closed.get(p)
    }

    /// Whether `step` takes the mark: its pass and the connection that its act moves are among those that there are, and hand,
    /// chain and the entries that it enters are at most 32 together.
    pub fn takes(&self, mark: &Mark) -> bool
        ensures { IsTrue result ↔ (HasRoom self.now mark.now × InReach self.now mark.now) }
    {
        let queued = self.hand.as_slice().len() + self.chain.as_slice().len();
        queued + mark.entries() <= 32 && self.reaches(mark)
    }

    // Whether the mark's pass and the connection that its act moves are among those that there are.
    fn reaches(&self, mark: &Mark) -> bool
        ensures { IsTrue result ↔ InReach self.now mark.now }
    {
        let conns = self.here.len();
        let act = match mark {
            Mark::Leave(_, _, SynchAct::Out { c }) => (*c as usize) < conns,
            Mark::Leave(_, _, SynchAct::In { c }) => (*c as usize) < conns,
            _ => true,
        };
        (mark.pass() as usize) < self.closed.len() && act
    }

    /// The state after the mark, or `None` where the mark's condition fails.
    pub fn step(&self, mark: &Mark) -> Option<Core>
        requires room { HasRoom self.now mark.now }
        requires reach { InReach self.now mark.now }
        ensures none { IsNone result ↔ ¬ Can (last_pass self.now) self.now mark.now }
        ensures state { IfSome result (λ next. next ≡ after self.now mark.now) }
    {
        if self.can(mark) {
            Some(self.after(mark))
        } else {
            None
        }
    }
}

// What the marks need.
impl Core {
    // Whether the pass is neither closed, owner, granted nor waiting.
    fn is_idle(&self, p: u32) -> bool
        requires { p < length self.now.closed }
        ensures { IsTrue result ↔ Idle self.now p }
    {
        if self.closed.get(p) || self.own == Own::Out(p) || self.own == Own::Granted(p) {
            return false;
        }
        if has_ask(self.hand.as_slice(), p) {
            return false;
        }
        !has_ask(self.chain.as_slice(), p)
    }

    // Whether the pass is the worker's.
    fn is_worker(&self, p: u32) -> bool
        requires { p < length self.now.closed }
        ensures { IsTrue result ↔ (p ≡ last_pass self.now) }
    {
        p as usize == self.closed.len() - 1
    }

    // Whether the mark's condition holds.
    fn can(&self, mark: &Mark) -> bool
        requires { InReach self.now mark.now }
        ensures { IsTrue result ↔ Can (last_pass self.now) self.now mark.now }
    {
        let hand = self.hand.as_slice();
        let chain = self.chain.as_slice();
        match mark {
            Mark::Fill(_, es) => !es.as_slice().is_empty(),
            Mark::Fast(_, _) => self.own == Own::Free && chain.is_empty(),
            Mark::Claim(_, es) => self.own == Own::Free && !es.as_slice().is_empty(),
            Mark::Take(p) => self.own == Own::Out(*p) && !chain.is_empty(),
            Mark::Leave(p, rest, _) => self.own == Own::Out(*p) && *rest as usize <= hand.len(),
            Mark::Ask(_) => self.own != Own::Free,
            Mark::Grant(p, j, rest) => {
                self.own == Own::Out(*p)
                    && *rest as usize <= hand.len()
                    && ends_with_ask(&hand[..hand.len() - *rest as usize], *j)
                    && *j != *p
            }
            Mark::Accept(j) => self.own == Own::Granted(*j),
            Mark::Work(p) => self.own == Own::Free && self.wake && self.is_worker(*p),
            Mark::Close(p) => self.is_idle(*p),
        }
    }
}

/// Whether a ring is to bring chains, where so many entries are queued and it did so or didn't before: from 16 entries on, until
/// none is queued.
pub fn is_polling(queued: usize, polling: bool) -> bool
    ensures { (es : List Entry) → length es ≡ queued → result ≡ polls es polling }
{
    queued >= 16 || (polling && queued > 0)
}

// What the marks do.
impl Core {
    // The state with another owner, chain, hand and wake.
    fn moved(&self, own: Own, chain: &[Entry], hand: &[Entry], wake: bool) -> Core
        requires chain { length chain.now ≤ 32 }
        requires hand { length hand.now ≤ 32 }
        ensures { result ≡ record self.now { own = own; chain = chain.now; hand = hand.now; wake = wake; polling = polls chain.now self.now.polling } }
    {
        Core {
            own,
            chain: Few::of(chain),
            hand: Few::of(hand),
            wake,
            polling: is_polling(chain.len(), self.polling),
            here: self.here.same(),
            closed: self.closed.same(),
        }
    }

    // The state with more queued.
    fn queued(&self, es: &[Entry], wake: bool) -> Core
        requires { length self.now.chain + length es.now ≤ 32 }
        ensures { result ≡ record self.now { chain = self.now.chain ++ es.now; wake = wake; polling = polls (self.now.chain ++ es.now) self.now.polling } }
    {
        let longer = Few::joined(self.chain.as_slice(), es);
        self.moved(self.own, longer.as_slice(), self.hand.as_slice(), wake)
    }

    // The state where the pass has the whole queue and these entries in hand.
    fn claimed(&self, p: u32, es: &[Entry]) -> Core
        requires { length self.now.chain + length es.now ≤ 32 }
        ensures { result ≡ record self.now { own = Own.Out p; chain = []; hand = self.now.chain ++ es.now; wake = false; polling = polls [] self.now.polling } }
    {
        let all = Few::joined(self.chain.as_slice(), es);
        self.moved(Own::Out(p), &[], all.as_slice(), false)
    }

    // What is queued when the last `rest` entries of the hand go back.
    fn put_back(&self, rest: u32) -> Few
        requires rest { rest ≤ length self.now.hand }
        requires room { length self.now.hand + length self.now.chain ≤ 32 }
        ensures { result ≡ unprocessed rest self.now.hand ++ self.now.chain }
    {
        let hand = self.hand.as_slice();
        let back = &hand[hand.len() - rest as usize..];
        Few::joined(back, self.chain.as_slice())
    }

    // Which blocks are here after the act.
    fn here_after(&self, act: &SynchAct) -> Flags
        requires { ActInReach self.now act.now }
        ensures { result ≡ here_after act.now self.now.here }
    {
        match act {
            SynchAct::Out { c } => self.here.with(*c, false),
            SynchAct::In { c } => self.here.with(*c, true),
            _ => self.here.same(),
        }
    }

    // The state after a mark whose condition holds.
    fn after(&self, mark: &Mark) -> Core
        requires room { HasRoom self.now mark.now }
        requires reach { InReach self.now mark.now }
        requires can { Can (last_pass self.now) self.now mark.now }
        ensures { result ≡ after self.now mark.now }
    {
        let hand = self.hand.as_slice();
        let chain = self.chain.as_slice();
        match mark {
            Mark::Fill(_, es) => self.queued(es.as_slice(), self.own == Own::Free || self.wake),
            Mark::Fast(p, e) => self.moved(Own::Out(*p), chain, &[*e], self.wake),
            Mark::Claim(p, es) => self.claimed(*p, es.as_slice()),
            Mark::Take(_) => self.moved(self.own, &[], chain, self.wake),
            Mark::Leave(_, rest, act) => {
                let left = self.put_back(*rest);
                let chain = left.as_slice();
                let next = self.moved(Own::Free, chain, &[], !chain.is_empty());
                Core {
                    here: self.here_after(act),
                    ..next
                }
            }
            Mark::Ask(p) => self.queued(&[Entry::Ask { p: *p }], self.wake),
            Mark::Grant(_, j, rest) => {
                let left = self.put_back(*rest);
                self.moved(Own::Granted(*j), left.as_slice(), &[], self.wake)
            }
            Mark::Accept(j) => self.moved(Own::Out(*j), chain, &[], self.wake),
            Mark::Work(p) => self.claimed(*p, &[]),
            Mark::Close(p) => Core {
                closed: self.closed.with(*p, true),
                ..self.moved(self.own, chain, hand, self.wake)
            },
        }
    }
}
