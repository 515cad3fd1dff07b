//! A connection as one squeue has it.

ghost use Rattle.std.specs.Prelude.{IsTrue, length};
ghost use Rattle.squeue_replay.specs.Parts.{are_inside};

use perimeter_core::Act;
use std::alloc::{AllocError, Global};

/// What one squeue had of a connection so far. The block is here in *stays*: the first one of those that are here at the start, and
/// one from each time that it is put in.
#[derive(Drop)]
pub struct Guest {
    pub here: bool,
    /// The number of the next feed.
    pub due: u64,
    /// How many of its feeds stand in the hand or the chain.
    pub queued: u64,
    /// How often it was taken out.
    pub left: u64,
    /// How often it was put in.
    pub came: u64,
    /// What was done to it in all stays here, one after another.
    acts: Vec<Act>,
    /// Where among the acts each stay begins.
    stays: Vec<usize>,
    ghost inside: { IsTrue (are_inside stays.items (length acts.items)) },
}

impl Guest {
    ghost use Rattle.std.specs.Prelude.{◌≡◌, ◌+◌, ◌<◌, ◌^◌, true, false, [], ◌∷◌, ◌++◌, OnOk, IfOk, if◌then◌else◌, option_map, slice_get};
    ghost use Rattle.squeue_replay.specs.Standing.{guest_of};
    ghost use Rattle.squeue_replay.specs.Steps.{last_longer};

    /// A connection that is here at the start, or not. Fails only for want of memory.
    pub fn make(alloc: Global, here: bool) -> Result<Guest, AllocError>
        ensures { IfOk result (λ g. guest_of g ≡ record { here = here; due = 0; queued = 0; left = 0; came = 0; did = if here then [] ∷ [] else [] }) }
    {
        let mut stays = Vec::new(alloc);
        if here {
            stays.push(0)?;
        }
        Ok(Guest {
            here,
            due: 0,
            queued: 0,
            left: 0,
            came: 0,
            acts: Vec::new(alloc),
            stays,
        })
    }

    /// It is put in, when it has had so many feeds. Fails only for want of memory; then nothing more is promised.
    pub fn put_in(&mut self, fed: u64) -> Result<(), AllocError>
        ensures { OnOk result ((guest_of self.old).came + 1 < 2 ^ 64
            → guest_of self.new
            ≡ record (guest_of self.old) { here = true; due = fed; came = (guest_of self.old).came + 1; did = (guest_of self.old).did ++ [] ∷ [] }) }
    {
        self.stays.push(self.acts.len())?;
        self.here = true;
        self.due = fed;
        self.came = self.came.saturating_add(1);
        Ok(())
    }

    /// It is taken out.
    pub fn take_out(&mut self)
        ensures { (guest_of self.old).left + 1 < 2 ^ 64 → guest_of self.new ≡ record (guest_of self.old) { here = false; left = (guest_of self.old).left + 1 } }
    {
        self.here = false;
        self.left = self.left.saturating_add(1);
    }

    /// This is done to it. Fails only for want of memory; then nothing more is promised.
    pub fn does(&mut self, act: Act) -> Result<(), AllocError>
        ensures { OnOk result (guest_of self.new ≡ record (guest_of self.old) { did = last_longer (act ∷ []) (guest_of self.old).did }) }
    {
        self.acts.push(act)?;
        Ok(())
    }

    /// How many stays it had here.
    pub fn stays(&self) -> usize
        ensures { result ≡ length (guest_of self.now).did }
    {
        self.stays.len()
    }

    /// What was done to it in its stay of this number here, from 0; `None` where it had no such stay.
    pub fn stay(&self, number: usize) -> Option<&[Act]>
        ensures { option_map (λ acts. acts.now) result ≡ slice_get (guest_of self.now).did number }
    {
        let from = *self.stays.get(number)?;
        let to = match self.stays.get(number + 1) {
            Some(to) => *to,
            None => self.acts.len(),
        };
        self.acts.get(from..to)
    }
}
