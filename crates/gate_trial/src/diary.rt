//! A value that keeps its own history: each element is a line of the diary, and it has no other lines.

ghost use Rattle.std.specs.Prelude.{◌≡◌, [], ◌∷◌, ◌++◌, IfOk};
ghost use Rattle.turn_gate.specs.Gates.{gate_id};
ghost use Rattle.turn_gate.specs.Passes.{IsPassOf, freed_once, number, mine, steps};
ghost use Rattle.turn_gate.specs.Helds.{IsHeldOf, held_number, held_seen, held_mine, held_steps, held_value};

use std::alloc::{AllocError, Global};
use std::marker::Brand;
use turn_gate::{Gate, Held, Pass, Storied};

/// A line: the number of the pass that wrote it, and how many that pass had written before.
#[derive(Clone, Copy)]
pub struct Line {
    pub by: u32,
    pub nth: u32,
}

/// The lines in the order in which they were written.
///
/// # Example
///
/// ```
/// let diary = Diary::with_room(alloc, (passes * turns) as usize).expect(rt, "memory");
/// let (gate, mut all) = Gate::make(alloc, diary, passes).expect(rt, "memory");
/// lend(&gate, &mut all, &mut jobs);
/// write_all(rt, &gate, &mut jobs, threads, turns, pause);
/// take_back(&gate, &mut jobs, &mut all);
/// jobs.destroy_empty();
/// gate.close(all)
/// ```
#[derive(Drop)]
pub struct Diary {
    lines: Vec<Line>,
}

impl Storied for Diary {
    ghost use Rattle.gate_trial.specs.Diary.{IsDiary, writer};

    type Mark = u32;

    type Element = Line;

    ghost stands = { λ _. IsDiary };

    ghost number = { writer };
}

impl Diary {
    ghost use Rattle.gate_trial.specs.Diary.{HasRoom, IsDiary, writer, line, lines_of, room_of};

    /// An empty diary with room for so many lines. Fails only for want of memory.
    pub fn with_room(alloc: Global, room: usize) -> Result<Diary, AllocError>
        ensures { IfOk result (λ d. (lines_of d ≡ []) × (room_of d ≡ room)) }
    {
        let lines = Vec::with_capacity(alloc, room)?;
        Ok(Diary { lines })
    }

    /// The lines, in the order in which they were written.
    pub fn lines(&self) -> &[Line]
        ensures { result.now ≡ lines_of self.now }
    {
        &self.lines
    }

    /// Writes a line of the pass that holds the gate, where the diary has room for it, and releases the gate. Where it hasn't,
    /// or 2^63 lines were written, the diary stays as it is.
    pub fn write(gate: &Gate<Diary>, mut held: Held<Diary>, nth: u32) -> Pass<Line>
        requires held { IsHeldOf writer (gate_id gate.now) held }
        requires diary { IsDiary (held_value held) (held_seen held) }
        ensures gate { IsPassOf writer (gate_id gate.now) result × (number result ≡ held_number held) }
        ensures written { HasRoom (held_value held) (held_seen held) → mine result ≡ held_mine held ++ line (held_number held) nth ∷ [] }
        ensures full { ¬ HasRoom (held_value held) (held_seen held) → mine result ≡ held_mine held }
        ensures steps { freed_once (held_steps held) (steps result) }
    {
        let is_full = held.get().lines.len() == held.get().lines.capacity();
        if is_full || held.count() >= 1 << 63 {
            return gate.release_plain(held);
        }
        let by = held.number();
        let diary = held.value();
        diary.lines.push_reserved(Line { by, nth });
        gate.release::<Brand>(held, nth)
    }
}
