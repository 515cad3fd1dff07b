//! The calls of threads, by what each has to do.
ghost use Rattle.std.specs.Prelude.{◌≡◌, ℕ, ◌++◌, IfOk, List, OnOk, map};
ghost use Rattle.std.specs.List.{flat_map};

use std::alloc::{AllocError, Global};

/// What a thread has to do with connections: it calls these, one after another.
pub trait Errand {
    /// The connections, in order.
    ghost called: { Self → List ℕ };

    /// Adds them to the calls of its thread.
    fn add_to(&self, calls: &mut Vec<u32>) -> Result<(), AllocError>
        ensures { OnOk result (calls.new.items ≡ calls.old.items ++ called self.now) };
}

/// The calls of threads with these errands, as `serve_called` takes them. Fails only for want of memory.
pub fn calls_for<T: Errand>(alloc: Global, errands: &[Vec<T>]) -> Result<Vec<Vec<u32>>, AllocError>
    ensures { IfOk result (λ v. map (λ called. called.items) v.items ≡ map (λ row. flat_map T.called row.items) errands.now) }
{
    let mut calls = Vec::new(alloc);
    for row in errands {
        calls.push(calls_of(alloc, row)?)?;
    }
    Ok(calls)
}

// Those of one thread.
fn calls_of<T: Errand>(alloc: Global, row: &[T]) -> Result<Vec<u32>, AllocError>
    ensures { IfOk result (λ v. v.items ≡ flat_map T.called row.now) }
{
    let mut calls = Vec::new(alloc);
    for errand in row {
        errand.add_to(&mut calls)?;
    }
    Ok(calls)
}
