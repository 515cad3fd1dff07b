//! What an owner calls before each feed. It lets a test hold an owner at a known place.

/// Called before feed `n` of connection `c` is processed at squeue number `squeue`. It promises nothing.
pub trait Hook {
    fn before(&self, squeue: u32, c: u32, n: u32);
}

/// The hook that does nothing.
#[derive(Clone, Copy, Debug, Default)]
pub struct NoHook;

impl Hook for NoHook {
    fn before(&self, _squeue: u32, _c: u32, _n: u32) {}
}
