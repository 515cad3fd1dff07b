//! How shards are served.
use squeue_enter::Mode;

/// After how many feeds a ring's numbers at a squeue usually begin anew.
pub const SPAN: u32 = 1 << 31;

/// How many parcels of a ring may be on their way to one squeue or back, at least 1; in which mode rings enter, and how many feeds a
/// thread that enters processes at most, at least 1; and after how many feeds the numbers of a ring's feeds begin anew, 1 to 2^31
/// ([`SPAN`], where nothing asks for another one).
#[derive(Clone, Copy)]
pub struct ShardPool {
    pub parcels: u32,
    pub mode: Mode,
    pub budget: u32,
    pub span: u32,
}
