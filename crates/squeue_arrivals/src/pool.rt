//! How work that arrives is served.
ghost use Rattle.squeue_arrivals.specs.Pooling.{IsInRange};

use squeue_enter::Mode;
use squeue_streams::SourcePace;

/// After how many items a place is usually opened anew.
pub const SPAN: u32 = 1 << 31;

/// How many squeues there are; for how many keys a ring has places; how many entries may be queued at once at a squeue; in which mode rings
/// enter, and how many feeds a thread that enters processes at most; and after how many items of a key its place is closed and opened anew,
/// so that the numbers of its feeds begin again ([`SPAN`], where nothing asks for another one).
#[derive(Clone, Copy)]
pub struct ArrivalPool {
    pub squeues: u32,
    pub places: u32,
    pub room: u32,
    pub mode: Mode,
    pub budget: u32,
    pub span: u32,
}

/// How the rings of a pool enter.
pub(crate) fn pace_of(pool: &ArrivalPool) -> SourcePace
    requires { IsInRange pool.now }
{
    SourcePace {
        mode: pool.mode,
        budget: pool.budget,
    }
}
