//! What is queued in a perimeter, and what is done to a connection's block.

/// Feed number `n` of connection `c`: the next item of the connection that its ring brings, counted from 0.
#[derive(Clone, Copy, Debug, PartialEq, Eq)]
pub struct Feed {
    pub c: u32,
    pub n: u32,
}

/// A queued entry: feed number `n` of connection `c`, or the wish of pass `p` to own the perimeter.
#[derive(Clone, Copy, Debug, PartialEq, Eq)]
pub enum Entry {
    Feed { c: u32, n: u32 },
    Ask { p: u32 },
}

/// What was done to a connection's block: its feed number `n`, or call number `k` of application thread `j`.
#[derive(Clone, Copy, Debug, PartialEq, Eq)]
pub enum Act {
    Feed { n: u32 },
    Call { j: u32, k: u32 },
}
