//! How much a pass may enter.

/// How many feeds and asks a pass may ever enter. Of a ring the feeds are those of all its connections.
#[derive(Clone, Copy)]
pub struct Quota {
    pub feeds: u32,
    pub asks: u64,
}
