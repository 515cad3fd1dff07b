//! Where a connection is at home.
ghost use Rattle.std.specs.Prelude.{◌≡◌, ◌-◌, ◌<◌, ◌≤◌, length};
ghost use Rattle.histories.specs.Homes.{home};
ghost use Rattle.histories.specs.Runs.{home_before, moves, run_of};

use perimeter_core::Feed;

/// How many squeues there are, and after how many feeds a connection moves on to the next one; 0 is never.
///
/// # Example
///
/// ```
/// let homes = Homes { squeues, spread };
/// for q in 0..squeues {
///     let got = (
///         feeds(homes, c, items, q),
///         ...
///     );
///     ...
/// }
/// ```
#[derive(Clone, Copy)]
pub struct Homes {
    pub squeues: u32,
    pub spread: u32,
    ghost some: { 1 ≤ squeues },
}

impl Homes {
    /// The squeue at which connection `c` is at home when its feed `n` comes.
    pub fn home(self, c: u32, n: u32) -> u32
        ensures home { result ≡ home self.squeues self.spread c n }
        ensures range { result < self.squeues }
    {
        if self.spread == 0 {
            c % self.squeues
        } else {
            ((u64::from(c) + u64::from(n / self.spread)) % u64::from(self.squeues)) as u32
        }
    }

    /// The squeue at which the feed's connection was at home before it.
    pub fn home_before(self, feed: Feed) -> u32
        ensures home { result ≡ home_before self.squeues self.spread feed }
        ensures range { result < self.squeues }
    {
        self.home(feed.c, feed.n.saturating_sub(1))
    }

    /// Whether the feed's connection moves before it.
    pub fn moves(self, feed: Feed) -> bool
        ensures { result ≡ moves self.squeues self.spread feed }
    {
        self.home_before(feed) != self.home(feed.c, feed.n)
    }

    /// How many of the feeds, from the first on, are at home at squeue `q` without a move between them.
    pub fn run(self, q: u32, feeds: &[Feed]) -> usize
        ensures run { result ≡ run_of self.squeues self.spread q feeds.now }
        ensures most { result ≤ length feeds.now }
    {
        let mut len = 0;
        for feed in feeds {
            if self.home(feed.c, feed.n) != q || self.moves(*feed) {
                break;
            }
            len += 1;
        }
        len
    }
}
