//! A seat of a table, and who is to leave it.

ghost use Rattle.std.specs.Prelude.{◌≡◌};
ghost use Rattle.live_chats.specs.Seating.{goes};

use live_server::{Facts, Setting};

/// The place at which the chat of a connection is, and what the table has to know of the connection.
#[derive(Clone, Copy)]
pub struct Seat {
    pub place: u32,
    pub facts: Facts,
}

/// Who is to leave: who is over, or who is to leave at a tick where so many places are taken.
#[derive(Clone, Copy)]
pub enum Who<'a> {
    Over,
    Due {
        setting: &'a Setting,
        now: u64,
        taken: usize,
    },
}

impl Who<'_> {
    /// Whether a connection with these facts is to leave.
    pub fn goes(&self, facts: &Facts) -> bool
        ensures { result ≡ goes self.now facts.now }
    {
        match self {
            Who::Over => facts.is_over(),
            Who::Due {
                setting,
                now,
                taken,
            } => facts.is_leaving(setting, *now, *taken),
        }
    }
}
