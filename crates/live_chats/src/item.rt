//! What a chat is told.

ghost use Rattle.std.specs.Prelude.{◌≡◌};
ghost use Rattle.live_chats.specs.Hearing.{is_opening};

use live_server::{Conn, Measures};
use segment_codec::Seg;
use sq_base::Tuple;

/// What a chat is told. Times are in microseconds, and one after 2^62 counts as 2^62.
#[derive(Drop)]
pub enum ChatItem {
    /// A connection of these two ends begins, of which everything is sent that it had to send.
    Opens {
        ends: Tuple,
        conn: Box<Conn>,
    },
    /// A segment comes with its text, behind the time, and with the initial sequence number for one that opens.
    Meets {
        now: u64,
        iss: u32,
        seg: Seg,
        text: Vec<u8>,
    },
    /// A router says that it dropped the segment with a number, since the next path takes no more than `most` bytes of text in one.
    Shortens {
        seq: u32,
        most: u16,
    },
    /// A segment with URG says where urgent data ends.
    Urges {
        now: u64,
        pointer: u16,
        seg: Seg,
    },
    /// The time comes at a tick, with what is asked of each connection.
    Time {
        measures: Measures,
        now: u64,
    },
}

impl ChatItem {
    /// Whether a connection begins by it.
    pub fn is_opening(&self) -> bool
        ensures { result ≡ is_opening self.now }
    {
        matches!(self, ChatItem::Opens { .. })
    }
}
