//! Chats as the parts of a squeue's resident: whoever owns the squeue tells them what was brought.

ghost use Rattle.std.specs.Prelude.{◌≡◌};
ghost use Rattle.live_chats.specs.Telling.{IsFirst, Tells, first_of};

use crate::chat::Chat;
use crate::item::ChatItem;
use perimeter_core::Known;
use squeue_streams::{Steps, Stream};
use std::alloc::{AllocError, Global};

/// What all chats of a squeue have in common: for contracts alone the streams with which a run begins, by number.
#[derive(Drop)]
pub struct Chats {
    first: Known<Vec<Stream<ChatItem, Chat>>>,
}

impl Chats {
    /// Chats whose streams begin as these, by number.
    pub fn of(streams: &Vec<Stream<ChatItem, Chat>>) -> Chats
        ensures { first_of result ≡ streams.now.items }
    {
        Chats {
            first: Known::of(streams),
        }
    }
}

impl Steps for Chats {
    type Item = ChatItem;

    type State = Chat;

    type Origin = Chats;

    ghost origin = { λ s. s };

    ghost begins = { IsFirst };

    ghost step = { Tells };

    // A stream's ring is made with it, and there is no other: so none is begun here.
    fn begin(&self, _alloc: Global, _c: u32) -> Result<Chat, AllocError> {
        Err(AllocError)
    }

    fn take(&self, alloc: Global, chat: &mut Chat, item: ChatItem) {
        chat.take(alloc, item);
    }
}
