//! Laws of chats: each is a function that does nothing, whose contract is the law.

ghost use Rattle.live_chats.specs.Telling.{ItemsTell};
ghost use Rattle.live_chats.specs.Ways.{ServerIsChats};
ghost use Rattle.live_chats.specs.Weaving.{ChatsAreApart, ServersAreChats};

/// Chats don't hear one another: whatever is told to all, each says and becomes what it does of what is told to it alone.
pub fn chats_are_apart()
    ensures { ChatsAreApart }
{}

/// The steps that rules make of frames leave each connection as the server does, and send what it sends.
pub fn a_server_is_chats()
    ensures { ServerIsChats }
{}

/// What a server sends for frames are the answers of its chats, each by itself, woven in the order of the frames.
pub fn servers_are_chats()
    ensures { ServersAreChats }
{}

/// Where memory wasn't missing a chat is what its items make of it, one after another.
pub fn items_tell()
    ensures { ItemsTell }
{}
