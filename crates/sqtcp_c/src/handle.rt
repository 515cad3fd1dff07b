//! A server in the hands of C.

ghost use Rattle.std.specs.Prelude.{◌≡◌, MatchOption, Some, None, is_some};

use crate::held::Held;
use c_handle::Handle;
use sqtcp_engine::Engine;
use std::alloc::Global;
use std::mem::replace;

/// A server, or none: then all bytes may be zero.
#[repr(C)]
pub struct Sqtcp {
    /// What it holds. Contracts see it as `held.value`.
    pub held: Held,
    full: bool,
    ghost told: { full ≡ is_some held.value },
}

impl Sqtcp {
    fn of(handle: Handle<Engine>) -> Sqtcp
        ensures { result.held.value ≡ handle.loose.value }
    {
        let (loose, full) = handle.into_parts();
        Sqtcp {
            held: Held::of(loose),
            full,
        }
    }

    fn into_handle(self) -> Handle<Engine>
        ensures { result.loose.value ≡ self.held.value }
    {
        let Sqtcp { held, full } = self;
        Handle::again(held.into_loose(), full)
    }
}

/// The server leaves its handle, which is closed then.
pub(crate) fn taken(alloc: Global, server: &mut Sqtcp) -> Option<Box<Engine>>
    ensures value { MatchOption result (server.old.held.value ≡ None) (λ b. server.old.held.value ≡ Some b.value) }
    ensures after { server.new.held.value ≡ None }
{
    replace(server, Sqtcp::of(Handle::none(alloc)))
        .into_handle()
        .into_box()
}

/// A server goes behind its handle; what stood there is freed.
pub(crate) fn put(server: &mut Sqtcp, held: Box<Engine>)
    ensures { server.new.held.value ≡ Some held.value }
{
    drop(replace(server, Sqtcp::of(Handle::of(held))).into_handle());
}
