//! What a server is started with.

ghost use Rattle.std.specs.Prelude.{◌≡◌, IfOk};

use crate::marking::Marking;
use crate::ports::Ports;
use crate::site::{Site, share};
use sq_base::Addr;
use std::alloc::AllocError;

/// What a server is started with.
#[derive(Drop)]
pub struct Setting {
    /// The address that it answers for.
    pub address: Addr,
    /// The broadcast address of its network, which is no host's.
    pub broadcast: Addr,
    /// How many connections are kept at once.
    pub places: usize,
    /// How long a connection from which nothing comes stays in a full table, in microseconds.
    pub idle: u64,
    /// How many bytes of text all connections may hold: what was received and not taken, and what is sent and not acknowledged.
    pub bytes: u64,
    /// How many bytes of text a segment has at most that is sent, or 64 where that is more; no longer MSS is announced.
    pub segment: u16,
    /// What is set in the header of each datagram that is sent.
    pub marking: Marking,
    /// How many echo requests are answered from one tick to the next.
    pub pings: u32,
    /// At which ports it has which service.
    pub ports: Ports,
    /// The pages that it hands out, where it has any.
    pub site: Option<Site>,
    /// The address of the host whose orders it obeys, where there is one.
    pub host: Option<Addr>,
}

impl Setting {
    /// The same, with the same pages. An error says that memory was missing.
    pub fn share(&self) -> Result<Setting, AllocError>
        ensures { IfOk result (λ s. s ≡ self.now) }
    {
        Ok(Setting {
            address: self.address,
            broadcast: self.broadcast,
            places: self.places,
            idle: self.idle,
            bytes: self.bytes,
            segment: self.segment,
            marking: self.marking,
            pings: self.pings,
            ports: self.ports,
            site: share(&self.site)?,
            host: self.host,
        })
    }
}
