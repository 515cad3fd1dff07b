//! The server and its datagrams that wait to be sent.

ghost use Rattle.std.specs.Prelude.{◌≡◌, ◌<◌, ◌≤◌, ◌^◌, length, OnOk, OnErr};
ghost use Rattle.tcb_machine.specs.Limits.{last_time};
ghost use Rattle.sqtcp_engine.specs.Engines.{DatagramCosts, TickCosts, after_datagram, after_tick, first_bytes, new_engine, without_first};

use live_server::{Datagram, Secret, Server, Setting};
use std::alloc::{AllocError, Global};
use std::marker::Model;

/// A server with what it has still to send.
#[derive(Drop)]
pub struct Engine {
    server: Server,
    out: Vec<Datagram>,
    next: usize,
}

impl Model for Engine {
    ghost use Rattle.std.specs.Prelude.{◌≤◌, drop, vec_len};
    ghost use Rattle.sqtcp_engine.specs.Engines.{Engined};

    ghost Value = { Engined };

    ghost view = { λ e. record { server = e.server; queue = drop e.next e.out.items } };

    ghost invariant = { λ e. e.next ≤ vec_len e.out };
}

impl Engine {
    /// A server with no connection, and nothing to send. It takes no memory.
    pub fn new(alloc: Global, setting: Setting, secret: Secret) -> Engine
        ensures { result ≡ new_engine setting secret.0 }
    {
        Engine {
            server: Server::new(alloc, setting, secret),
            out: Vec::new(alloc),
            next: 0,
        }
    }

    /// A datagram comes at a time in microseconds. What is sent waits behind the datagrams that are there. An error says that memory was missing.
    #[tactic(auto, using(crate::proofs::QueueLemmas::more_waits, crate::proofs::QueueLemmas::sent_behind))]
    pub fn datagram(&mut self, alloc: Global, now: u64, body: &[u8]) -> Result<(), AllocError>
        requires time { now ≤ last_time }
        requires body { length body.now < 2 ^ 32 }
        ensures served { OnOk result (self.new ≡ after_datagram now body.now self.old) }
        ensures lost { OnErr result (DatagramCosts now body.now self.old self.new) }
    {
        self.server.datagram(alloc, now, body, &mut self.out)
    }

    /// The time comes to every connection. What is sent waits behind the datagrams that are there. An error says that memory was missing.
    #[tactic(auto, using(crate::proofs::QueueLemmas::more_waits, crate::proofs::QueueLemmas::sent_behind))]
    pub fn tick(&mut self, alloc: Global, now: u64) -> Result<(), AllocError>
        requires { now ≤ last_time }
        ensures served { OnOk result (self.new ≡ after_tick now self.old) }
        ensures lost { OnErr result (TickCosts now self.old self.new) }
    {
        self.server.tick(alloc, now, &mut self.out)
    }

    /// The datagram that waits longest, or nothing.
    pub fn first(&self) -> &[u8]
        ensures { result.now ≡ first_bytes self.now.queue }
    {
        if self.next < self.out.len() {
            self.out[self.next].bytes.as_slice()
        } else {
            &[]
        }
    }

    /// The datagram that waits longest leaves.
    #[tactic(auto, using(crate::proofs::QueueLemmas::one_less, crate::proofs::QueueLemmas::none_left))]
    pub fn pass_first(&mut self)
        ensures { self.new ≡ without_first self.old }
    {
        if self.next + 1 < self.out.len() {
            self.next += 1;
        } else {
            self.out.clear();
            self.next = 0;
        }
    }

    /// How many connections there are.
    pub fn connections(&self) -> usize
        ensures { result ≡ length self.now.server.conns }
    {
        self.server.connections()
    }
}
