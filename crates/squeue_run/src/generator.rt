//! A large valid input, made from a number: 1,000 connections with 100 segments each.

ghost use Rattle.std.specs.Prelude.{◌≡◌, ℕ, ◌+◌, ◌/◌, ◌%◌, ◌<◌, ◌≤◌, ◌^◌, ◌++◌, length, if◌then◌else◌, IfOk, OnOk};
ghost use Rattle.squeue_run.specs.GeneratedCapture.{next_state, state_at, text_len, drawn_text, text_at, numbers_at, ends_of};
ghost use Rattle.squeue_run.specs.GeneratedCapture.{record_of, record_at, round_before, file_header, generated, IsAccepted, IsUnrefused};
ghost use Rattle.squeue_run.specs.GeneratorState.{client_at, Ready};

use segment_codec::{ACK, Reply, SYN, encode};
use sq_base::{Addr, Octets, Tuple};
use std::alloc::{AllocError, Global};

/// How many connections there are.
const CONNS: u32 = 1000;

/// How many segments each connection has, one in a round.
const ROUNDS: u32 = 100;

/// The first round whose segments have text.
const FIRST_TEXT: u32 = 2;

/// The last one.
const LAST_TEXT: u32 = 97;

/// The bytes of the whole file.
const SIZE: usize = 10_256_024;

const PSH_ACK: u8 = 24;

const FIN_ACK: u8 = 17;

/// A linear congruential sequence of 64 bits. A draw is the upper half of the next number.
#[derive(Clone, Copy, Debug)]
struct Draws {
    state: u64,
}

impl Draws {
    fn draw(&mut self) -> u32
        ensures state { self.new.state ≡ next_state self.old.state }
        ensures value { result ≡ self.new.state / 2 ^ 32 }
    {
        self.state = self
            .state
            .wrapping_mul(6364136223846793005)
            .wrapping_add(1442695040888963407);
        (self.state >> 32) as u32
    }
}

/// What a client says next.
#[derive(Clone, Copy, Debug)]
struct Client {
    isn: u32,
    iss: u32,
    /// How many bytes of text it has sent.
    sent: u32,
    echoed: bool,
}

impl Client {
    /// The sequence number of the next byte of text.
    fn seq(&self) -> u32
        ensures { result ≡ (self.now.isn + 1 + self.now.sent) % 2 ^ 32 }
    {
        self.isn.wrapping_add(1).wrapping_add(self.sent)
    }

    /// The acknowledgement of all that the service has sent back.
    fn ack(&self) -> u32
        ensures { result ≡ (self.now.iss + 1 + (if self.now.echoed then self.now.sent else 0)) % 2 ^ 32 }
    {
        let echo = if self.echoed { self.sent } else { 0 };
        self.iss.wrapping_add(1).wrapping_add(echo)
    }

    /// Flags, sequence number and acknowledgement number of the segment of this round.
    fn numbers(&self, round: u32) -> (u8, u32, u32)
        ensures flags { (number c : ℕ) → result.0 ≡ (numbers_at number round c).flags }
        ensures seq { (number c : ℕ) → self.now ≡ client_at number round c → result.1 ≡ (numbers_at number round c).seq }
        ensures ack { (number c : ℕ) → self.now ≡ client_at number round c → result.2 ≡ (numbers_at number round c).ack }
    {
        match round {
            0 => (SYN, self.isn, 0),
            1 => (ACK, self.seq(), self.ack()),
            FIRST_TEXT..=LAST_TEXT => (PSH_ACK, self.seq(), self.ack()),
            98 => (FIN_ACK, self.seq(), self.ack()),
            _ => (ACK, self.seq().wrapping_add(1), self.ack().wrapping_add(1)),
        }
    }
}

/// The client of connection `c` as the sender, and its service as the receiver.
fn tuple(c: u32) -> Tuple
    requires { c < CONNS }
    ensures { result ≡ ends_of c }
{
    Tuple {
        client: Addr(0x0a00_0002),
        client_port: if c % 2 == 0 { 7 } else { 9 },
        server: Addr(0x0a01_0000 + c),
        server_port: 40000,
    }
}

fn clients(alloc: Global, draws: &mut Draws) -> Result<Vec<Client>, AllocError>
    ensures { IfOk result (λ v. Ready draws.old.state 0 0 draws.new.state v.items) }
{
    let mut all = Vec::with_capacity(alloc, CONNS as usize)?;
    for c in 0..CONNS {
        let isn = draws.draw();
        let iss = draws.draw();
        all.push(Client {
            isn,
            iss,
            sent: 0,
            echoed: c % 2 == 0,
        })?;
    }
    Ok(all)
}

/// How many bytes of text connection `c` sends in this round.
#[tactic(auto, unfolding(crate::specs::GeneratedCapture::text_len))]
fn text_len(c: u32, round: u32) -> u32
    requires conn { c < CONNS }
    requires round { round < ROUNDS }
    ensures value { result ≡ text_len round c }
    ensures short { result ≤ 96 }
{
    if FIRST_TEXT <= round && round <= LAST_TEXT {
        1 + (c + round) % 96
    } else {
        0
    }
}

/// The text of connection `c` in this round.
fn text(alloc: Global, draws: &mut Draws, c: u32, round: u32) -> Result<Octets, AllocError>
    requires conn { c < CONNS }
    requires round { round < ROUNDS }
    ensures short { IfOk result (λ text. length text ≤ 96) }
    ensures text { IfOk result (λ text. (number from : ℕ) → draws.old.state ≡ state_at number from → text ≡ drawn_text number from (text_len round c)) }
    ensures drawn { OnOk result ((number from : ℕ) → draws.old.state ≡ state_at number from → draws.new.state ≡ state_at number (from + text_len round c)) }
{
    let len = text_len(c, round);
    let mut bytes = Vec::with_capacity(alloc, len as usize)?;
    for _ in 0..len {
        bytes.push_reserved((draws.draw() % 256) as u8);
    }
    Ok(Octets::wrap(bytes))
}

/// A record of the capture file: its header and its body, at this time in microseconds.
fn push_record(file: &mut Vec<u8>, at: u32, body: &[u8]) -> Result<(), AllocError>
    requires { length body.now < 2 ^ 32 }
    ensures { OnOk result (file.new.items ≡ file.old.items ++ record_of at body.now) }
{
    let len = body.len() as u32;
    file.extend_from_slice(&(at / 1_000_000).to_le_bytes())?;
    file.extend_from_slice(&(at % 1_000_000).to_le_bytes())?;
    file.extend_from_slice(&len.to_le_bytes())?;
    file.extend_from_slice(&len.to_le_bytes())?;
    file.extend_from_slice(body)?;
    Ok(())
}

/// The file's header: little-endian, microseconds, version 2.4, raw IP.
fn push_header(file: &mut Vec<u8>) -> Result<(), AllocError>
    ensures { OnOk result (file.new.items ≡ file.old.items ++ file_header) }
{
    file.extend_from_slice(&0xa1b2_c3d4u32.to_le_bytes())?;
    file.extend_from_slice(&2u16.to_le_bytes())?;
    file.extend_from_slice(&4u16.to_le_bytes())?;
    file.extend_from_slice(&[0; 8])?;
    file.extend_from_slice(&262_144u32.to_le_bytes())?;
    file.extend_from_slice(&101u32.to_le_bytes())?;
    Ok(())
}

/// One segment of a client, as a record.
fn push_segment(
    alloc: Global,
    file: &mut Vec<u8>,
    client: &mut Client,
    c: u32,
    round: u32,
    text: Octets,
) -> Result<(), AllocError>
    requires conn { c < CONNS }
    requires round { round < ROUNDS }
    requires text { length text ≤ 96 }
    ensures file { OnOk result ((number : ℕ) → client.old ≡ client_at number round c → text ≡ text_at number round c
        → file.new.items ≡ file.old.items ++ record_at number round c) }
    ensures client { OnOk result ((number : ℕ) → client.old ≡ client_at number round c → text ≡ text_at number round c
        → client.new ≡ client_at number (round + 1) c) }
{
    let at = 10 * (CONNS * round + c);
    let (flags, seq, ack) = client.numbers(round);
    let len = text.as_slice().len() as u32;
    let segment = Reply::plain(u64::from(at), flags, seq, ack, 65535, text);
    push_record(file, at, encode(alloc, &tuple(c), &segment)?.as_slice())?;
    client.sent = client.sent.wrapping_add(len);
    Ok(())
}

/// A segment of each client.
fn push_round(
    alloc: Global,
    file: &mut Vec<u8>,
    draws: &mut Draws,
    clients: &mut [Client],
    round: u32,
) -> Result<(), AllocError>
    requires all { length clients.old ≡ CONNS }
    requires round { round < ROUNDS }
    ensures file { OnOk result ((number : ℕ) → Ready number round 0 draws.old.state clients.old
        → file.new.items ≡ file.old.items ++ round_before number round 1000) }
    ensures ready { OnOk result ((number : ℕ) → Ready number round 0 draws.old.state clients.old
        → Ready number (round + 1) 0 draws.new.state clients.new) }
{
    for c in 0..CONNS {
        let text = text(alloc, draws, c, round)?;
        push_segment(alloc, file, &mut clients[c as usize], c, round, text)?;
    }
    Ok(())
}

/// The capture file for a number. Fails only for want of memory.
pub fn generate(alloc: Global, number: u32) -> Result<Octets, AllocError>
    ensures bytes { IfOk result (λ bytes. bytes ≡ generated number) }
    ensures size { IfOk result (λ bytes. length bytes ≡ 10256024) }
    ensures accepted { IfOk result (λ bytes. IsAccepted bytes) }
    ensures unrefused { IfOk result (λ bytes. IsUnrefused bytes) }
{
    let mut draws = Draws {
        state: u64::from(number),
    };
    let mut clients = clients(alloc, &mut draws)?;
    let mut file = Vec::with_capacity(alloc, SIZE)?;
    push_header(&mut file)?;
    for round in 0..ROUNDS {
        push_round(alloc, &mut file, &mut draws, &mut clients, round)?;
    }
    Ok(Octets::wrap(file))
}
