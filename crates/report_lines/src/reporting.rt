//! A report's lines, and the report of blocks that lie in a list.

ghost use Rattle.std.specs.Prelude.{[], ◌≡◌, ◌+◌, ◌<◌, ◌≤◌, ◌∷◌, ◌++◌, codes, decimal, length, drop, map, slice_get, vec_capacity, IfOk, OnOk, Some};
ghost use Rattle.std.specs.List.{flat_map};
ghost use Rattle.text_digits.specs.Told.{more};
ghost use Rattle.segment_codec.specs.Datagrams.{most_datagram};
ghost use Rattle.tcb_machine.specs.BlockState.{IsOurs};
ghost use Rattle.conn_blocks.specs.CallLists.{CallLists};
ghost use Rattle.conn_blocks.specs.ServeOrder.{serving_of};
ghost use Rattle.conn_blocks.specs.ServedBlocks.{AreServed, blocks_in};
ghost use Rattle.report_lines.specs.ReportText.{counts_line, end_field, conn_line, entries_of, entry_field, feeds, line_end};
ghost use Rattle.echo_services.specs.Pump.{service_word};
ghost use Rattle.report_lines.specs.Names.{state_word};
ghost use Rattle.report_lines.specs.ReportText.{order_line, datagram_line, reply_line, answer_fields, answer_line, end_line, conn_text, body_text, report_text};

use crate::names::state_name;
use conn_blocks::{Act, Block, service_in};
use conn_classifier::{Counts, Plan};
use echo_services::Service;
use segment_codec::{MOST_DATAGRAM, Reply, encode_into};
use sq_base::{Addr, Octets, Tuple};
use std::alloc::{AllocError, Global};
use tcb_machine::{Answer, State, Tcb};
use text_digits::{TextEnd, push_decimal, push_field, push_hex};

/// The report of these blocks, the block of each connection of the plan at its number: the counts, and for each connection its
/// order, its replies, its answers and its last state. Fails only for want of memory.
pub fn report_of(alloc: Global, plan: &Plan, blocks: &[Box<Block>]) -> Result<Octets, AllocError>
    requires { length blocks.now ≡ length plan.now.tuples }
    ensures { IfOk result (λ text. (calls : CallLists) → AreServed plan.now calls (blocks_in blocks.now)
        → text ≡ report_text plan.now calls (map (λ b. b.order) (blocks_in blocks.now))) }
{
    let mut text = Vec::new(alloc);
    let mut datagram = Vec::with_capacity(alloc, MOST_DATAGRAM)?;
    push_all(&mut text, &mut datagram, plan, blocks)?;
    Ok(Octets::wrap(text))
}

// That report. Each datagram is made in `datagram`, whose bytes are lost.
fn push_all<T: TextEnd>(
    text: &mut T,
    datagram: &mut Vec<u8>,
    plan: &Plan,
    blocks: &[Box<Block>],
) -> Result<(), T::Fault>
    requires blocks { length blocks.now ≡ length plan.now.tuples }
    requires room { most_datagram ≤ vec_capacity datagram.old }
    ensures { OnOk result ((calls : CallLists) → AreServed plan.now calls (blocks_in blocks.now)
        → T.told text.new ≡ more (T.told text.old) (report_text plan.now calls (map (λ b. b.order) (blocks_in blocks.now)))) }
{
    text.put(b"report 1\n")?;
    push_blocks(text, datagram, plan, blocks)?;
    text.put(b"done\n")?;
    Ok(())
}

// The counts, and what each connection has in the report.
fn push_blocks<T: TextEnd>(
    text: &mut T,
    datagram: &mut Vec<u8>,
    plan: &Plan,
    blocks: &[Box<Block>],
) -> Result<(), T::Fault>
    requires blocks { length blocks.now ≡ length plan.now.tuples }
    requires room { most_datagram ≤ vec_capacity datagram.old }
    ensures { OnOk result ((calls : CallLists) → AreServed plan.now calls (blocks_in blocks.now)
        → T.told text.new ≡ more (T.told text.old) (body_text plan.now calls (map (λ b. b.order) (blocks_in blocks.now)))) }
{
    push_counts(text, &plan.counts(), plan.conns())?;
    for c in 0..plan.conns() {
        let service = service_in(&plan.view(), c);
        push_conn(
            text,
            datagram,
            c,
            &plan.tuple(c),
            service,
            block_at(blocks, c),
        )?;
    }
    Ok(())
}

// The block of connection `c`.
fn block_at(blocks: &[Box<Block>], c: u32) -> &Block
    requires { c < length blocks.now }
    ensures { slice_get (blocks_in blocks.now) c ≡ Some result.now }
{
    &blocks[c as usize]
}

/// Appends the line of the counts. Where the text's end fails, nothing is said of the text.
pub fn push_counts<T: TextEnd>(text: &mut T, counts: &Counts, conns: u32) -> Result<(), T::Fault>
    ensures { OnOk result (T.told text.new ≡ more (T.told text.old) (counts_line counts.now conns)) }
{
    push_served(text, counts)?;
    push_dropped(text, counts)?;
    push_field(text, b" connections ", conns)?;
    text.put(b"\n")?;
    Ok(())
}

/// The counts of the records, and of those that are served.
#[tactic(auto, using(crate::proofs::Joins::joins))]
fn push_served<T: TextEnd>(text: &mut T, counts: &Counts) -> Result<(), T::Fault>
    ensures { OnOk result (T.told text.new ≡ more (T.told text.old) (codes "records "
        ++ (decimal counts.now.records ++ (codes " tail " ++ (decimal counts.now.tail
        ++ (codes " served " ++ (decimal counts.now.served ++ (codes " nofit " ++ decimal counts.now.nofit)))))))) }
{
    push_field(text, b"records ", counts.records)?;
    push_field(text, b" tail ", counts.tail)?;
    push_field(text, b" served ", counts.served)?;
    push_field(text, b" nofit ", counts.nofit)
}

/// The counts of those that are dropped.
#[tactic(auto, using(crate::proofs::Joins::joins))]
fn push_dropped<T: TextEnd>(text: &mut T, counts: &Counts) -> Result<(), T::Fault>
    ensures { OnOk result (T.told text.new ≡ more (T.told text.old) (codes " server "
        ++ (decimal counts.now.server ++ (codes " other " ++ (decimal counts.now.other
        ++ (codes " fragment " ++ (decimal counts.now.fragment ++ (codes " cut " ++ (decimal counts.now.cut
        ++ (codes " malformed " ++ (decimal counts.now.malformed ++ (codes " badsum " ++ decimal counts.now.badsum)))))))))))) }
{
    push_field(text, b" server ", counts.server)?;
    push_field(text, b" other ", counts.other)?;
    push_field(text, b" fragment ", counts.fragment)?;
    push_field(text, b" cut ", counts.cut)?;
    push_field(text, b" malformed ", counts.malformed)?;
    push_field(text, b" badsum ", counts.badsum)
}

/// Appends an address in dotted decimal, and a port.
#[tactic(auto, using(crate::proofs::Joins::joins), unfolding(crate::specs::ReportText::end_field))]
fn push_end<T: TextEnd>(text: &mut T, addr: Addr, port: u16) -> Result<(), T::Fault>
    ensures { OnOk result (T.told text.new ≡ more (T.told text.old) (end_field addr port)) }
{
    let [a, b, c, d] = addr.0.to_be_bytes();
    push_decimal(text, a)?;
    push_field(text, b".", b)?;
    push_field(text, b".", c)?;
    push_field(text, b".", d)?;
    push_field(text, b":", port)
}

fn push_head<T: TextEnd>(
    text: &mut T,
    c: u32,
    tuple: &Tuple,
    service: Service,
) -> Result<(), T::Fault>
    ensures { OnOk result (T.told text.new ≡ more (T.told text.old) (conn_line c tuple.now service)) }
{
    push_field(text, b"conn ", c)?;
    push_next_end(text, tuple.client, tuple.client_port)?;
    push_next_end(text, tuple.server, tuple.server_port)?;
    push_service(text, service)?;
    Ok(())
}

/// Appends a space, and behind it an address in dotted decimal and a port. Where the text's end fails, nothing is
/// said of the text.
#[tactic(auto, using(crate::proofs::Joins::joins))]
pub fn push_next_end<T: TextEnd>(text: &mut T, addr: Addr, port: u16) -> Result<(), T::Fault>
    ensures { OnOk result (T.told text.new ≡ more (T.told text.old) (32 ∷ end_field addr port)) }
{
    text.put(b" ")?;
    push_end(text, addr, port)
}

/// The name of the service, which ends a line.
#[tactic(auto, using(crate::proofs::Joins::joins))]
fn push_service<T: TextEnd>(text: &mut T, service: Service) -> Result<(), T::Fault>
    ensures { OnOk result (T.told text.new ≡ more (T.told text.old) (32 ∷ (service_word service ++ 10 ∷ []))) }
{
    text.put(b" ")?;
    text.put(service.name().as_bytes())?;
    text.put(b"\n")
}

/// Appends what connection `c`, which has this service, has in the report. Each datagram is made in `datagram`, whose bytes are lost. Where the text's end
/// fails, nothing is said of the text.
#[tactic(auto, using(crate::proofs::Joins::joins), unfolding(crate::specs::ReportText::conn_text, crate::specs::ReportText::end_line))]
pub fn push_conn<T: TextEnd>(
    text: &mut T,
    datagram: &mut Vec<u8>,
    c: u32,
    tuple: &Tuple,
    service: Service,
    block: &Block,
) -> Result<(), T::Fault>
    requires room { most_datagram ≤ vec_capacity datagram.old }
    ensures room { most_datagram ≤ vec_capacity datagram.new }
    ensures text { OnOk result (T.told text.new ≡ more (T.told text.old) (conn_text c tuple.now service block.now.order (serving_of block.now))) }
{
    push_head(text, c, tuple, service)?;
    push_order(text, block.order())?;
    push_replies(text, datagram, tuple, block.tcb())?;
    push_answers(text, block)?;
    push_last(text, block.tcb().state())
}

/// How many acts, from the first on, are the feeds that follow feed `n`, one after another.
fn run_length(acts: &[Act], n: u32) -> usize
    ensures within { result ≤ length acts.now }
    ensures run { entries_of (Act.Feed n ∷ acts.now) ≡ feeds n (n + result) ∷ entries_of (drop result acts.now) }
{
    let mut last = u64::from(n);
    let mut count = 0;
    for act in acts {
        match act {
            Act::Feed { n } if u64::from(*n) == last + 1 => {
                last += 1;
                count += 1;
            }
            _ => return count,
        }
    }
    count
}

/// The order's line. A run of feeds is written by its ends.
#[tactic(auto, using(crate::proofs::Joins::joins), unfolding(crate::specs::ReportText::order_line))]
fn push_order<T: TextEnd>(text: &mut T, order: &[Act]) -> Result<(), T::Fault>
    ensures { OnOk result (T.told text.new ≡ more (T.told text.old) (order_line order.now)) }
{
    text.put(b"order")?;
    let mut rest = order;
    while let [first, behind @ ..] = rest {
        rest = push_entry(text, *first, behind)?;
    }
    text.put(b"\n")?;
    Ok(())
}

/// The entry that begins with this act and goes on in the acts; gives the acts behind it.
fn push_entry<'a, T: TextEnd>(
    text: &mut T,
    first: Act,
    behind: &'a [Act],
) -> Result<&'a [Act], T::Fault>
    ensures fewer { IfOk result (λ rest. length rest.now ≤ length behind.entry.now) }
    ensures entry { IfOk result (λ rest. more (T.told text.new) (line_end (map entry_field (entries_of rest.now)))
        ≡ more (T.told text.old) (line_end (map entry_field (entries_of (first ∷ behind.entry.now))))) }
{
    match first {
        Act::Call { j, k } => {
            push_pair(text, b" c", j, k)?;
            Ok(behind)
        }
        Act::Feed { n } => push_run(text, n, behind),
    }
}

/// The run of feeds that begins with number `n` and goes on in the acts; gives the acts behind it.
fn push_run<'a, T: TextEnd>(text: &mut T, n: u32, behind: &'a [Act]) -> Result<&'a [Act], T::Fault>
    ensures fewer { IfOk result (λ rest. length rest.now ≤ length behind.entry.now) }
    ensures run { IfOk result (λ rest. more (T.told text.new) (line_end (map entry_field (entries_of rest.now)))
        ≡ more (T.told text.old) (line_end (map entry_field (entries_of (Act.Feed n ∷ behind.entry.now))))) }
{
    let run = run_length(behind, n);
    push_field(text, b" f", n)?;
    if run > 0 {
        push_field(text, b"-", u64::from(n) + run as u64)?;
    }
    Ok(behind.split_at(run).1)
}

/// Appends two numbers with a dot between, behind a word.
#[tactic(auto, using(crate::proofs::Joins::joins))]
pub fn push_pair<T: TextEnd>(
    text: &mut T,
    word: &[u8],
    first: u32,
    second: u32,
) -> Result<(), T::Fault>
    ensures { OnOk result (T.told text.new ≡ more (T.told text.old) (word.now ++ (decimal first ++ 46 ∷ decimal second))) }
{
    push_field(text, word, first)?;
    push_field(text, b".", second)
}

/// Appends a line for each reply that the block has sent, with its IPv4 datagram in hexadecimal. Each datagram is made in
/// `datagram`, whose bytes are lost. Where the text's end fails, nothing is said of the text.
pub fn push_replies<T: TextEnd>(
    text: &mut T,
    datagram: &mut Vec<u8>,
    tuple: &Tuple,
    tcb: &Tcb,
) -> Result<(), T::Fault>
    requires { most_datagram ≤ vec_capacity datagram.old }
    ensures room { most_datagram ≤ vec_capacity datagram.new }
    ensures text { OnOk result (T.told text.new ≡ more (T.told text.old) (flat_map (reply_line tuple.now) tcb.now.replies)) }
{
    for i in 0..tcb.replies() {
        push_reply(text, datagram, tuple, tcb.reply(i))?;
    }
    Ok(())
}

#[tactic(auto, using(crate::proofs::Joins::joins), unfolding(crate::specs::ReportText::reply_line))]
fn push_reply<T: TextEnd>(
    text: &mut T,
    datagram: &mut Vec<u8>,
    tuple: &Tuple,
    reply: &Reply,
) -> Result<(), T::Fault>
    requires ours { IsOurs reply.now }
    requires room { most_datagram ≤ vec_capacity datagram.old }
    ensures room { most_datagram ≤ vec_capacity datagram.new }
    ensures text { OnOk result (T.told text.new ≡ more (T.told text.old) (reply_line tuple.now reply.now)) }
{
    datagram.clear();
    match encode_into(datagram, tuple, reply) {
        Ok(()) => push_datagram(text, reply.at, datagram.as_slice()),
        Err(_) => unreachable!(),
    }
}

/// Appends the line of a reply that was sent at `at` microseconds, with its IPv4 datagram in hexadecimal. Where the
/// text's end fails, nothing is said of the text.
#[tactic(auto, using(crate::proofs::Joins::joins), unfolding(crate::specs::ReportText::datagram_line))]
pub fn push_datagram<T: TextEnd>(text: &mut T, at: u64, bytes: &[u8]) -> Result<(), T::Fault>
    ensures { OnOk result (T.told text.new ≡ more (T.told text.old) (datagram_line at bytes.now)) }
{
    // A word that is put by itself is copied as the constant that it is: a report has millions of these lines.
    text.put(b"reply ")?;
    push_decimal(text, at)?;
    text.put(b" ")?;
    push_hex(text, bytes)?;
    text.put(b"\n")
}

/// Appends the line of a connection's last state. Where the text's end fails, nothing is said of the text.
#[tactic(auto, using(crate::proofs::Joins::joins), unfolding(crate::specs::ReportText::end_line))]
pub fn push_last<T: TextEnd>(text: &mut T, state: State) -> Result<(), T::Fault>
    ensures { OnOk result (T.told text.new ≡ more (T.told text.old) (end_line state)) }
{
    text.put(b"end ")?;
    text.put(state_name(state).as_bytes())?;
    text.put(b"\n")
}

fn push_answers<T: TextEnd>(text: &mut T, block: &Block) -> Result<(), T::Fault>
    ensures { OnOk result (T.told text.new ≡ more (T.told text.old) (flat_map answer_line block.now.answers)) }
{
    for i in 0..block.answers() {
        let (j, k, answer) = block.answer(i);
        push_answer(text, j, k, answer)?;
    }
    Ok(())
}

#[tactic(auto, using(crate::proofs::Joins::joins), unfolding(crate::specs::ReportText::answer_line))]
fn push_answer<T: TextEnd>(text: &mut T, j: u32, k: u32, answer: Answer) -> Result<(), T::Fault>
    ensures { OnOk result (T.told text.new ≡ more (T.told text.old) (answer_line (j, k, answer))) }
{
    push_field(text, b"answer ", j)?;
    push_field(text, b" ", k)?;
    push_told(text, answer)
}

/// The rest of an answer's line.
#[tactic(auto, using(crate::proofs::Joins::joins))]
fn push_told<T: TextEnd>(text: &mut T, answer: Answer) -> Result<(), T::Fault>
    ensures { OnOk result (T.told text.new ≡ more (T.told text.old) (line_end (answer_fields answer))) }
{
    match answer {
        Answer::Status {
            state,
            received,
            offered,
            unacked,
        } => push_status(text, state, received, offered, unacked),
        Answer::Done => text.put(b" ok\n"),
        Answer::NotOpen => text.put(b" notopen\n"),
        Answer::Already => text.put(b" already\n"),
    }
}

#[tactic(auto, using(crate::proofs::Joins::joins))]
fn push_status<T: TextEnd>(
    text: &mut T,
    state: State,
    received: u64,
    offered: u64,
    unacked: u32,
) -> Result<(), T::Fault>
    ensures { OnOk result (T.told text.new ≡ more (T.told text.old) (line_end (state_word state ∷ decimal received ∷ decimal offered ∷ decimal unacked ∷ []))) }
{
    text.put(b" ")?;
    text.put(state_name(state).as_bytes())?;
    push_field(text, b" ", received)?;
    push_field(text, b" ", offered)?;
    push_field(text, b" ", unacked)?;
    text.put(b"\n")
}
