//! Who serves the streams of a plan: threads over squeues, as the connections of another program are served.
//!
//! Echo answers a datagram with the same text (RFC 862), discard with nothing (RFC 863), and the character generator has a TCP
//! block behind it. `items` serves one item, `block` is what a stream's first items left, and `blocks` the resident, which a
//! squeue gives one feed after another. A block for which memory is missing is short from then on, and takes its feeds still.
//!
//! `serving` serves all streams by one call of `squeue_pool`. `work` says what its threads have to do: work by key, the
//! items of each stream as its feeds. `served` is what is handed out. There are no calls and no moves: a stream stays at its squeue, and
//! one ring brings all its items.
//!
//! `reporting` says what was served line by line, `writing` writes it in pieces, `words` reads the command line, `refusal` has what is
//! told where there is no whole report, `run` is the top call, and `process` alone touches the process' own ends.
#![tactic(auto)]

mod answer;
mod block;
mod blocks;
mod items;
mod process;
mod refusal;
mod reporting;
mod run;
mod served;
mod serving;
mod words;
mod work;
mod writing;

pub use answer::SentDatagram;
pub use block::StreamBlock;
pub use blocks::StreamBlocks;
pub use process::run_process;
pub use reporting::more_report;
pub use ring_quotas::Setup;
pub use run::more_run;
pub use served::MoreServed;
pub use serving::serve_more;
pub use stream_plan::{MorePlan, more_plan};
pub use udp_codec::{Udp, decode_udp, encode_udp};
