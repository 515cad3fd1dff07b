//! Reads a pcapng file of one link type (draft-ietf-opsawg-pcapng), the form in which today's capture tools write.
//!
//! A file is a row of blocks: section headers, which name the byte order, interfaces, packets, and others, which are skipped.
//! The bytes stay as they are; a packet is a place in them, found in one pass. What can't be read is refused with the number of
//! its block and the value that refuses it. Left out are files with two link types, time offsets (`if_tsoffset`), decryption
//! secrets and names. What a packet's bytes mean is no matter of this crate.
#![tactic(auto)]

mod fault;
mod frame;
mod input;
mod interface;
pub mod laws;
mod order;
mod reading;

pub use fault::PcapngFault;
pub use input::{InputFault, parse_input};
pub use reading::parse_pcapng;
