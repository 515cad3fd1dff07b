//! Accounts behind squeues: deposits come in by rings, threads transfer between accounts, and the accounts move from squeue to squeue.
//!
//! `accounts` is the part of an account, two sums: what came in and what went out. A transfer is two calls of one thread, one on each
//! account. `settling` serves them all, and hands out the statements.
#![tactic(auto)]

mod accounts;
mod settling;

pub use accounts::{Account, Bank, Statement, Transfer};
pub use settling::settle;
