//! Tests of whole runs of `sqrun`: with threads that are held by hooks, with inputs too large for rows, and of one happy path each; and of
//! the blocks that they serve.
#![tactic(auto)]

#[cfg(test)]
mod blocks;
#[cfg(test)]
mod runs;
#[cfg(test)]
mod serving;
