//! Tests of the examples: counters, a limiter and accounts by key, each served by several threads.
#![tactic(auto)]

#[cfg(test)]
mod bank;
#[cfg(test)]
mod counters;
#[cfg(test)]
mod limiter;
