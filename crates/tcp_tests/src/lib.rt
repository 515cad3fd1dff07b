//! Tests of a connection's crates, of the services and of the live server: of calls that rows of `cases_library` can't make, and of one happy
//! path each. Those of `conn_blocks` stand there, since they make calls that it keeps to itself.
#![tactic(auto)]

#[cfg(test)]
mod generator;
#[cfg(test)]
mod live;
#[cfg(test)]
mod queues;
#[cfg(test)]
mod services;
