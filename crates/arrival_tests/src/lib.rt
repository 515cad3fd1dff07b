//! Tests of work that arrives: sums by key, and requests that are limited.
#![tactic(auto)]

#[cfg(test)]
mod answers;
#[cfg(test)]
mod limits;
#[cfg(test)]
mod sums;
#[cfg(test)]
mod through;
#[cfg(test)]
mod watched;
