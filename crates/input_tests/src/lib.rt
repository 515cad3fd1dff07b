//! Tests of what reads captures and makes plans of them: of calls that rows of `cases_library` can't make, and of one happy path each. And of what
//! reads the rows.
#![tactic(auto)]

#[cfg(test)]
mod captures;
#[cfg(test)]
mod datagrams;
#[cfg(test)]
mod digits;
#[cfg(test)]
mod ends;
#[cfg(test)]
mod lines;
#[cfg(test)]
mod pcapng;
#[cfg(test)]
mod plans;
#[cfg(test)]
mod rows;
#[cfg(test)]
mod segments;
#[cfg(test)]
mod streams;
#[cfg(test)]
mod words;
