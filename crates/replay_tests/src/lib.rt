//! Tests of what checks a traced report: the histories that are replayed, the lines that tell them, and whole replays.
#![tactic(auto)]

#[cfg(test)]
mod checking;
#[cfg(test)]
mod lines;
#[cfg(test)]
mod replays;
