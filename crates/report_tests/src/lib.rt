//! Tests of reports and of what they are made of: the quotas of rings, the text of `sqrun`'s report, and what `sqmore` serves and reports.
#![tactic(auto)]

#[cfg(test)]
mod datagrams;
#[cfg(test)]
mod quotas;
#[cfg(test)]
mod reports;
#[cfg(test)]
mod streams;
