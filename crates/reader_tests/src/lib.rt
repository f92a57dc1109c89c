//! Tests of the crates that read a capture, through their public calls: rows that were typed from
//! the kernel's header and from docs/ENVELOPE.md.
#![tactic(auto)]

#[cfg(test)]
mod codes;
#[cfg(test)]
mod cut;
#[cfg(test)]
mod expect;
#[cfg(test)]
mod frames;
#[cfg(test)]
mod objects;
#[cfg(test)]
mod records;
#[cfg(test)]
mod transactions;
