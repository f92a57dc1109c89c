//! Tests of the public calls of `handle_ledger`, and of the summaries that its ledgers are made of,
//! against answers typed by hand.
#![tactic(auto)]

#[cfg(test)]
mod references;
#[cfg(test)]
mod summaries;
