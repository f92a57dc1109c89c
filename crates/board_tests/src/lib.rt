//! Tests of the public calls of `claim_board`, on boards and jobs that were typed from docs/. They
//! have a crate of their own, because a crate with tests is proved twice.
#![tactic(auto)]

#[cfg(test)]
mod jobs;
#[cfg(test)]
mod rounds;
#[cfg(test)]
mod run;
#[cfg(test)]
mod steps;
