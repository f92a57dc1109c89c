//! Tests of the public calls of `streams`, `audit_join` and `audit_run`, on captures and rows
//! that were typed from docs/.
#![tactic(auto)]

#[cfg(test)]
mod devices;
#[cfg(test)]
mod join;
#[cfg(test)]
mod runs;
#[cfg(test)]
mod whole;
#[cfg(test)]
mod writes;
