//! Ledgers of items typed by hand, against rows typed by hand.

mod handles;
mod nodes;
