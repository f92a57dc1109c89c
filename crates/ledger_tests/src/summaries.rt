//! What no clause says, tested on values typed by hand.

mod tallied;
