//! The 16 slices of a capture. Each has as many sequences as the others, or one more.

ghost use Rattle.std.specs.Prelude.{◌<◌, ◌≤◌, ◌^◌};

use crate::rows::{Column, RowWriter, columns};
use listing_fields::Outcome;
use std::io::Write;

/// How many slices there are.
pub(crate) const SLICES: usize = 16;

/// Where the slices of a capture begin.
#[derive(Clone, Copy)]
pub(crate) struct Slices {
    /// The sequence of the first frame of the capture.
    first: u64,
    /// How many sequences after that each slice begins.
    begins: [u64; SLICES],
}

impl Slices {
    /// The slices of a capture whose first frame and last frame have these sequences.
    pub(crate) fn of((first, last): (u64, u64)) -> Slices {
        let all = u128::from(last.saturating_sub(first)) + 1;
        let mut begins = [0; SLICES];
        for number in 0..SLICES {
            begins[number] = begin_of(number as u64, all);
        }
        Slices { first, begins }
    }

    /// The number of the slice that a frame of this sequence is in.
    pub(crate) fn number_of(&self, sequence: u64) -> u8 {
        let gone = sequence.saturating_sub(self.first);
        let begun = self.begins.partition_point(|begin| *begin <= gone);
        begun.saturating_sub(1) as u8
    }

    /// Writes the rows of the table slice.
    pub(crate) fn write<W: Write + Drop>(&self, rows: &mut RowWriter<W>) -> Outcome {
        for number in 0..SLICES {
            rows.push(&columns! {
                slice: number as u64,
                first_seq: self.first.wrapping_add(self.begins[number]),
            })?;
        }
        Ok(())
    }
}

/// How many sequences after the first one a slice begins, of so many.
fn begin_of(number: u64, all: u128) -> u64
    requires slice { number < 16 }
    requires all { all ≤ 2 ^ 64 }
{
    ((u128::from(number) * all + 15) / 16) as u64
}
