//! The frames of a capture, cut into pieces for workers to judge.

ghost use Rattle.std.specs.Prelude.{◌≡◌, IfOk};
ghost use Rattle.audit_judge.specs.Pieces.{ArePieces};

use crate::piece::Piece;
use capture_frame::FrameSlice;
use std::alloc::{AllocError, Global};

/// Frames in pieces, one after another.
#[derive(Drop)]
pub struct Plan<'f, 'c> {
    pieces: Vec<FrameSlice<'f, 'c>>,
}

impl<'f, 'c> Plan<'f, 'c> {
    /// The frames in pieces of that size; the last piece may be shorter. Without frames there is no
    /// piece.
    pub fn new(
        alloc: Global,
        frames: &FrameSlice<'f, 'c>,
        piece: Piece,
    ) -> Result<Plan<'f, 'c>, AllocError>
        ensures { IfOk result
            (λ plan. ArePieces piece.frames frames.now plan.pieces.items) }
    {
        let most = piece.get() as usize;
        let mut pieces = Vec::new(alloc);
        let mut left = frames.without_first(0);
        while !left.is_empty() {
            let (next, others) = left.split_at(most.min(left.len()));
            pieces.push(next)?;
            left = others;
        }
        Ok(Plan { pieces })
    }

    /// The pieces, in order.
    pub fn pieces(&self) -> &[FrameSlice<'f, 'c>]
        ensures { result.now ≡ self.now.pieces.items }
    {
        self.pieces.as_slice()
    }
}
