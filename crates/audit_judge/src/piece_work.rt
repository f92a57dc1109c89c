//! What a worker does with a piece of frames.

ghost use Rattle.std.specs.Prelude.{map};
ghost use Rattle.audit_judge.specs.Jobs.{AreJobPieces, job_of};

use crate::piece_checks::{first_in, start_of};
use capture_frame::FrameSlice;
use claim_board::{JobStop, Work};
use std::alloc::Global;

/// A job for each piece of frames: to find its first fault. It gives nothing else.
#[derive(Drop)]
pub(crate) struct PieceWork<'f, 'c> {
    pub pieces: &'f [FrameSlice<'f, 'c>],
    ghost can_judge: { AreJobPieces pieces.now },
}

impl<'f, 'c> Work for PieceWork<'f, 'c> {
    ghost use Rattle.std.specs.Prelude.{⊤};

    type Out = ();

    ghost listed = { λ me. map job_of me.pieces.now };

    ghost gives = { λ _ _ _. ⊤ };

    fn jobs(&self) -> u64 {
        self.pieces.len() as u64
    }

    fn start(&self, i: u64) -> u64 {
        start_of(&self.pieces[i as usize])
    }

    fn run(&self, _alloc: Global, i: u64) -> Result<(), JobStop> {
        match first_in(&self.pieces[i as usize]) {
            Some(fault) => Err(JobStop::At(fault.place)),
            None => Ok(()),
        }
    }
}
