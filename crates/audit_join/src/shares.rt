//! Frames are summed by workers in threads.

ghost use Rattle.std.specs.Prelude.{◌≤◌, ◌<◌, [], length, IfOk, IfSome, OnOk};
ghost use Rattle.std.specs.Thread.{IsSend, IsSync};
ghost use Rattle.audit_findings.specs.Frames.{AreGoodFrames};
ghost use Rattle.audit_join.specs.Shares.{AreHalves, SumsShare};

use audit_findings::PieceSummary;
use capture_frame::FrameSlice;
use std::alloc::{AllocError, Global};
use std::thread;
use std::thread::Threads;
use summary_law::Summary;

/// What workers sum: it is halved, each half is summed, and the two sums are joined. It is a trait
/// so that the closures of `sum_shares` give a type without a lifetime; otherwise what they ensure
/// would be lost.
pub(crate) trait Share: Sized {
    type Sum;

    // What can be summed.
    ghost fits: { Self → Type 0 };

    // The sum of all of it.
    ghost sums: { Self → Self.Sum → Type 0 };

    // The whole is these two halves, one after the other.
    ghost halved: { Self → Self → Self → Type 0 };

    /// About half the work, and the rest of it; None if it can't be halved.
    fn halves(&self) -> Option<(Self, Self)>
        requires { fits self.now }
        ensures { IfSome result
            (λ both. fits both.0 × fits both.1 × halved self.now both.0 both.1) };

    /// The sum, by one worker.
    fn sum(&self, alloc: Global) -> Result<Self::Sum, AllocError>
        requires { fits self.now }
        ensures { IfOk result (sums self.now) };

    /// The sum of all, from the sums of its halves.
    fn join(&self, first: Self::Sum, second: Self::Sum) -> Result<Self::Sum, AllocError>
        requires { fits self.now
            × ((front back : Self) × halved self.now front back × sums front first
            × sums back second) }
        ensures { IfOk result (sums self.now) };

    /// Drops a sum.
    fn discard(sum: Self::Sum);
}

/// The sum of this share. The share and the workers are halved as long as there are two of each.
/// Each worker sums a share, and the sums are joined in order.
pub(crate) fn sum_shares<R: Threads + Sync, S: Share + Sync + Drop>(
    rt: &R,
    alloc: Global,
    share: &S,
    workers: u64,
) -> Result<S::Sum, AllocError>
where
    S::Sum: Send,
    requires { S.fits share.now }
    ensures { IfOk result (S.sums share.now) }
{
    if workers < 2 {
        return share.sum(alloc);
    }
    let Some((front, back)) = share.halves() else {
        return share.sum(alloc);
    };
    let some = workers / 2;
    let others = workers - some;
    let (first, second) = thread::join(
        rt,
        || -> Result<S::Sum, AllocError>
            requires { IsSync R.row × IsSync S.row × IsSend S.Sum.row × S.fits front }
            ensures { IfOk result (S.sums front) }
        { sum_shares(rt, alloc, &front, some) },
        || -> Result<S::Sum, AllocError>
            requires { IsSync R.row × IsSync S.row × IsSend S.Sum.row × S.fits back }
            ensures { IfOk result (S.sums back) }
        { sum_shares(rt, alloc, &back, others) },
    );
    join_halves(share, first, second)
}

/// The sum of all, from what came of its halves.
fn join_halves<S: Share>(
    share: &S,
    first: Result<S::Sum, AllocError>,
    second: Result<S::Sum, AllocError>,
) -> Result<S::Sum, AllocError>
    requires { S.fits share.now
        × ((front back : S) × S.halved share.now front back
        × IfOk first (S.sums front) × IfOk second (S.sums back)) }
    ensures { IfOk result (S.sums share.now) }
{
    match (first, second) {
        (Ok(first), Ok(second)) => share.join(first, second),
        (Ok(sum), Err(error)) | (Err(error), Ok(sum)) => {
            S::discard(sum);
            Err(error)
        }
        (Err(error), Err(_)) => Err(error),
    }
}

impl<'f, 'c> Share for FrameSlice<'f, 'c> {
    type Sum = PieceSummary<'c>;

    ghost fits = { AreGoodFrames };

    ghost sums = { λ frames summary. SumsShare summary frames };

    ghost halved = { AreHalves };

    fn halves(&self) -> Option<(Self, Self)> {
        if self.len() < 2 {
            return None;
        }
        Some(self.split_at(middle(self)))
    }

    fn sum(&self, alloc: Global) -> Result<PieceSummary<'c>, AllocError> {
        sum_share(alloc, self)
    }

    fn join(
        &self,
        first: PieceSummary<'c>,
        second: PieceSummary<'c>,
    ) -> Result<PieceSummary<'c>, AllocError> {
        first.join(second)
    }

    fn discard(sum: PieceSummary<'c>) {
        sum.discard();
    }
}

/// How many frames are in the first half: those that begin at or before the middle between the
/// places of the first and the last frame; at least one, and not all.
fn middle(frames: &FrameSlice<'_, '_>) -> usize
    requires good { AreGoodFrames frames.now }
    requires some { 2 ≤ length frames.now }
    ensures least { 1 ≤ result }
    ensures most { result < length frames.now }
{
    let last = frames.len() - 1;
    let half = frames.place(0) / 2 + frames.place(last) / 2;
    frames.count_begun(half).clamp(1, last)
}

/// The summary of these frames by one worker.
fn sum_share<'c>(alloc: Global, frames: &FrameSlice<'_, 'c>) -> Result<PieceSummary<'c>, AllocError>
    requires { AreGoodFrames frames.now }
    ensures { IfOk result (λ summary. SumsShare summary frames.now) }
{
    let mut summary = PieceSummary::empty(alloc);
    match add_frames(&mut summary, frames) {
        Ok(()) => Ok(summary),
        Err(error) => {
            summary.discard();
            Err(error)
        }
    }
}

/// Adds these frames to an empty summary.
fn add_frames<'c>(
    summary: &mut PieceSummary<'c>,
    frames: &FrameSlice<'_, 'c>,
) -> Result<(), AllocError>
    requires good { AreGoodFrames frames.now }
    requires none { SumsShare summary.old [] }
    ensures { OnOk result (SumsShare summary.new frames.now) }
{
    for number in 0..frames.len() {
        summary.add(frames.get(number))?;
    }
    Ok(())
}
