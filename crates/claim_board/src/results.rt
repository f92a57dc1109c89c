//! Results in the order of their jobs, in time linear in the number of jobs.

ghost use Rattle.std.specs.Prelude.{◌≡◌, [], length, replicate, Some, None, IfOk};
ghost use Rattle.claim_board.specs.Results.{IsWhole, AreFilling, AreTaken, AreInOrder};

use crate::work::Work;
use std::alloc::{AllocError, Global};

// An empty place for each job.
fn empty_places<X: Drop>(alloc: Global, count: u64) -> Result<Vec<Option<X>>, AllocError>
    ensures { IfOk result (λ places. places.items ≡ replicate count None) }
{
    let mut places = Vec::new(alloc);
    for _ in 0..count {
        places.push(None)?;
    }
    Ok(places)
}

// Puts each result into the place of its job.
fn put_in_places<W: Work>(work: &W, mut list: Vec<(u64, W::Out)>, places: &mut Vec<Option<W::Out>>)
where
    W::Out: Drop,
    requires { AreFilling (W.gives work.now) (length (W.listed work.now)) list.items
        places.old.items }
    ensures { AreFilling (W.gives work.now) (length (W.listed work.now)) [] places.new.items }
{
    while let Some((i, out)) = list.pop() {
        places[i as usize] = Some(out);
    }
}

// Takes the results out of the places, from the first to the last.
fn take_from_places<W: Work>(
    alloc: Global,
    work: &W,
    mut places: Vec<Option<W::Out>>,
) -> Result<Vec<W::Out>, AllocError>
where
    W::Out: Drop,
    requires { AreTaken (W.gives work.now) (length (W.listed work.now)) 0 places.items [] }
    ensures { IfOk result
        (λ v. AreInOrder (W.gives work.now) (length (W.listed work.now)) v.items) }
{
    let mut all = Vec::new(alloc);
    for i in 0..places.len() {
        let Some(out) = places[i].take() else {
            unreachable!()
        };
        all.push(out)?;
    }
    Ok(all)
}

pub(crate) fn in_job_order<W: Work>(
    alloc: Global,
    work: &W,
    list: Vec<(u64, W::Out)>,
) -> Result<Vec<W::Out>, AllocError>
where
    W::Out: Drop,
    requires { IsWhole (W.gives work.now) (length (W.listed work.now)) list.items }
    ensures { IfOk result
        (λ v. AreInOrder (W.gives work.now) (length (W.listed work.now)) v.items) }
{
    let mut places = empty_places(alloc, work.jobs())?;
    put_in_places(work, list, &mut places);
    take_from_places(alloc, work, places)
}
