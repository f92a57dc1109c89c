//! The calls of each thread, from their openers to their closers.

ghost use Rattle.std.specs.Bool.{OnTrue};
ghost use Rattle.std.specs.Map.{values_of};
ghost use Rattle.std.specs.List.Sorted.{IsPermutation, IsNonDecreasingBy};
ghost use Rattle.std.specs.Prelude.{◌≡◌, ◌≤◌, ◌↔◌, ◌++◌, ℕ, [], map, option_map, take, true, IsTrue, IfOk, OnOk};
ghost use Rattle.summary_law.specs.Fits.{IsPlaced};
ghost use Rattle.call_stacks.specs.Calls.{AreFindings};
ghost use Rattle.listing_tables.specs.Calls.{step_place, step_reads, call_place};
ghost use Rattle.listing_tables.specs.Calls.{innermost, is_open_until, is_served, last_call, nested_after, within};
ghost use Rattle.listing_tables.specs.Calls.{row_of_call, row_of_opener, rows_of, verdict_number};
ghost use Rattle.listing_tables.specs.Steps.{rows_of_lists};
ghost use Rattle.call_stacks.specs.declared.verdict.Verdict.TheVariants.{Answered};

use crate::numbered::{Numbered, narrow, one_more};
use crate::steps::Steps;
use binder_code::Kind;
use call_stacks::{CallFindings, CallRecord, Calls, Opener, Verdict};
use event_core::Bracket;
use listing_fields::{ListingError, Outcome};
use std::alloc::Global;
use summary_law::summary_of;

/// A record that leaves a mark in its thread.
#[derive(Clone, Copy)]
pub(crate) struct CallStep {
    pub place: u32,
    /// How many messages come before it: the index of its own, if it is one.
    pub before: u32,
    pub kind: Kind,
    /// Whether it is a transaction with TF_ONE_WAY.
    pub oneway: bool,
}

impl CallRecord for CallStep {
    ghost reads = { step_reads };

    ghost all_kept = { true };

    fn place(&self) -> u64 {
        u64::from(self.place)
    }

    fn kind(&self) -> Kind {
        self.kind
    }

    fn oneway(&self) -> bool {
        self.oneway
    }

    fn keeps_all() -> bool {
        true
    }
}

/// A call that a thread makes or gets to serve.
#[derive(Clone, Copy)]
pub(crate) struct Call {
    pub place: u32,
    /// The index of its opener among the messages.
    pub opener: u32,
    pub closer: Option<Closer>,
    pub verdict: Verdict,
    pub served: bool,
    /// 1, or 1 more than that of its parent.
    pub depth: u32,
    /// The place of the last call of the thread before it that is not closed before it.
    pub parent: Option<u32>,
}

impl Call {
    ghost use Rattle.listing_tables.specs.Calls.{closer_place};
    ghost use Rattle.listing_tables.specs.Messages.{has_answer};

    /// The place of its closer, if it is closed.
    pub(crate) fn end(&self) -> Option<u32>
        ensures { result ≡ closer_place self.now }
    {
        match self.closer {
            Some(closer) => Some(closer.place),
            None => None,
        }
    }

    pub(crate) fn is_answered(&self) -> bool
        ensures answered { IsTrue result ↔ (self.now.verdict ≡ Answered) }
        ensures value { result ≡ has_answer self.now.verdict }
    {
        matches!(self.verdict, Verdict::Answered)
    }
}

/// The record that closes a call: its place, and its index among the messages.
#[derive(Clone, Copy)]
pub(crate) struct Closer {
    pub place: u32,
    pub message: u32,
}

/// What is found of a thread of which these are the records that leave a mark.
fn findings_of(alloc: Global, steps: &[CallStep]) -> Result<CallFindings<CallStep>, ListingError>
    ensures { IfOk result (AreFindings step_reads true steps.now) }
{
    if !is_placed(steps) {
        return Err(ListingError::TooLarge);
    }
    let calls: Calls<CallStep> = summary_of(alloc, steps)?;
    Ok(calls.finish()?)
}

/// Whether there are at most 2^32 records, and their places rise. Those of a capture's thread do.
fn is_placed(steps: &[CallStep]) -> bool
    ensures { OnTrue result (IsPlaced step_place steps.now) }
{
    if steps.len() > 4_294_967_296 {
        return false;
    }
    let mut least: u64 = 0;
    for step in steps {
        if u64::from(step.place) < least {
            return false;
        }
        least = u64::from(step.place) + 1;
    }
    true
}

/// The calls of all threads, in the order of their places. Of each thread these are the records
/// that leave a mark.
pub(crate) fn all_calls(alloc: Global, threads: &Steps) -> Result<Numbered<Call>, ListingError>
    ensures moved { IfOk result (λ calls.
        IsPermutation (rows_of_lists (values_of threads.now.entries.entries))
        (map row_of_call calls.all.items)) }
    ensures sorted { IfOk result (λ calls. IsNonDecreasingBy call_place calls.all.items) }
{
    let mut calls = Numbered::new(alloc);
    for at in 0..threads.entries.len() {
        take_calls(alloc, &mut calls, threads.entries[at].list.as_slice())?;
    }
    calls.all.sort_unstable_by_key(|call| call.place);
    Ok(calls)
}

/// Takes the calls of a thread, of which these are the records that leave a mark.
fn take_calls(alloc: Global, calls: &mut Numbered<Call>, steps: &[CallStep]) -> Outcome
    ensures { OnOk result (map row_of_call calls.new.all.items ≡
        map row_of_call calls.old.all.items ++ rows_of steps.now) }
{
    let found = findings_of(alloc, steps)?;
    push_calls(alloc, calls, &found.openers, steps)
}

fn push_calls(
    alloc: Global,
    calls: &mut Numbered<Call>,
    openers: &[Opener<CallStep>],
    steps: &[CallStep],
) -> Outcome
    ensures { OnOk result (map row_of_call calls.new.all.items ≡
        map row_of_call calls.old.all.items ++ nested_after [] (map row_of_opener openers.now)) }
{
    let mut stack = Vec::new(alloc);
    let mut least: u32 = 0;
    for opener in openers {
        let call = nested(&mut stack, call_of(opener, steps)?)?;
        // Their places rise, as those of the records do.
        if call.place < least {
            return Err(ListingError::TooLarge);
        }
        least = call.place;
        calls.push(call)?;
        stack.push(call)?;
    }
    Ok(())
}

/// A call by itself.
fn call_of(opener: &Opener<CallStep>, steps: &[CallStep]) -> Result<Call, ListingError>
    ensures { IfOk result (λ call. row_of_call call ≡ row_of_opener opener.now) }
{
    let closer = match opener.closer {
        Some(place) => Some(closer_at(narrow(place)?, steps)?),
        None => None,
    };
    Ok(Call {
        place: opener.event.place,
        opener: opener.event.before,
        closer,
        verdict: opener.verdict,
        served: is_served(opener.event.bracket(None)),
        depth: 1,
        parent: None,
    })
}

/// Whether it is a call that a thread gets to serve.
fn is_served(bracket: Bracket) -> bool
    ensures { result ≡ is_served bracket }
{
    matches!(bracket, Bracket::Served)
}

/// The closer at this place, which is that of one of these records.
fn closer_at(place: u32, steps: &[CallStep]) -> Result<Closer, ListingError>
    ensures { IfOk result (λ closer. closer.place ≡ place) }
{
    let index = steps.partition_point(|step| step.place < place);
    match steps.get(index) {
        Some(step) => Ok(Closer {
            place,
            message: step.before,
        }),
        None => Err(ListingError::TooLarge),
    }
}

/// A call with its depth and its parent. Calls that are closed before it are taken off the stack of
/// those before it, up to the last one that is not.
fn nested(stack: &mut Vec<Call>, call: Call) -> Result<Call, ListingError>
    ensures nested { IfOk result (λ nested. row_of_call nested ≡
        within (innermost call.place (map row_of_call stack.old.items)) (row_of_call call)) }
    ensures kept { (at : ℕ) → call.place ≤ at →
        innermost at (map row_of_call stack.new.items)
        ≡ innermost at (map row_of_call stack.old.items) }
{
    let count = count_to_open(stack.as_slice(), call.place);
    stack.truncate(count);
    within(stack.as_slice().last().copied(), call)
}

/// How many of these calls there are up to the last one that is not closed before a place.
fn count_to_open(calls: &[Call], place: u32) -> usize
    ensures same { (at : ℕ) → place ≤ at →
        innermost at (map row_of_call (take result calls.now))
        ≡ innermost at (map row_of_call calls.now) }
    ensures top { innermost place (map row_of_call calls.now)
        ≡ option_map row_of_call (last_call (take result calls.now)) }
{
    for number in (0..calls.len()).rev() {
        if is_open_until(calls[number], place) {
            return number + 1;
        }
    }
    0
}

/// Whether a call is not closed before a place.
fn is_open_until(call: Call, place: u32) -> bool
    ensures { result ≡ is_open_until place (row_of_call call).closer }
{
    match call.end() {
        Some(end) => place <= end,
        None => true,
    }
}

/// A call within this one, if there is one.
fn within(around: Option<Call>, call: Call) -> Result<Call, ListingError>
    ensures { IfOk result (λ nested. row_of_call nested ≡
        within (option_map row_of_call around) (row_of_call call)) }
{
    match around {
        Some(around) => Ok(Call {
            depth: one_more(around.depth)?,
            parent: Some(around.place),
            ..call
        }),
        None => Ok(Call {
            depth: 1,
            parent: None,
            ..call
        }),
    }
}

/// The number of a verdict in the table call.
pub(crate) fn verdict_number(verdict: Verdict) -> u64
    ensures { result ≡ verdict_number verdict }
{
    match verdict {
        Verdict::Open => 0,
        Verdict::Answered => 1,
        Verdict::Replied => 2,
        Verdict::Failed => 3,
        Verdict::Crossed => 4,
    }
}
