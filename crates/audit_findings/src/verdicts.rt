//! How many calls have a verdict.

ghost use Rattle.std.specs.Prelude.{◌≡◌};
ghost use Rattle.call_stacks.specs.Calls.{how_many};
ghost use Rattle.audit_findings.specs.Verdicts.{is_verdict};

use call_stacks::{Opener, Verdict};

/// How many of the calls have this verdict.
pub(crate) fn count_of(calls: &[Opener<u64>], verdict: Verdict) -> u64
    ensures { result ≡ how_many (is_verdict verdict) calls.now }
{
    calls.iter().filter(|call| call.verdict == verdict).count() as u64
}
