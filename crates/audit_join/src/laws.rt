//! Laws of the definitions, as contracts of functions that do nothing.

ghost use Rattle.std.specs.Prelude.{◌≡◌};
ghost use Rattle.audit_join.specs.declared.limits.TheConstants.{CAPTURE_LIMIT};

/// A capture may have 1 GiB at most, all its parts together.
pub fn limit()
    ensures { CAPTURE_LIMIT ≡ 1073741824 }
{}
