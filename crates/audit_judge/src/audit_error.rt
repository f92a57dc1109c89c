//! Why there are no findings.

use capture_frame::{Fault, PartFault};
use std::alloc::AllocError;

/// Why there are no findings of a capture.
#[derive(Clone, Copy, Debug)]
pub enum AuditError<F = Fault> {
    /// Memory ran out.
    Memory,
    /// The capture is malformed, and this is its first fault.
    Malformed(F),
}

/// Why there are no findings of a capture that is read in parts.
pub type PartsError = AuditError<PartFault>;

impl<F> From<AllocError> for AuditError<F> {
    ghost use Rattle.std.specs.Prelude.{◌≡◌};
    ghost use Rattle.audit_judge.specs.declared.audit_error.AuditError.TheVariants.{Memory};

    ghost from_gives = { λ _ e. e ≡ Memory };

    fn from(_error: AllocError) -> Self {
        AuditError::Memory
    }
}

impl From<Fault> for AuditError {
    ghost use Rattle.std.specs.Prelude.{◌≡◌};
    ghost use Rattle.audit_judge.specs.declared.audit_error.AuditError.TheVariants.{Malformed};

    ghost from_gives = { λ fault e. e ≡ Malformed fault };

    fn from(fault: Fault) -> Self {
        AuditError::Malformed(fault)
    }
}

/// The error of a single part, which is a capture.
impl From<PartsError> for AuditError {
    ghost use Rattle.std.specs.Prelude.{◌≡◌};
    ghost use Rattle.audit_judge.specs.Audit.{error_of_capture};

    ghost from_gives = { λ error e. e ≡ error_of_capture error };

    fn from(error: PartsError) -> Self {
        match error {
            AuditError::Memory => AuditError::Memory,
            AuditError::Malformed(found) => AuditError::Malformed(found.fault),
        }
    }
}
