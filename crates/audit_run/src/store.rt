//! Where the parts of a capture are opened by their names.
ghost use Rattle.std.specs.Prelude.{◌≡◌, List, Option, Some, IfOk, IfSome, IsSome, ℕ};
ghost use Rattle.streams.specs.declared.run_error.RunError.{RunError};
ghost use Rattle.audit_run.specs.Store.{HasLeft, unknown};

use std::fs::Files;
use std::io::Read;
use std::{fs, io};
use streams::SharedFiles;

/// A place where the parts of a capture are opened by their names.
pub trait Store {
    ghost use Rattle.streams.specs.declared.run_error.RunError.{RunError};

    /// A part that is open for reading.
    type Part: Read + Drop;

    /// What several threads may read at once.
    type Shared: SharedFiles + Sync;

    /// The bytes of the part of this name, if a contract can say which these are.
    ghost bytes_of: { Self → List ℕ → Option (List ℕ) };

    /// The errors with which a reading of the part of this name may end, as a shared file.
    ghost errors_of: { Self → List ℕ → RunError → Type 0 };

    /// The error with which each such reading ends, as `always` of shared files.
    ghost always_of: { Self → List ℕ → Option RunError };

    /// Opens the part of this name, to be read from its first byte on.
    fn open(&self, name: &str) -> io::Result<Self::Part>
        ensures { IfOk result (λ part.
            HasLeft (bytes_of self.now name.now) (Self.Part.remaining part)) };

    /// The parts as files that several threads may read at once, if they can.
    fn shared(&self) -> Option<&Self::Shared>
        ensures known { IfSome result (λ shared. (name : List ℕ) →
            HasLeft (bytes_of self.now name) (Self.Shared.known shared.now name)) }
        ensures errors { IfSome result (λ shared. (name : List ℕ) → (error : RunError) →
            Self.Shared.errors shared.now name error → errors_of self.now name error) }
        ensures always { (name : List ℕ) → IfSome (always_of self.now name) (λ error.
            IsSome result
            × IfSome result (λ shared. Self.Shared.always shared.now name ≡ Some error)) };
}

/// The files of the system. No contract can say which bytes a file has.
#[derive(Clone, Copy)]
pub struct HostFiles<'t, T> {
    pub files: &'t T,
}

impl<'t, T: Files + SharedFiles + Sync> Store for HostFiles<'t, T> {
    type Part = T::File;

    type Shared = T;

    ghost use Rattle.std.specs.Prelude.{None, ⊤};

    ghost bytes_of = { λ files. unknown };

    ghost errors_of = { λ files name error. ⊤ };

    ghost always_of = { λ files name. None };

    fn open(&self, name: &str) -> io::Result<T::File> {
        fs::open(self.files, name)
    }

    fn shared(&self) -> Option<&T> {
        Some(self.files)
    }
}
