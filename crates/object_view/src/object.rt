//! The fields of an object.

ghost use Rattle.std.specs.Prelude.{◌≡◌, length};
ghost use Rattle.transaction_view.specs.Envelope.{number_at};
ghost use Rattle.object_view.specs.Fields.{sort_number, sort_length};

use crate::sort::Sort;
use transaction_view::{u32_at, u64_at};

/// An object of an attachment. Its bytes are the capture's own. Whether what it points to, or
/// counts, is there is not promised.
#[derive(Clone, Copy)]
pub struct Object<'c> {
    /// What it is.
    pub sort: Sort,
    /// All of its bytes, the sort's four first.
    pub bytes: &'c [u8],
    // The sort is the one that the first four bytes name.
    ghost by_bytes: { number_at 4 0 bytes.now ≡ sort_number sort },
    ghost whole: { length bytes.now ≡ sort_length sort },
}

impl<'c> Object<'c> {
    ghost use Rattle.object_view.specs.Fields.{field, flags_position, binder_position, handle_position};
    ghost use Rattle.object_view.specs.Fields.{cookie_position, fd_position, buffer_position, length_position};
    ghost use Rattle.object_view.specs.Fields.{num_fds_position, parent_position, parent_offset_position};

    /// `flags` of a flat object (`FLAT_BINDER_FLAG_..`) or of a buffer (`BINDER_BUFFER_FLAG_..`).
    pub fn flags(self) -> Option<u32>
        ensures { result ≡ field 4 (flags_position self.entry.sort) self.entry.bytes.now }
    {
        match self.sort {
            Sort::Fd | Sort::Fda => None,
            _ => Some(u32_at(self.bytes, 4)),
        }
    }

    /// The address of the node of a BINDER or a WEAK_BINDER.
    pub fn binder(self) -> Option<u64>
        ensures { result ≡ field 8 (binder_position self.entry.sort) self.entry.bytes.now }
    {
        match self.sort {
            Sort::Binder | Sort::WeakBinder => Some(u64_at(self.bytes, 8)),
            _ => None,
        }
    }

    /// The handle of a HANDLE or a WEAK_HANDLE.
    pub fn handle(self) -> Option<u32>
        ensures { result ≡ field 4 (handle_position self.entry.sort) self.entry.bytes.now }
    {
        match self.sort {
            Sort::Handle | Sort::WeakHandle => Some(u32_at(self.bytes, 8)),
            _ => None,
        }
    }

    /// The cookie of a flat object or of an FD.
    pub fn cookie(self) -> Option<u64>
        ensures { result ≡ field 8 (cookie_position self.entry.sort) self.entry.bytes.now }
    {
        match self.sort {
            Sort::Fda | Sort::Ptr => None,
            _ => Some(u64_at(self.bytes, 16)),
        }
    }

    /// The file descriptor of an FD.
    pub fn fd(self) -> Option<u32>
        ensures { result ≡ field 4 (fd_position self.entry.sort) self.entry.bytes.now }
    {
        match self.sort {
            Sort::Fd => Some(u32_at(self.bytes, 8)),
            _ => None,
        }
    }

    /// The address of a PTR's buffer in the process whose record carries the object.
    pub fn buffer(self) -> Option<u64>
        ensures { result ≡ field 8 (buffer_position self.entry.sort) self.entry.bytes.now }
    {
        match self.sort {
            Sort::Ptr => Some(u64_at(self.bytes, 8)),
            _ => None,
        }
    }

    /// The length of a PTR's buffer, in bytes.
    pub fn length(self) -> Option<u64>
        ensures { result ≡ field 8 (length_position self.entry.sort) self.entry.bytes.now }
    {
        match self.sort {
            Sort::Ptr => Some(u64_at(self.bytes, 16)),
            _ => None,
        }
    }

    /// How many file descriptors an FDA has.
    pub fn num_fds(self) -> Option<u64>
        ensures { result ≡ field 8 (num_fds_position self.entry.sort) self.entry.bytes.now }
    {
        match self.sort {
            Sort::Fda => Some(u64_at(self.bytes, 8)),
            _ => None,
        }
    }

    /// `parent` of a PTR or an FDA. It is meant as the number of an object: its buffer has the
    /// pointer to the PTR's buffer, or the FDA's array. A PTR has the field even if its flags name
    /// no parent.
    pub fn parent(self) -> Option<u64>
        ensures { result ≡ field 8 (parent_position self.entry.sort) self.entry.bytes.now }
    {
        match self.sort {
            Sort::Ptr => Some(u64_at(self.bytes, 24)),
            Sort::Fda => Some(u64_at(self.bytes, 16)),
            _ => None,
        }
    }

    /// `parent_offset` of a PTR or an FDA. It is meant as where in the parent's buffer that pointer
    /// or array is, in bytes.
    pub fn parent_offset(self) -> Option<u64>
        ensures { result ≡ field 8 (parent_offset_position self.entry.sort) self.entry.bytes.now }
    {
        match self.sort {
            Sort::Ptr => Some(u64_at(self.bytes, 32)),
            Sort::Fda => Some(u64_at(self.bytes, 24)),
            _ => None,
        }
    }
}
