ghost use Rattle.std.specs.Prelude.{◌≡◌};
ghost use Rattle.object_view.specs.Fields.{sort_of, sort_length};

/// The sorts of objects, `BINDER_TYPE_..` of `linux/android/binder.h`.
#[derive(Clone, Copy, Debug, PartialEq, Eq)]
pub enum Sort {
    /// `BINDER_TYPE_BINDER`: a node of the process whose record carries the object.
    Binder,
    /// `BINDER_TYPE_WEAK_BINDER`: the same, held weakly.
    WeakBinder,
    /// `BINDER_TYPE_HANDLE`: a handle of the process whose record carries the object.
    Handle,
    /// `BINDER_TYPE_WEAK_HANDLE`: the same, held weakly.
    WeakHandle,
    /// `BINDER_TYPE_FD`: a file descriptor.
    Fd,
    /// `BINDER_TYPE_FDA`: an array of file descriptors in another buffer.
    Fda,
    /// `BINDER_TYPE_PTR`: a buffer beside the data.
    Ptr,
}

impl Sort {
    /// The sort that an object's first four bytes name.
    pub(crate) fn of(number: u32) -> Option<Sort>
        ensures { result ≡ sort_of number }
    {
        match number {
            0x7362_2a85 => Some(Sort::Binder),
            0x7762_2a85 => Some(Sort::WeakBinder),
            0x7368_2a85 => Some(Sort::Handle),
            0x7768_2a85 => Some(Sort::WeakHandle),
            0x6664_2a85 => Some(Sort::Fd),
            0x6664_6185 => Some(Sort::Fda),
            0x7074_2a85 => Some(Sort::Ptr),
            _ => None,
        }
    }

    /// How many bytes an object of the sort has.
    pub(crate) fn length(self) -> usize
        ensures { result ≡ sort_length self }
    {
        match self {
            Sort::Fda => 32,
            Sort::Ptr => 40,
            _ => 24,
        }
    }
}
