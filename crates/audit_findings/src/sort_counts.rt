//! How many good objects of each sort there are.

ghost use Rattle.std.specs.Prelude.{◌≡◌, ◌+◌, ◌<◌, ◌^◌, if◌then◌else◌};
ghost use Rattle.object_view.specs.declared.sort.Sort.{Sort};
ghost use Rattle.audit_findings.specs.Objects.{sort_count, same_sort};

use object_view::Sort;

/// A number for each sort.
#[derive(Clone, Copy, Debug)]
pub struct SortCounts {
    pub binder: u64,
    pub weak_binder: u64,
    pub handle: u64,
    pub weak_handle: u64,
    pub fd: u64,
    pub fda: u64,
    pub ptr: u64,
}

impl SortCounts {
    pub const NONE: Self = SortCounts {
        binder: 0,
        weak_binder: 0,
        handle: 0,
        weak_handle: 0,
        fd: 0,
        fda: 0,
        ptr: 0,
    };

    /// Adds an object of the sort.
    pub fn add(&mut self, sort: Sort)
        requires { sort_count self.old sort + 1 < 2 ^ 64 }
        ensures { (other : Sort)
            → sort_count self.new other ≡ sort_count self.old other
            + (if same_sort sort other then 1 else 0) }
    {
        match sort {
            Sort::Binder => self.binder += 1,
            Sort::WeakBinder => self.weak_binder += 1,
            Sort::Handle => self.handle += 1,
            Sort::WeakHandle => self.weak_handle += 1,
            Sort::Fd => self.fd += 1,
            Sort::Fda => self.fda += 1,
            Sort::Ptr => self.ptr += 1,
        }
    }

    /// The sum of these numbers and others, sort by sort.
    pub(crate) fn plus(self, other: Self) -> Self
        requires { (sort : Sort) → sort_count self sort + sort_count other sort < 2 ^ 64 }
        ensures { (sort : Sort)
            → sort_count result sort ≡ sort_count self sort + sort_count other sort }
    {
        SortCounts {
            binder: self.binder + other.binder,
            weak_binder: self.weak_binder + other.weak_binder,
            handle: self.handle + other.handle,
            weak_handle: self.weak_handle + other.weak_handle,
            fd: self.fd + other.fd,
            fda: self.fda + other.fda,
            ptr: self.ptr + other.ptr,
        }
    }
}
