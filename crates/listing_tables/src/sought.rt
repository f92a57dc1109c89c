//! What is looked for by its place.

use crate::followed::{Followed, event_of, is_opener};
use capture_frame::Frame;
use listing_fields::Item;
use std::alloc::{AllocError, Global};

/// What is looked for by its place.
#[derive(Clone, Copy)]
pub enum Sought {
    /// Records that have a byte, or whose attachment has it.
    Record,
    /// Frames that have a byte.
    Frame,
    /// Calls whose opener has a byte, up to their closers.
    Call,
}

/// What is not found yet, and the calls that are.
#[derive(Drop)]
pub(crate) struct Seeker {
    sought: Sought,
    /// The places where nothing is found yet.
    open: Vec<u64>,
    /// The calls whose closers have not come yet.
    followed: Vec<Followed>,
    alloc: Global,
}

impl Seeker {
    pub(crate) fn new(alloc: Global, sought: Sought, open: Vec<u64>) -> Seeker {
        Seeker {
            sought,
            open,
            followed: Vec::new(alloc),
            alloc,
        }
    }

    /// Whether records are shown whole.
    pub(crate) fn shows_whole(&self) -> bool {
        matches!(self.sought, Sought::Record)
    }

    /// The places where nothing is found yet.
    pub(crate) fn open(&self) -> &[u64] {
        self.open.as_slice()
    }

    /// Whether everything that is looked for is found.
    pub(crate) fn is_complete(&self) -> bool {
        self.open.is_empty() && self.followed.is_empty()
    }

    /// Whether records of a frame may be what is looked for. If frames are, this one is found then.
    pub(crate) fn has_frame(&mut self, frame: Frame<'_>) -> bool {
        match self.sought {
            Sought::Call => true,
            Sought::Record => self
                .open
                .as_slice()
                .iter()
                .any(|place| is_in(*place, frame)),
            Sought::Frame => {
                let count = self.open.len();
                self.open.retain(|place| !is_in(*place, frame));
                self.open.len() < count
            }
        }
    }

    /// Whether a record of such a frame is what is looked for.
    pub(crate) fn has_item(
        &mut self,
        frame: Frame<'_>,
        item: Item<'_>,
    ) -> Result<bool, AllocError> {
        match self.sought {
            Sought::Frame => Ok(true),
            Sought::Record => Ok(self.take_covered(item)),
            Sought::Call => self.is_of_call(frame, item),
        }
    }

    /// Whether a record belongs to a call that is looked for: it is the opener, the closer, or a
    /// record of the same thread between them.
    fn is_of_call(&mut self, frame: Frame<'_>, item: Item<'_>) -> Result<bool, AllocError> {
        let event = event_of(item.record);
        if is_opener(event) && self.take_covered(item) {
            self.followed.push(Followed::new(self.alloc, frame))?;
        }
        let mut is_of_one = false;
        for followed in self.followed.iter_mut() {
            if followed.is_of(frame) {
                followed.follow(event)?;
                is_of_one = true;
            }
        }
        self.followed.retain(|followed| !followed.is_closed());
        Ok(is_of_one)
    }

    /// Takes out the places whose byte is in a record or in its attachment. Returns whether there
    /// were any.
    fn take_covered(&mut self, item: Item<'_>) -> bool {
        let count = self.open.len();
        self.open.retain(|place| !covers(*place, item));
        self.open.len() < count
    }
}

/// Whether the byte at this place is in the frame.
fn is_in(place: u64, frame: Frame<'_>) -> bool {
    let end = frame.attachments_place() + frame.attachments.len() as u64;
    frame.place <= place && place < end
}

/// Whether the byte at this place is in the record or in its attachment.
fn covers(place: u64, item: Item<'_>) -> bool {
    let record = item.record;
    if record.place <= place && place < record.place + 4 + record.payload.len() as u64 {
        return true;
    }
    match item.entry {
        Some(entry) => {
            let length = 12 + entry.body.len() as u64 + entry.offsets.len() as u64;
            entry.place <= place && place < entry.place + length
        }
        None => false,
    }
}
