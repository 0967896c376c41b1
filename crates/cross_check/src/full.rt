// The error of a list that is full. No case comes to it, since the lists have room for the largest.
use arrayvec::CapacityError;
use std::alloc::AllocError;
use std::io;

// A list had no room for what was to be added.
#[derive(Clone, Copy, Debug, Drop)]
pub(crate) struct Full;

// The error of `extend`, which allocates nothing on these lists.
impl From<AllocError> for Full {
    fn from(_: AllocError) -> Full {
        Full
    }
}

impl<T: Drop> From<CapacityError<T>> for Full {
    fn from(_: CapacityError<T>) -> Full {
        Full
    }
}

impl From<Full> for io::Error {
    fn from(_: Full) -> io::Error {
        io::Error::from(io::ErrorKind::Other)
    }
}
