use ra_base::NoMemory;
use ra_io::Failed;
use std::alloc::{AllocError, AllocFailed};

/// Why a paragraph, or the cases, could not be tried to the end.
#[derive(Clone, Copy, Debug, PartialEq, Eq)]
pub enum Trouble {
    /// It isn't in the form of cases.
    Unclear,
    /// The system refused memory.
    NoMemory,
    /// Standard output failed.
    Write,
}

impl From<NoMemory> for Trouble {
    fn from(_: NoMemory) -> Trouble {
        Trouble::NoMemory
    }
}

impl From<AllocError> for Trouble {
    fn from(_: AllocError) -> Trouble {
        Trouble::NoMemory
    }
}

impl<T: Drop> From<AllocFailed<T>> for Trouble {
    fn from(_: AllocFailed<T>) -> Trouble {
        Trouble::NoMemory
    }
}

impl From<Failed> for Trouble {
    fn from(_: Failed) -> Trouble {
        Trouble::Write
    }
}
