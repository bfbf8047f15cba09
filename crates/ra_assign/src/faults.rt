use ra_base::Process;
use thiserror::Error;

/// Why an assignment file is refused.
#[derive(Clone, Copy, Debug, PartialEq, Eq, Error)]
pub enum AssignFault {
    /// A fetch failed, and the count of faults of the file rose.
    #[error("read fault")]
    ReadFault,
    /// The byte at a place is neither a digit nor a blank.
    #[error("byte {byte} at {at}")]
    BadByte { at: u64, byte: u8 },
    /// The run of digits that begins at a place is worth too much.
    #[error("number too large at {at}")]
    TooLarge { at: u64 },
    /// The file has too many bytes.
    #[error("too long")]
    TooLong,
    /// The file ends before the machine of a process.
    #[error("no machine for a process")]
    Missing { process: Process },
    /// The machine of a process doesn't exist.
    #[error("no machine {value}")]
    NoMachine { process: Process, value: u32 },
    /// A number follows the last process.
    #[error("extra number at {at}")]
    Extra { at: u64 },
    /// The system refused memory.
    #[error("out of memory")]
    NoMemory,
}

/// Why a closed list is refused.
#[derive(Clone, Copy, Debug, PartialEq, Eq, Error)]
pub enum ClosedFault {
    /// A fetch failed, and the count of faults of the file rose.
    #[error("read fault")]
    ReadFault,
    /// The byte at a place is neither a digit nor a blank.
    #[error("byte {byte} at {at}")]
    BadByte { at: u64, byte: u8 },
    /// The run of digits that begins at a place is worth too much.
    #[error("number too large at {at}")]
    TooLarge { at: u64 },
    /// The file has too many bytes.
    #[error("too long")]
    TooLong,
    /// The number at a place doesn't name a machine.
    #[error("no machine {value} at {at}")]
    NoMachine { at: u64, value: u32 },
    /// The system refused memory.
    #[error("out of memory")]
    NoMemory,
}
