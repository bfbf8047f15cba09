use thiserror::Error;

/// Why a file of edits is refused.
#[derive(Clone, Copy, Debug, PartialEq, Eq, Error)]
pub enum EditsFault {
    /// A fetch failed, and the count of faults of the file rose.
    #[error("read fault")]
    ReadFault,
    /// The byte at a place is neither a digit nor a blank.
    #[error("byte at {at} is neither a digit nor a blank")]
    BadByte {
        at: u64,
        byte: u8,
    },
    /// The run of digits that begins at a place is worth too much.
    #[error("number too large at {at}")]
    TooLarge {
        at: u64,
    },
    /// The file has too many bytes.
    #[error("too long")]
    TooLong,
    /// The file ends inside an edit, whose number is counted from 0.
    #[error("missing edit {edit}")]
    Missing {
        edit: u64,
    },
    /// The number at a place is out of its range: a kind that doesn't exist, or the service or the machine of an added
    /// process that doesn't exist.
    #[error("number at {at} is out of its range")]
    Range {
        at: u64,
        value: u32,
        least: u32,
        most: u32,
    },
    /// A number follows the last edit that a file may have.
    #[error("too many edits at {at}")]
    TooMany {
        at: u64,
    },
    /// The system refused memory.
    #[error("out of memory")]
    NoMemory,
}
