use thiserror::Error;

/// The limit of a file's size: the place, in bytes from the start, of the first byte that is too many.
pub const PLACE_LIMIT: u64 = 536_870_912;

/// The largest value of a token.
pub const LARGEST: u64 = 4_294_967_295;

/// A number of a file.
#[derive(Clone, Copy, Debug, PartialEq, Eq)]
pub struct Token {
    /// What its digits are worth.
    pub value: u32,
    /// The place of its first digit, in bytes from the start of the file.
    pub at: u64,
}

/// Why the next token of a file was not given.
#[derive(Clone, Copy, Debug, PartialEq, Eq, Error)]
pub enum TokenFault {
    /// A fetch failed, and the count of faults of the file rose.
    #[error("read fault")]
    ReadFault,
    /// The byte at a place is neither a digit nor a blank.
    #[error("byte {byte} at {at}")]
    BadByte {
        /// The place of the byte.
        at: u64,
        /// The byte.
        byte: u8,
    },
    /// The run of digits that begins at a place is worth more than `LARGEST`.
    #[error("number too large at {at}")]
    TooLarge {
        /// The place of the first digit of the run.
        at: u64,
    },
    /// The file has a byte at `PLACE_LIMIT`.
    #[error("too long")]
    TooLong,
    /// The system refused memory.
    #[error("out of memory")]
    NoMemory,
}
