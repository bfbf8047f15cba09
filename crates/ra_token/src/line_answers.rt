/// What comes next in a file.
#[derive(Clone, Copy, Debug, PartialEq, Eq)]
pub enum Next {
    /// A line that ends with LF.
    Line,
    /// The last line, which ends with the file and has no LF.
    Last,
    /// A line with more bytes before its LF or its end than there is room for. Its first bytes were given.
    Long,
    /// Nothing, since all lines were given.
    End,
}

/// A fetch failed, and the count of faults of the file rose.
#[derive(Clone, Copy, Debug, PartialEq, Eq)]
pub struct ReadFault;
