use ra_base::Cause;

/// The answer to an edit.
#[derive(Clone, Copy, Debug, PartialEq, Eq)]
pub enum EditReply {
    /// The edit is done, and this is what the current list costs after it.
    Done { cost: u128 },
    /// There is no process of this number.
    NoProcess { process: u32 },
    /// There are as many processes as an instance may have.
    Full,
    /// The only process can't be retired.
    Last,
    /// The current list would break a constraint.
    Broken { cause: Cause },
}
