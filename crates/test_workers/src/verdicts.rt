//! Verdicts, in one word each.
use ra_base::Cause;
use ra_moves::Verdict;

pub(super) fn done(cost: u128) -> Verdict {
    Verdict::Done { cost }
}

pub(super) fn refused(cause: Cause) -> Verdict {
    Verdict::Refused { cause }
}
