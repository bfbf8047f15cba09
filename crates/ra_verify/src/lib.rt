//! The check of a report that nobody needs to trust: whether it is the report of a legal whole journal, or which of its
//! lines is wrong. Given the entries so far, the worker and the place of an entry determine the one entry that may
//! follow, so each line is compared with the only one that could be there.
#![tactic(auto)]

mod checker;
mod checking;
mod entries;
mod faults;
mod head;
mod judging;
mod taking;
mod verifying;

pub use faults::VerifyFault;
pub use verifying::verify;
