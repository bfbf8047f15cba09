//! Several workers over one ticket lock: the journal that they share, how they run, and the numbers of the guards in
//! the lock.
#![tactic(auto)]

mod books;
mod copying;
mod labour;
mod numbering;
mod shared;

pub use books::{Book, Opened, WorkerPass};
pub use labour::{Labour, all_labour};
pub use shared::Shared;
