//! An instance of the machine reassignment problem and what the problem's words mean over it.
//!
//! The words (use, feasible, the first broken constraint, the costs) are in `specs/`, each with a sentence of the
//! challenge's problem definition; the code here is the instance with its accessors. Laws of the words are in
//! `ra_laws`.
#![tactic(auto)]

mod assigned;
mod copying;
mod fits;
mod labels;
mod members;
mod numbers;
mod parts;
mod raw;
mod tables;

pub use assigned::machine_of;
pub use copying::{copied, copies};
pub use labels::Places;
pub use members::Members;
pub use numbers::Instance;
pub use parts::part_of;
pub use raw::{BalanceRow, MachineRow, ProcessRow, RawInstance, ResourceRow, ServiceRow, Tables};
