//! The reader of model files: the one instance that the bytes mean, or the first refusal.
//!
//! `specs/ModelText.antt` defines, once, the order of the fields, their numbering and their limits.
#![tactic(auto)]

mod balances;
mod faults;
mod fields;
mod machines;
mod processes;
mod reader;
mod resources;
mod services;
mod tables;

pub use faults::{Field, ModelFault};
pub use reader::read_model;
