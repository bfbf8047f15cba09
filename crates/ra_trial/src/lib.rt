//! Trial instances: the texts of a model and of its start, made from a number.
//!
//! An instance has 4 resources, 100 machines, 250 services, 1,000 processes and one balance objective.
//! `specs/ModelTexts.antt` says which lines of a model file mean an instance, any instance.
#![tactic(auto)]

mod groups;
mod lines;
mod machines;
mod numbers;
mod trials;
mod words;

pub use trials::{TrialText, trial_text};
