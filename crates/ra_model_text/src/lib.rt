//! The text of an instance: the lines of a model file that means it, gathered and put to a sink in large pieces.
//! `specs/ModelTexts.antt` says which lines these are. `proofs/Meaning.antt` proves that a reader takes exactly the
//! instance from them, with no machine closed; this is a law of `ra_laws`.
#![tactic(auto)]

mod lines;
mod model;

pub use model::{add_model, write_model};
