//! The command words: which job a list of words is, with the names of its files and the lots of its workers.
//!
//! `read_words` refuses words that are not a job before it asks for memory; one command of `clap` takes the words of a
//! job apart.
#![tactic(auto)]

mod forms;
mod jobs;
mod line;
mod lots;
mod numbers;
mod pieces;
mod words;

pub use jobs::{Job, WordsFault, read_words};
pub use line::{closed_name, plain_at, plain_name, take_line};
pub use numbers::{is_number, number};
pub use pieces::{first_place, text_from};
pub use words::{behind, has_option, names_file, text_at};
