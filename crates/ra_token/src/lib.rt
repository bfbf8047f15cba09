//! The numbers of a file, one after another, and the lines of a file, each through one buffer.
//!
//! A file of numbers is digits and blanks. Each run of digits is a token, and the first fault of the file is told once
//! the tokens before it were given, however the bytes are cut by fetching. A line ends after its LF, and a last piece
//! without LF is a line too. A sink compares what it is given with bytes that are expected.
#![tactic(auto)]

mod answers;
mod buffer;
mod expected;
mod line_answers;
mod line_buffer;
mod line_reader;
mod line_scan;
mod reader;
mod scan;
mod short;
mod take;

pub use answers::{LARGEST, PLACE_LIMIT, Token, TokenFault};
pub use expected::Expected;
pub use line_answers::{Next, ReadFault};
pub use line_reader::LineReader;
pub use reader::Tokens;
