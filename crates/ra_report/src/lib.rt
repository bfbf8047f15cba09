//! The printed lines: the parts of a cost, causes, the line of an assignment, the report of a run with its journal, a
//! bound, and the line of each fault, gathered and put to a sink in large pieces; and lines of a report that are
//! compared with what they should be.
#![tactic(auto)]

mod comparing;
mod desks;
mod details;
mod faults;
mod front;
mod gathered;
mod journal;
mod lengths;
mod line;
mod notes;
mod pieces;
mod repair;
mod solved;
mod summary;
mod texts;
mod waiting;
mod writing;

pub use comparing::{is_entry_line, unlike_head};
pub use desks::Desks;
pub use faults::Fault;
pub use front::{Front, read_front};
pub use gathered::{Gathered, WriteFault};
pub use lengths::{LONGEST_FRONT, LONGEST_LINE};
pub use line::{LINE_ROOM, Line};
pub use notes::{Note, add_note};
pub use pieces::{Piece, add_decimal, add_marked, add_pieces};
pub use repair::write_repair;
pub use texts::{
    CauseWords, add_assignment, add_cause, add_machines, add_parts, cause_words, prepend_cause,
};
pub use writing::{
    write_accepted, write_bound, write_entry, write_fault, write_head, write_parts, write_report,
    write_report_at, write_summary,
};
