ghost use Rattle.std.specs.Prelude.{◌≡◌};
ghost use Rattle.ra_report.specs.Gathering.{AddsText};
ghost use Rattle.ra_report.specs.Notes.{note_text};
ghost use Rattle.ra_report.specs.FaultTexts.{CanBeTold, fault_text, line_of, about, line_said};

use crate::details::{assign_note, closed_note, edits_note, model_note};
use crate::{Gathered, Note, Piece, add_note, add_pieces};
use ra_assign::{AssignFault, ClosedFault};
use ra_base::{Cause, Name};
use ra_edit_read::EditsFault;
use ra_io::Sink;
use ra_model_read::ModelFault;

/// Why a job was not done. The names are borrowed from the job. A reader's `ReadFault` is told as `Read` and its
/// `NoMemory` as `Memory`: in `Model`, `Closed`, `Assign` and `Edits` they have no line.
#[derive(Clone, Copy)]
pub enum Fault<'n> {
    /// The words are not a job.
    Usage,
    /// Reading a file failed.
    Read { name: &'n Name },
    /// The model file is not a model.
    Model { fault: ModelFault },
    /// A file is not a closed list for the model.
    Closed { name: &'n Name, fault: ClosedFault },
    /// A file is not an assignment for the model.
    Assign { name: &'n Name, fault: AssignFault },
    /// A file has no edits for the model.
    Edits { name: &'n Name, fault: EditsFault },
    /// The assignment of a file breaks a constraint.
    Infeasible { name: &'n Name, cause: Cause },
    /// A line of a report, counted from 1, is not what the run that the report tells would have written.
    Wrong { line: u64 },
    /// No try made the assignment of a file feasible: the last assignment breaks a constraint.
    Unrepaired { name: &'n Name, cause: Cause },
    /// Writing the output failed.
    Write,
    /// The system refused memory.
    Memory,
}

const USAGE: &str =
    "usage: reassign check MODEL INITIAL NEW [--closed FILE] | bound MODEL [INITIAL [--closed FILE]] | solve MODEL INITIAL [--slack N] [--closed FILE] [--draws 1|2] LOT ... | trial N | verify MODEL INITIAL REPORT [--slack N] [--closed FILE] [--draws 1|2] LOT ... | repair MODEL INITIAL [--closed FILE] LOT | edit MODEL INITIAL CURRENT EDITS [--closed FILE]";

/// What the line of a fault says: some words, a name and the text after it, and a note.
#[derive(Clone, Copy)]
struct FaultLine<'n> {
    words: &'static str,
    name: &'n str,
    behind: &'static str,
    note: Note<'n>,
}

/// Adds the line of a fault.
pub(crate) fn add_fault<O: Sink>(text: &mut Gathered<'_, O>, fault: &Fault<'_>)
    requires { CanBeTold fault.now }
    ensures { AddsText O.taken O.faults text.old text.new (fault_text fault.now) }
{
    let line = fault_line(fault);
    add_pieces(
        text,
        &[
            Piece::Text(line.words),
            Piece::Text(line.name),
            Piece::Text(line.behind),
        ],
    );
    add_note(text, line.note);
    text.add(b"\n")
}

/// The line of a fault.
#[tactic(auto, unfolding(crate::specs::FaultTexts::fault_text, crate::specs::Notes::note_text))]
fn fault_line<'n>(fault: &Fault<'n>) -> FaultLine<'n>
    ensures { line_said result ≡ fault_text fault.now }
{
    match *fault {
        Fault::Usage => plain(USAGE, Note::Nothing),
        Fault::Read { name } => plain("read fault: ", Note::Words(name.as_str())),
        Fault::Model { fault } => plain("bad model: ", model_note(fault)),
        Fault::Closed { name, fault } => about_file("bad closed list: ", name, closed_note(fault)),
        Fault::Assign { name, fault } => about_file("bad assignment: ", name, assign_note(fault)),
        Fault::Edits { name, fault } => about_file("bad edits: ", name, edits_note(fault)),
        Fault::Infeasible { name, cause } => about_file(
            "infeasible: ",
            name,
            Note::Cause("", cause),
        ),
        Fault::Wrong { line } => plain("", Note::Number("wrong line ", line as u128)),
        Fault::Unrepaired { name, cause } => about_file(
            "unrepaired: ",
            name,
            Note::Cause("", cause),
        ),
        Fault::Write => plain("write fault", Note::Nothing),
        Fault::Memory => plain("no memory", Note::Nothing),
    }
}

/// A line of some words and a note.
fn plain<'n>(words: &'static str, note: Note<'n>) -> FaultLine<'n>
    ensures { line_said result ≡ line_of words.now (note_text note.entry) }
{
    FaultLine {
        words,
        name: "",
        behind: "",
        note,
    }
}

/// A line about a file: some words, its name, and what is wrong with it.
fn about_file<'n>(words: &'static str, name: &'n Name, note: Note<'n>) -> FaultLine<'n>
    ensures { line_said result ≡ about words.now name.now (note_text note.entry) }
{
    FaultLine {
        words,
        name: name.as_str(),
        behind: ": ",
        note,
    }
}
