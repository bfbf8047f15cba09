ghost use Rattle.std.specs.Prelude.{◌≡◌};
ghost use Rattle.ra_report.specs.Notes.{note_text};
ghost use Rattle.ra_report.specs.FaultTexts.{field_text, bad_byte, too_large, model_detail, assign_detail, closed_detail, edits_detail};

use crate::Note;
use ra_assign::{AssignFault, ClosedFault};
use ra_edit_read::EditsFault;
use ra_model_read::{Field, ModelFault};

const TOO_LONG: Note<'static> = Note::Words("file too long");

/// What is wrong with a model file.
#[tactic(auto, unfolding(crate::specs::Notes::note_text, crate::specs::FaultTexts::model_detail))]
pub(crate) fn model_note(fault: ModelFault) -> Note<'static>
    ensures { note_text result ≡ model_detail fault }
{
    match fault {
        ModelFault::ReadFault => Note::Nothing,
        ModelFault::BadByte { at, byte } => bad_byte_note(at, byte),
        ModelFault::TooLarge { at } => too_large_note(at),
        ModelFault::TooLong => TOO_LONG,
        ModelFault::Missing { what, item } => Note::Field("missing ", field_name(what), item),
        ModelFault::Range {
            what,
            at,
            value,
            least,
            most,
        } => Note::Range("range ", field_name(what), at, value, least, most),
        ModelFault::Flag { at, value } => Note::Numbers("flag at ", at, ": ", value as u64),
        ModelFault::Extra { at } => Note::Number("extra at ", at as u128),
        ModelFault::NoMemory => Note::Nothing,
    }
}

/// What is wrong with an assignment file.
#[tactic(auto, unfolding(crate::specs::Notes::note_text, crate::specs::FaultTexts::assign_detail))]
pub(crate) fn assign_note(fault: AssignFault) -> Note<'static>
    ensures { note_text result ≡ assign_detail fault }
{
    match fault {
        AssignFault::ReadFault => Note::Nothing,
        AssignFault::BadByte { at, byte } => bad_byte_note(at, byte),
        AssignFault::TooLarge { at } => too_large_note(at),
        AssignFault::TooLong => TOO_LONG,
        AssignFault::Missing { process } => { Note::Number("missing process ", process.0 as u128) }
        AssignFault::NoMachine { process, value } => Note::Numbers(
            "no machine for process ",
            process.0 as u64,
            ", value ",
            value as u64,
        ),
        AssignFault::Extra { at } => Note::Number("extra at ", at as u128),
        AssignFault::NoMemory => Note::Nothing,
    }
}

/// What is wrong with a closed list.
#[tactic(auto, unfolding(crate::specs::Notes::note_text, crate::specs::FaultTexts::closed_detail))]
pub(crate) fn closed_note(fault: ClosedFault) -> Note<'static>
    ensures { note_text result ≡ closed_detail fault }
{
    match fault {
        ClosedFault::ReadFault => Note::Nothing,
        ClosedFault::BadByte { at, byte } => bad_byte_note(at, byte),
        ClosedFault::TooLarge { at } => too_large_note(at),
        ClosedFault::TooLong => TOO_LONG,
        ClosedFault::NoMachine { at, value } => {
            Note::Numbers("no machine at ", at, ", value ", value as u64)
        }
        ClosedFault::NoMemory => Note::Nothing,
    }
}

/// What is wrong with a file of edits.
#[tactic(auto, unfolding(crate::specs::Notes::note_text, crate::specs::FaultTexts::edits_detail))]
pub(crate) fn edits_note(fault: EditsFault) -> Note<'static>
    ensures { note_text result ≡ edits_detail fault }
{
    match fault {
        EditsFault::ReadFault => Note::Nothing,
        EditsFault::BadByte { at, byte } => bad_byte_note(at, byte),
        EditsFault::TooLarge { at } => too_large_note(at),
        EditsFault::TooLong => TOO_LONG,
        EditsFault::Missing { edit } => Note::Number("missing edit ", edit as u128),
        EditsFault::Range {
            at,
            value,
            least,
            most,
        } => Note::Range("range", "", at, value, least, most),
        EditsFault::TooMany { at } => Note::Number("too many edits at ", at as u128),
        EditsFault::NoMemory => Note::Nothing,
    }
}

/// A byte that is neither a digit nor a blank.
#[tactic(auto, unfolding(crate::specs::Notes::note_text))]
fn bad_byte_note(at: u64, byte: u8) -> Note<'static>
    ensures { note_text result ≡ bad_byte at byte }
{
    Note::Numbers("bad byte ", byte as u64, " at ", at)
}

/// A number that is too large.
#[tactic(auto, unfolding(crate::specs::Notes::note_text))]
fn too_large_note(at: u64) -> Note<'static>
    ensures { note_text result ≡ too_large at }
{
    Note::Number("number too large at ", at as u128)
}

/// The printed name of a field of a model file.
#[tactic(auto, unfolding(crate::specs::FaultTexts::field_text))]
fn field_name(field: Field) -> &'static str
    ensures { result.now ≡ field_text field }
{
    match field {
        Field::ResourceCount => "resource count",
        Field::Transient => "transient flag",
        Field::LoadWeight => "load weight",
        Field::MachineCount => "machine count",
        Field::Neighbourhood => "neighbourhood",
        Field::Location => "location",
        Field::Capacity => "capacity",
        Field::Safety => "safety capacity",
        Field::MoveCost => "machine move cost",
        Field::ServiceCount => "service count",
        Field::SpreadMin => "spread",
        Field::DependencyCount => "dependency count",
        Field::Dependency => "dependency",
        Field::ProcessCount => "process count",
        Field::ProcessService => "service",
        Field::Requirement => "requirement",
        Field::ProcessCost => "process move cost",
        Field::BalanceCount => "balance count",
        Field::BalanceFirst => "first resource",
        Field::BalanceSecond => "second resource",
        Field::BalanceTarget => "target",
        Field::BalanceWeight => "balance weight",
        Field::ProcessWeight => "process move weight",
        Field::ServiceWeight => "service move weight",
        Field::MachineWeight => "machine move weight",
    }
}
