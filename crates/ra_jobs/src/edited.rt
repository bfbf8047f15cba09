ghost use Rattle.std.specs.Prelude.{◌≡◌, ◌≤◌, length, OnOk, OnErr};
ghost use Rattle.std.specs.Io.KnownBytes.{Appends};
ghost use Rattle.ra_model.specs.Costs.{parts_of};
ghost use Rattle.ra_report.specs.Gathering.{AddsText};
ghost use Rattle.ra_report.specs.Notes.{note_text};
ghost use Rattle.ra_report.specs.Pieces.{BreaksOff};
ghost use Rattle.ra_jobs.specs.EditedTexts.{initial_line, reply_text, edit_line, edits_text, model_part, edited_lines, edited_text};

use ra_base::{Fixed, Machine, Parts};
use ra_edit::{EditReply, Edited};
use ra_io::Sink;
use ra_model::Instance;
use ra_model_text::add_model;
use ra_report::{
    Gathered, Note, Piece, WriteFault, add_assignment, add_machines, add_note, add_parts,
    add_pieces,
};

/// Writes the output of edits: the six lines of the parts, the lines of the edited initial list and of the edited
/// current list, a line for each edit with the answer to it, the line `model`, and the text of the edited instance.
/// `parts` are those of the cost of the edited current list.
pub fn write_edited<O: Sink>(
    sink: &mut O,
    parts: &Parts,
    edited: &Edited,
    replies: &Fixed<EditReply>,
) -> Result<(), WriteFault>
    requires { parts.now ≡ parts_of edited.now.instance.tables edited.now.initial.items
        edited.now.current.items }
    ensures whole { OnOk result (Appends (O.taken sink.old) (O.taken sink.new)
        (edited_text edited.now.instance.tables edited.now.initial.items edited.now.current.items
        replies.now.items)) }
    ensures part { OnErr result (BreaksOff (O.taken sink.old) (O.taken sink.new) (O.faults sink.old)
        (O.faults sink.new)
        (edited_text edited.now.instance.tables edited.now.initial.items edited.now.current.items
        replies.now.items)) }
    ensures never_falls { O.faults sink.old ≤ O.faults sink.new }
{
    let mut text = Gathered::make(sink);
    add_edited(&mut text, parts, edited, replies);
    text.finish()
}

/// Adds the lines of an output of edits, whatever the parts are.
fn add_edited<O: Sink>(
    text: &mut Gathered<'_, O>,
    parts: &Parts,
    edited: &Edited,
    replies: &Fixed<EditReply>,
)
    ensures { AddsText O.taken O.faults text.old text.new
        (edited_lines parts.now edited.now.initial.items edited.now.current.items replies.now.items
        edited.now.instance.tables) }
{
    add_parts(text, parts);
    add_initial(text, edited.initial.as_slice());
    add_assignment(text, edited.current.as_slice());
    add_edits(text, replies);
    add_model_part(text, &edited.instance)
}

/// Adds the line of the initial list.
fn add_initial<O: Sink>(text: &mut Gathered<'_, O>, machines: &[Machine])
    ensures { AddsText O.taken O.faults text.old text.new (initial_line machines.now) }
{
    text.add(b"initial");
    add_machines(text, machines);
    text.add(b"\n")
}

/// Adds a line for each edit, in order.
fn add_edits<O: Sink>(text: &mut Gathered<'_, O>, replies: &Fixed<EditReply>)
    ensures { AddsText O.taken O.faults text.old text.new
        (edits_text replies.now.items (length replies.now.items)) }
{
    for place in 0..replies.len() {
        let reply = replies.get(place);
        add_edit(text, place as u64, &reply);
    }
}

/// Adds the line of an edit.
fn add_edit<O: Sink>(text: &mut Gathered<'_, O>, place: u64, reply: &EditReply)
    ensures { AddsText O.taken O.faults text.old text.new (edit_line place reply.now) }
{
    add_pieces(
        text,
        &[
            Piece::Text("edit "),
            Piece::Number(place as u128),
            Piece::Text(" "),
        ],
    );
    add_note(text, reply_note(reply));
    text.add(b"\n")
}

/// The answer to an edit.
#[tactic(auto, unfolding(ra_report::specs::Notes::note_text, crate::specs::EditedTexts::reply_text))]
fn reply_note(reply: &EditReply) -> Note<'static>
    ensures { note_text result ≡ reply_text reply.now }
{
    match *reply {
        EditReply::Done { cost } => Note::Number("done ", cost),
        EditReply::NoProcess { process } => Note::Number("no process ", process as u128),
        EditReply::Full => Note::Words("full"),
        EditReply::Last => Note::Words("last"),
        EditReply::Broken { cause } => Note::Cause("refused ", cause),
    }
}

/// Adds the line `model`, and the text of an instance.
fn add_model_part<O: Sink>(text: &mut Gathered<'_, O>, inst: &Instance)
    ensures { AddsText O.taken O.faults text.old text.new (model_part inst.now.tables) }
{
    add_pieces(text, &[Piece::Text("model\n")]);
    add_model(text, inst)
}
