ghost use Rattle.std.specs.Prelude.{◌≡◌, ◌++◌, length};
ghost use Rattle.ra_io.specs.Outside.{writing};
ghost use Rattle.std.specs.Option.{option_copied};
ghost use Rattle.ra_report.specs.Gathering.{AddsText};
ghost use Rattle.ra_report.specs.Lines.{HasRoomForBytes, Prepends};
ghost use Rattle.ra_report.specs.Writes.{Writes};
ghost use Rattle.ra_report.specs.Notes.{note_text};
ghost use Rattle.ra_report.specs.Texts.{space};
ghost use Rattle.ra_report.specs.RepairTexts.{broken_after, state_text, state_line, taken_text, try_front, try_back, try_line, tries_text, text_of_repair};

use crate::journal::{prepend_kind, prepend_steps};
use crate::{Gathered, Line, Note, WriteFault, add_assignment, add_note};
use ra_base::Cause;
use ra_io::Sink;
use ra_repair::{Repair, Try};

/// Writes the output of a repair: the line `feasible`, or `broken` and the cause, the line of its assignment, and a line
/// for each try. `broken` is the first broken constraint of its assignment.
pub fn write_repair<O: Sink>(
    sink: &mut O,
    broken: Option<&Cause>,
    repair: &Repair<'_>,
) -> Result<(), WriteFault>
    requires { option_copied broken ≡ broken_after repair.now }
    ensures { Writes (writing O.Sink sink.old sink.new) (text_of_repair repair.now) result }
{
    let mut text = Gathered::make(sink);
    add_state(&mut text, broken);
    add_assignment(&mut text, repair.assignment().as_slice());
    add_tries(&mut text, repair);
    text.finish()
}

/// Adds the line that says whether an assignment is feasible, or what is broken first.
fn add_state<O: Sink>(text: &mut Gathered<'_, O>, broken: Option<&Cause>)
    ensures { AddsText O.taken O.faults text.old text.new
        (state_line (option_copied broken.entry)) }
{
    add_note(text, state_note(broken));
    text.add(b"\n")
}

/// Whether an assignment is feasible, or what is broken first.
#[tactic(auto, unfolding(crate::specs::Notes::note_text, crate::specs::RepairTexts::state_text))]
fn state_note(broken: Option<&Cause>) -> Note<'static>
    ensures { note_text result ≡ state_text (option_copied broken.entry) }
{
    match broken {
        None => Note::Words("feasible"),
        Some(cause) => Note::Cause("broken ", *cause),
    }
}

/// Adds a line for each try, in order.
fn add_tries<O: Sink>(text: &mut Gathered<'_, O>, repair: &Repair<'_>)
    ensures { AddsText O.taken O.faults text.old text.new
        (tries_text repair.now.tries.items (length repair.now.tries.items)) }
{
    let mut line = Line::new();
    for place in 0..repair.tries() {
        add_try(text, &mut line, &repair.entry(place));
    }
}

/// Adds the line of a try, which is written in `line` first.
fn add_try<O: Sink>(text: &mut Gathered<'_, O>, line: &mut Line, one: &Try)
    ensures { AddsText O.taken O.faults text.old text.new (try_line one.now) }
{
    write_try(line, one);
    text.add(line.as_slice())
}

/// Writes the line of a try.
fn write_try(line: &mut Line, one: &Try)
    ensures { line.new ≡ try_line one.now }
{
    line.clear();
    prepend_back(line, one);
    prepend_steps(line, &one.mv);
    prepend_front(line, one)
}

/// Writes the words of a try before its steps in front.
fn prepend_front(line: &mut Line, one: &Try)
    requires { HasRoomForBytes line.old 27 }
    ensures { Prepends line.old line.new (try_front one.now) 27 }
{
    prepend_kind(line, one.mv.kind());
    line.prepend_number(one.k)
}

/// Writes the words of a try after its steps in front.
fn prepend_back(line: &mut Line, one: &Try)
    requires { HasRoomForBytes line.old 86 }
    ensures { Prepends line.old line.new (try_back one.now) 86 }
{
    line.prepend_byte(b'\n');
    line.prepend_wide(one.after);
    line.prepend_byte(b' ');
    line.prepend_wide(one.before);
    prepend_taken(line, one.taken)
}

/// Writes in front whether a move was taken, and a space after it.
fn prepend_taken(line: &mut Line, taken: bool)
    requires { HasRoomForBytes line.old 6 }
    ensures { Prepends line.old line.new (taken_text taken ++ space) 6 }
{
    if taken {
        line.prepend(b"taken ")
    } else {
        line.prepend(b"left ")
    }
}
