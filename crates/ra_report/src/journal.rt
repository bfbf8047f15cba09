ghost use Rattle.std.specs.Prelude.{◌≡◌, ◌++◌, length};
ghost use Rattle.ra_report.specs.Gathering.{AddsText};
ghost use Rattle.ra_report.specs.Lines.{HasRoomForBytes, Prepends};
ghost use Rattle.ra_report.specs.Texts.{space};
ghost use Rattle.ra_report.specs.JournalTexts.{verdict_text, kind_text, step_word, steps_text, entry_front, entry_line, entries_text};

use crate::{Gathered, Line, prepend_cause};
use ra_io::Sink;
use ra_journal::{Entries, Entry};
use ra_moves::{Move, MoveKind, Step, Verdict};

/// Adds a line for each entry, in order.
pub(crate) fn add_entries<O: Sink>(text: &mut Gathered<'_, O>, entries: &Entries)
    ensures { AddsText O.taken O.faults text.old text.new
        (entries_text entries.now.items (length entries.now.items)) }
{
    let mut line = Line::new();
    for place in 0..entries.len() {
        let entry = entries.get(place);
        add_line(text, &mut line, place as u64, &entry);
    }
}

/// Adds the line of the entry at a place.
pub(crate) fn add_entry<O: Sink>(text: &mut Gathered<'_, O>, place: u64, entry: &Entry)
    ensures { AddsText O.taken O.faults text.old text.new (entry_line place entry.now) }
{
    let mut line = Line::new();
    add_line(text, &mut line, place, entry)
}

/// Adds the line of the entry at a place, which is written in `line` first.
#[inline(always)]
fn add_line<O: Sink>(text: &mut Gathered<'_, O>, line: &mut Line, place: u64, entry: &Entry)
    ensures { AddsText O.taken O.faults text.old text.new (entry_line place entry.now) }
{
    write_line(line, place, entry);
    text.add(line.as_slice())
}

/// Writes the line of the entry at a place.
#[inline(always)]
pub(crate) fn write_line(line: &mut Line, place: u64, entry: &Entry)
    ensures { line.new ≡ entry_line place entry.now }
{
    line.clear();
    line.prepend_byte(b'\n');
    prepend_verdict(line, &entry.verdict);
    prepend_steps(line, &entry.mv);
    prepend_front(line, place, entry)
}

/// Writes the words of an entry before its steps in front, with a space after each.
#[inline(always)]
fn prepend_front(line: &mut Line, place: u64, entry: &Entry)
    requires { HasRoomForBytes line.old 90 }
    ensures { Prepends line.old line.new (entry_front place entry.now) 90 }
{
    prepend_kind(line, entry.mv.kind());
    line.prepend_marked(b' ', entry.q);
    line.prepend_marked(b' ', entry.k);
    line.prepend_marked(b' ', entry.worker as u64);
    line.prepend_number(place)
}

/// Writes the printed name of a kind of moves in front, between two spaces.
#[inline(always)]
pub(crate) fn prepend_kind(line: &mut Line, kind: MoveKind)
    requires { HasRoomForBytes line.old 7 }
    ensures { Prepends line.old line.new (space ++ kind_text kind ++ space) 7 }
{
    match kind {
        MoveKind::Shift => line.prepend(b" shift "),
        MoveKind::Swap => line.prepend(b" swap "),
        MoveKind::Chain => line.prepend(b" chain "),
    }
}

/// Writes the steps of a move in front, with a space after each.
#[inline(always)]
pub(crate) fn prepend_steps(line: &mut Line, mv: &Move)
    requires { HasRoomForBytes line.old 189 }
    ensures { Prepends line.old line.new (steps_text mv.now.steps) 189 }
{
    let mut left = mv.steps();
    while left > 0 {
        left -= 1;
        prepend_step(line, mv.step(left));
    }
}

/// Writes a step in front, with a space after it.
#[inline(always)]
fn prepend_step(line: &mut Line, step: Step)
    requires { HasRoomForBytes line.old 63 }
    ensures { Prepends line.old line.new (step_word step) 63 }
{
    line.prepend_byte(b' ');
    line.prepend_marked(b'>', step.to.0 as u64);
    line.prepend_marked(b':', step.from.0 as u64);
    line.prepend_number(step.process.0 as u64)
}

/// Writes a verdict in front.
#[inline(always)]
fn prepend_verdict(line: &mut Line, verdict: &Verdict)
    requires { HasRoomForBytes line.old 113 }
    ensures { Prepends line.old line.new (verdict_text verdict.now) 113 }
{
    match verdict {
        Verdict::Done { cost } => {
            line.prepend_wide(*cost);
            line.prepend(b"done ")
        }
        Verdict::Refused { cause } => {
            prepend_cause(line, cause);
            line.prepend(b"refused ")
        }
    }
}
