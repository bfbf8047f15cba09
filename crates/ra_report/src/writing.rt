ghost use Rattle.std.specs.Prelude.{◌≡◌};
ghost use Rattle.ra_io.specs.Outside.{writing};
ghost use Rattle.ra_report.specs.FaultTexts.{CanBeTold, fault_text};
ghost use Rattle.ra_report.specs.JournalTexts.{best_state, parts_in, bound_in, text_of, head_of, entry_line, accepted_line, bound_text};
ghost use Rattle.ra_report.specs.Writes.{Writes};
ghost use Rattle.ra_report.specs.Summaries.{summary_of};
ghost use Rattle.ra_report.specs.Texts.{parts_text};

use crate::desks::{Desks, add_entries_at};
use crate::faults::{Fault, add_fault};
use crate::journal::add_entry;
use crate::solved::{add_bound, add_head, add_number, add_report};
use crate::summary::add_summary;
use crate::{Gathered, WriteFault, add_parts};
use ra_base::{Assignment, Parts};
use ra_bounds::Bound;
use ra_io::Sink;
use ra_journal::{Entry, Journal};
use std::marker::Sync;
use std::thread::Threads;

/// Writes the six lines of the parts: `cost`, `load`, `balance`, `process`, `service`, `machine`.
pub fn write_parts<O: Sink>(sink: &mut O, parts: &Parts) -> Result<(), WriteFault>
    ensures { Writes (writing O.Sink sink.old sink.new) (parts_text parts.now) result }
{
    let mut text = Gathered::make(sink);
    add_parts(&mut text, parts);
    text.finish()
}

/// Writes the report of a run: the parts of the best assignment, the total of the bound, the place of the best
/// assignment, the assignment itself, the drawing, and a line for each entry of the journal. `best` and `parts` are those
/// of the journal's best state, and `bound` is that of its instance and its start, with the load of the pinned processes.
pub fn write_report<O: Sink>(
    sink: &mut O,
    best: &Assignment,
    parts: &Parts,
    bound: &Bound,
    journal: &Journal<'_>,
) -> Result<(), WriteFault>
    requires best { best.now.items ≡ best_state journal.now }
    requires parts { parts.now ≡ parts_in journal.now best.now.items }
    requires bound { bound.now ≡ bound_in journal.now }
    ensures { Writes (writing O.Sink sink.old sink.new) (text_of journal.now) result }
{
    let drawing = journal.lots().drawing();
    let best_at = journal.best_at();
    let entries = journal.entries();
    let mut text = Gathered::make(sink);
    add_report(&mut text, best, parts, bound, best_at, drawing, entries);
    text.finish()
}

/// Writes the report of a run as `write_report` does, but the desks write the lines of its entries at the same time.
pub fn write_report_at<R: Threads + Sync, O: Sink>(
    rt: &R,
    desks: &mut Desks,
    sink: &mut O,
    best: &Assignment,
    parts: &Parts,
    bound: &Bound,
    journal: &Journal<'_>,
) -> Result<(), WriteFault>
    requires best { best.now.items ≡ best_state journal.now }
    requires parts { parts.now ≡ parts_in journal.now best.now.items }
    requires bound { bound.now ≡ bound_in journal.now }
    ensures { Writes (writing O.Sink sink.old sink.new) (text_of journal.now) result }
{
    let drawing = journal.lots().drawing();
    let best_at = journal.best_at();
    let entries = journal.entries();
    let mut text = Gathered::make(sink);
    add_head(&mut text, best, parts, bound.total, best_at, drawing);
    add_entries_at(rt, desks, &mut text, entries);
    text.finish()
}

/// Writes the ten lines of a report before its entries. `best`, `parts` and `bound` are as in `write_report`.
pub fn write_head<O: Sink>(
    sink: &mut O,
    best: &Assignment,
    parts: &Parts,
    bound: &Bound,
    journal: &Journal<'_>,
) -> Result<(), WriteFault>
    requires best { best.now.items ≡ best_state journal.now }
    requires parts { parts.now ≡ parts_in journal.now best.now.items }
    requires bound { bound.now ≡ bound_in journal.now }
    ensures { Writes (writing O.Sink sink.old sink.new) (head_of journal.now) result }
{
    let drawing = journal.lots().drawing();
    let best_at = journal.best_at();
    let mut text = Gathered::make(sink);
    add_head(&mut text, best, parts, bound.total, best_at, drawing);
    text.finish()
}

/// Writes the line of the entry at a place, counted from 0.
pub fn write_entry<O: Sink>(sink: &mut O, at: u64, entry: &Entry) -> Result<(), WriteFault>
    ensures { Writes (writing O.Sink sink.old sink.new) (entry_line at entry.now) result }
{
    let mut text = Gathered::make(sink);
    add_entry(&mut text, at, entry);
    text.finish()
}

/// Writes the line for a report that was found right: `accepted` and the number of its entries.
pub fn write_accepted<O: Sink>(sink: &mut O, entries: u64) -> Result<(), WriteFault>
    ensures { Writes (writing O.Sink sink.old sink.new) (accepted_line entries) result }
{
    let mut text = Gathered::make(sink);
    add_number(&mut text, "accepted", entries as u128);
    text.finish()
}

/// Writes the summary of a run: the parts of the best assignment, the total of the bound, the place of the best assignment,
/// and how many proposals were done and refused. `parts` are those of the journal's best state, and `bound` is that of its
/// instance and its start, with the load of the pinned processes.
pub fn write_summary<O: Sink>(
    sink: &mut O,
    parts: &Parts,
    bound: &Bound,
    journal: &Journal<'_>,
) -> Result<(), WriteFault>
    requires parts { parts.now ≡ parts_in journal.now (best_state journal.now) }
    requires bound { bound.now ≡ bound_in journal.now }
    ensures { Writes (writing O.Sink sink.old sink.new) (summary_of journal.now) result }
{
    let best_at = journal.best_at();
    let entries = journal.entries();
    let mut text = Gathered::make(sink);
    add_summary(&mut text, parts, bound.total, best_at, entries);
    text.finish()
}

/// Writes the three lines of a bound: its total, its load and its balance.
pub fn write_bound<O: Sink>(sink: &mut O, bound: &Bound) -> Result<(), WriteFault>
    ensures { Writes (writing O.Sink sink.old sink.new) (bound_text bound.now) result }
{
    let mut text = Gathered::make(sink);
    add_bound(&mut text, bound);
    text.finish()
}

/// Writes the line of a fault.
pub fn write_fault<E: Sink>(sink: &mut E, fault: &Fault<'_>) -> Result<(), WriteFault>
    requires { CanBeTold fault.now }
    ensures { Writes (writing E.Sink sink.old sink.new) (fault_text fault.now) result }
{
    let mut text = Gathered::make(sink);
    add_fault(&mut text, fault);
    text.finish()
}
