ghost use Rattle.std.specs.Prelude.{◌≡◌};
ghost use Rattle.ra_report.specs.Gathering.{AddsText};
ghost use Rattle.ra_report.specs.Texts.{number_line};
ghost use Rattle.ra_report.specs.JournalTexts.{outcome_text, drawing_number, drawing_line, head_text, report_lines, bound_text};

use crate::journal::add_entries;
use crate::{Gathered, Piece, add_assignment, add_parts, add_pieces};
use ra_base::{Assignment, Drawing, Parts};
use ra_bounds::Bound;
use ra_io::Sink;
use ra_journal::Entries;

/// Adds the report of a run: the parts of the best assignment, the total of the bound, the place of the best
/// assignment, the assignment itself, the drawing, and a line for each entry of the journal.
pub(crate) fn add_report<O: Sink>(
    text: &mut Gathered<'_, O>,
    best: &Assignment,
    parts: &Parts,
    bound: &Bound,
    best_at: u64,
    drawing: Drawing,
    entries: &Entries,
)
    ensures { AddsText O.taken O.faults text.old text.new
        (report_lines parts.now bound.now.total best_at best.now.items drawing
        entries.now.items) }
{
    add_head(text, best, parts, bound.total, best_at, drawing);
    add_entries(text, entries)
}

/// Adds the ten lines before the entries.
pub(crate) fn add_head<O: Sink>(
    text: &mut Gathered<'_, O>,
    best: &Assignment,
    parts: &Parts,
    bound_total: u128,
    best_at: u64,
    drawing: Drawing,
)
    ensures { AddsText O.taken O.faults text.old text.new
        (head_text parts.now bound_total best_at best.now.items drawing) }
{
    add_outcome(text, parts, bound_total, best_at);
    add_assignment(text, best.as_slice());
    add_number(text, "draws", drawing_number(drawing))
}

/// Adds the eight lines of the outcome of a run: the parts, the total of the bound, and a place.
pub(crate) fn add_outcome<O: Sink>(
    text: &mut Gathered<'_, O>,
    parts: &Parts,
    bound_total: u128,
    best_at: u64,
)
    ensures { AddsText O.taken O.faults text.old text.new
        (outcome_text parts.now bound_total best_at) }
{
    add_parts(text, parts);
    add_number(text, "bound", bound_total);
    add_number(text, "best_at", best_at as u128)
}

/// Adds a line of a word and a number.
pub(crate) fn add_number<O: Sink>(text: &mut Gathered<'_, O>, word: &str, number: u128)
    ensures { AddsText O.taken O.faults text.old text.new (number_line word.now number) }
{
    add_pieces(
        text,
        &[
            Piece::Text(word),
            Piece::Text(" "),
            Piece::Number(number),
            Piece::Text("\n"),
        ],
    )
}

/// The printed number of a drawing.
#[tactic(auto, unfolding(crate::specs::JournalTexts::drawing_number))]
fn drawing_number(drawing: Drawing) -> u128
    ensures { result ≡ drawing_number drawing }
{
    match drawing {
        Drawing::One => 1,
        Drawing::Two => 2,
    }
}

/// Adds the three lines of a bound: its total, its load and its balance.
#[tactic(auto, unfolding(crate::specs::JournalTexts::bound_text))]
pub(crate) fn add_bound<O: Sink>(text: &mut Gathered<'_, O>, bound: &Bound)
    ensures { AddsText O.taken O.faults text.old text.new (bound_text bound.now) }
{
    add_pieces(
        text,
        &[
            Piece::Text("bound "),
            Piece::Number(bound.total),
            Piece::Text("\nload "),
            Piece::Number(bound.load),
            Piece::Text("\nbalance "),
            Piece::Number(bound.balance),
            Piece::Text("\n"),
        ],
    )
}
