ghost use Rattle.ra_io.specs.Outside.{writing};
ghost use Rattle.ra_report.specs.Gathering.{AddsText};
ghost use Rattle.ra_report.specs.Writes.{Writes};
ghost use Rattle.ra_anneal.specs.Texts.{annealed_text, last_line, told_text};

use ra_base::{Assignment, Machine, Parts};
use ra_io::Sink;
use ra_report::{Gathered, Piece, WriteFault, add_assignment, add_machines, add_parts, add_pieces};
use ra_search::Told;

/// Writes the twelve lines of a search: the parts of the best list, the total of the bound, what the search tells of
/// itself, the best list, and the last one.
pub(crate) fn write_annealed<O: Sink>(
    sink: &mut O,
    parts: &Parts,
    bound_total: u128,
    told: &Told,
    best: &Assignment,
    last: &Assignment,
) -> Result<(), WriteFault>
    ensures { Writes (writing O.Sink sink.old sink.new)
        (annealed_text parts.now bound_total told.now.heat told.now.tries told.now.done
        best.now.items last.now.items) result }
{
    let mut text = Gathered::make(sink);
    add_annealed(&mut text, parts, bound_total, told, best, last);
    text.finish()
}

/// Adds the twelve lines.
fn add_annealed<O: Sink>(
    text: &mut Gathered<'_, O>,
    parts: &Parts,
    bound_total: u128,
    told: &Told,
    best: &Assignment,
    last: &Assignment,
)
    ensures { AddsText O.taken O.faults text.old text.new
        (annealed_text parts.now bound_total told.now.heat told.now.tries told.now.done
        best.now.items last.now.items) }
{
    add_parts(text, parts);
    add_told(text, bound_total, told);
    add_assignment(text, best.as_slice());
    add_last(text, last.as_slice())
}

/// Adds the line of the total of the bound, and the three lines that the search tells of itself.
#[tactic(auto, unfolding(crate::specs::Texts::told_text))]
fn add_told<O: Sink>(text: &mut Gathered<'_, O>, bound_total: u128, told: &Told)
    ensures { AddsText O.taken O.faults text.old text.new
        (told_text bound_total told.now.heat told.now.tries told.now.done) }
{
    add_pieces(
        text,
        &[
            Piece::Text("bound "),
            Piece::Number(bound_total),
            Piece::Text("\nheat "),
            Piece::Number(told.heat as u128),
            Piece::Text("\ntries "),
            Piece::Number(told.tries as u128),
            Piece::Text("\ndone "),
            Piece::Number(told.done as u128),
            Piece::Text("\n"),
        ],
    )
}

/// Adds the line of the last list.
fn add_last<O: Sink>(text: &mut Gathered<'_, O>, machines: &[Machine])
    ensures { AddsText O.taken O.faults text.old text.new (last_line machines.now) }
{
    add_pieces(text, &[Piece::Text("last")]);
    add_machines(text, machines);
    add_pieces(text, &[Piece::Text("\n")])
}

/// Writes a text as it is.
pub(crate) fn write_text<O: Sink>(sink: &mut O, words: &str) -> Result<(), WriteFault>
    ensures { Writes (writing O.Sink sink.old sink.new) words.now result }
{
    let mut text = Gathered::make(sink);
    text.add(words.as_bytes());
    text.finish()
}
