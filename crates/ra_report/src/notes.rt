ghost use Rattle.ra_report.specs.Gathering.{AddsText};
ghost use Rattle.ra_report.specs.Notes.{note_text, range_text};

use crate::gathered::Gathered;
use crate::pieces::{Piece, add_pieces};
use crate::texts::add_cause;
use ra_base::Cause;
use ra_io::Sink;

/// What a line says of one thing, in words and numbers.
#[derive(Clone, Copy)]
pub enum Note<'a> {
    /// Nothing.
    Nothing,
    /// Some words.
    Words(&'a str),
    /// Words and a number.
    Number(&'a str, u128),
    /// Words and a number, and again words and a number.
    Numbers(&'a str, u64, &'a str, u64),
    /// Words, the name of a field, and a number.
    Field(&'a str, &'a str, u64),
    /// Words, the name of a field, the place of a number, the number, and its limits.
    Range(&'a str, &'a str, u64, u32, u32, u32),
    /// Words and a cause.
    Cause(&'a str, Cause),
}

/// Adds what a note says, without an end of the line.
#[tactic(auto, unfolding(crate::specs::Notes::note_text))]
pub fn add_note<O: Sink>(text: &mut Gathered<'_, O>, note: Note<'_>)
    ensures { AddsText O.taken O.faults text.old text.new (note_text note.entry) }
{
    match note {
        Note::Nothing => {}
        Note::Words(words) => add_pieces(text, &[Piece::Text(words)]),
        Note::Number(words, n) => add_pieces(text, &[Piece::Text(words), Piece::Number(n)]),
        Note::Numbers(words, a, between, b) => add_pieces(
            text,
            &[
                Piece::Text(words),
                Piece::Number(a as u128),
                Piece::Text(between),
                Piece::Number(b as u128),
            ],
        ),
        Note::Field(words, field, n) => add_pieces(
            text,
            &[
                Piece::Text(words),
                Piece::Text(field),
                Piece::Marked(b' ', n),
            ],
        ),
        Note::Range(words, field, at, value, least, most) => {
            add_range(text, words, field, at, value, least, most)
        }
        Note::Cause(words, cause) => {
            add_pieces(text, &[Piece::Text(words)]);
            add_cause(text, &cause)
        }
    }
}

/// Adds the text for the number of a field that is not within its limits.
fn add_range<'a, O: Sink>(
    text: &mut Gathered<'_, O>,
    words: &'a str,
    field: &'a str,
    at: u64,
    value: u32,
    least: u32,
    most: u32,
)
    ensures { AddsText O.taken O.faults text.old text.new
        (range_text words.now field.now at value least most) }
{
    add_pieces(
        text,
        &[
            Piece::Text(words),
            Piece::Text(field),
            Piece::Text(" at "),
            Piece::Number(at as u128),
            Piece::Text(": "),
            Piece::Number(value as u128),
            Piece::Text(" not in "),
            Piece::Number(least as u128),
            Piece::Text(" to "),
            Piece::Number(most as u128),
        ],
    )
}
