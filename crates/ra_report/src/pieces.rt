ghost use Rattle.std.specs.Prelude.{◌≡◌, ◌∷◌};
ghost use Rattle.ra_report.specs.Gathering.{AddsText};
ghost use Rattle.ra_report.specs.Pieces.{bytes_of, piece_bytes};
ghost use Rattle.ra_report.specs.Texts.{number_text};

use crate::gathered::Gathered;
use itoa::Buffer;
use ra_io::Sink;

/// A piece of a line.
#[derive(Clone, Copy)]
pub enum Piece<'a> {
    /// A text as it is.
    Text(&'a str),
    /// A number in decimal.
    Number(u128),
    /// A byte, and after it a number in decimal.
    Marked(u8, u64),
}

/// Adds a number in decimal.
#[inline(always)]
#[tactic(auto, using(crate::proofs::NumberTexts::decimal_number))]
pub fn add_decimal<O: Sink>(text: &mut Gathered<'_, O>, number: u64)
    ensures { AddsText O.taken O.faults text.old text.new (number_text number) }
{
    text.add(Buffer::new().format(number).as_bytes())
}

/// Adds a byte, and after it a number in decimal.
#[inline(always)]
pub fn add_marked<O: Sink>(text: &mut Gathered<'_, O>, mark: u8, number: u64)
    ensures { AddsText O.taken O.faults text.old text.new (mark ∷ number_text number) }
{
    text.add(&[mark]);
    add_decimal(text, number)
}

/// Adds one piece.
#[inline(always)]
#[tactic(auto, using(crate::proofs::NumberTexts::decimal_number))]
fn add_piece<O: Sink>(text: &mut Gathered<'_, O>, piece: Piece<'_>)
    ensures { AddsText O.taken O.faults text.old text.new (piece_bytes piece.entry) }
{
    match piece {
        Piece::Text(word) => text.add(word.as_bytes()),
        Piece::Number(number) => {
            let mut digits = Buffer::new();
            text.add(digits.format(number).as_bytes())
        }
        Piece::Marked(mark, number) => add_marked(text, mark, number),
    }
}

/// Adds pieces one after another.
#[inline(always)]
pub fn add_pieces<O: Sink>(text: &mut Gathered<'_, O>, pieces: &[Piece<'_>])
    ensures { AddsText O.taken O.faults text.old text.new (bytes_of pieces.now) }
{
    for piece in pieces {
        add_piece(text, *piece);
    }
}
