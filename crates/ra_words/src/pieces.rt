ghost use Rattle.std.specs.Prelude.{◌≡◌, ◌+◌, ◌≤◌, true, [], map, length, take, drop, Some, None, if◌then◌else◌};
ghost use Rattle.std.specs.List.{list_all};
ghost use Rattle.ra_words.specs.Numbers.{is_number, decimal_worth};
ghost use Rattle.ra_words.specs.LotTexts.{first_place, pieces, piece_at};

use crate::numbers::{is_number, number};
use ra_base::Fixed;

/// The text from a place on.
#[tactic(auto, using(crate::proofs::PieceLaws::all_from))]
pub fn text_from(text: &[u8], start: usize) -> &[u8]
    requires { start ≤ length text.now }
    ensures { result.now ≡ drop start text.now }
{
    &text[start..]
}

/// The place of the first separator, and the length of the text if there is none.
#[tactic(auto, using(crate::proofs::PieceLaws::place_here, crate::proofs::PieceLaws::place_next, crate::proofs::PieceLaws::place_end))]
pub fn first_place(text: &[u8], separator: u8) -> usize
    ensures value { result ≡ first_place separator text.now }
    ensures within { result ≤ length text.now }
{
    for k in 0..text.len() {
        if text[k] == separator {
            return k;
        }
    }
    text.len()
}

/// The piece of a text that begins at a place and ends before the next comma.
#[tactic(auto, unfolding(crate::specs::LotTexts::piece_at))]
fn piece_at(text: &[u8], start: usize) -> &[u8]
    requires { start ≤ length text.now }
    ensures value { result.now ≡ piece_at text.now start }
    ensures within { length result.now + start ≤ length text.now }
{
    let rest = text_from(text, start);
    let end = first_place(rest, b',');
    &rest[..end]
}

/// How many numbers a text has, with one comma between two. `None` if it has anything else.
#[tactic(auto, using(crate::proofs::PieceLaws::piece_refused, crate::proofs::PieceLaws::piece_accepted, crate::proofs::PieceLaws::piece_counted, crate::proofs::PieceLaws::left_past), unfolding(crate::proofs::PieceLaws::left_from))]
pub(crate) fn count_numbers(text: &[u8]) -> Option<usize>
    ensures { result ≡ (if list_all is_number (pieces text.now) then Some
        (length (pieces text.now)) else None) }
{
    let mut count = 0;
    let mut start = 0;
    while start <= text.len() {
        let piece = piece_at(text, start);
        if !is_number(piece) {
            return None;
        }
        count += 1;
        start = start + piece.len() + 1;
    }
    Some(count)
}

/// Puts the numbers of a text into a list, in order.
pub(crate) fn put_numbers(text: &[u8], list: &mut Fixed<u64>)
    requires numbers { list_all is_number (pieces text.now) ≡ true }
    requires empty { list.old.items ≡ [] }
    requires room { length (pieces text.now) ≤ list.old.room }
    ensures { list.new.items ≡ map decimal_worth (pieces text.now) }
{
    let mut start = 0;
    while start <= text.len() {
        let piece = piece_at(text, start);
        list.push(number(piece));
        start = start + piece.len() + 1;
    }
}
