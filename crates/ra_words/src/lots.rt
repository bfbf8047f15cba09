ghost use Rattle.std.specs.Prelude.{◌≡◌, ◌+◌, ◌-◌, ◌/◌, ◌≤◌, true, map, length, take, drop, sum_by, nat_le, ◌&&◌, IfOk, IfSome, if◌then◌else◌, Option, Some, None};
ghost use Rattle.std.specs.List.{list_all};
ghost use Rattle.ra_draws.specs.Lots.{IsLots};
ghost use Rattle.ra_words.specs.Words.{texts};
ghost use Rattle.ra_words.specs.Numbers.{is_number, decimal_worth};
ghost use Rattle.ra_words.specs.LotTexts.{pieces, is_written, written_pieces, is_written_lot, is_seed_lot, is_lot, seed_text, budget_text, source_says, budget_says, lot_says, are_lots};
ghost use Rattle.ra_words.specs.Said.{said_source, said_lot};

use crate::numbers::{is_number, number};
use crate::pieces::{count_numbers, first_place, put_numbers, text_from};
use crate::words::{str_at, text_at};
use ra_base::{Fixed, NoMemory};
use ra_draws::{Lot, Source};
use std::alloc::Global;

/// How many lots a run may have, one for each worker.
pub(crate) const MOST_LOTS: usize = 16;

/// How many proposals the lots of a run may have together.
pub(crate) const MOST_PROPOSALS: u64 = 1_000_000;

/// Whether the words from a place on are the lots of a run.
#[tactic(auto, unfolding(crate::specs::LotTexts::are_lots))]
pub(crate) fn are_lots(words: &[String], place: usize) -> bool
    ensures { result ≡ are_lots (drop place (texts words.now)) }
{
    place < words.len() && words.len() - place <= MOST_LOTS && fit_together(words, place)
}

/// Whether the words from a place on are lots whose budgets together aren't too large.
fn fit_together(words: &[String], place: usize) -> bool
    requires { place ≤ length words.now }
    ensures { result ≡ (list_all is_lot (drop place (texts words.now)) && nat_le
        (sum_by budget_says (drop place (texts words.now))) 1000000) }
{
    let mut left = MOST_PROPOSALS;
    for k in place..words.len() {
        match budget(text_at(words, k).as_bytes()) {
            Some(budget) if budget <= left => left -= budget,
            _ => return false,
        }
    }
    true
}

/// How many proposals a lot makes. `None` if the word is not a lot.
#[tactic(auto, unfolding(crate::specs::LotTexts::is_lot, crate::specs::LotTexts::budget_says))]
fn budget(word: &[u8]) -> Option<u64>
    ensures { result ≡ (if is_lot word.now then Some (budget_says word.now) else None) }
{
    if is_written(word) {
        written_budget(word)
    } else {
        seed_budget(word)
    }
}

/// Whether a lot's words are written out, after `w:`.
#[tactic(auto, unfolding(crate::specs::LotTexts::is_written))]
fn is_written(word: &[u8]) -> bool
    ensures value { result ≡ is_written word.now }
    ensures long { result ≡ true → 2 ≤ length word.now }
{
    word.len() >= 2 && word[0] == b'w' && word[1] == b':'
}

/// For how many proposals there are words after `w:`. `None` if they are not a lot.
#[tactic(auto, unfolding(crate::specs::LotTexts::is_written_lot, crate::specs::LotTexts::written_pieces))]
fn written_budget(word: &[u8]) -> Option<u64>
    requires { 2 ≤ length word.now }
    ensures { result ≡ (if is_written_lot word.now then Some
        (length (written_pieces word.now) / 8) else None) }
{
    match count_numbers(text_from(word, 2)) {
        Some(count) if count % 8 == 0 => Some(count as u64 / 8),
        _ => None,
    }
}

/// The number of proposals after a seed and a colon. `None` if the text is not such a lot.
#[tactic(auto, using(crate::proofs::LotLaws::no_colon, crate::proofs::LotLaws::behind_colon), unfolding(crate::specs::LotTexts::is_seed_lot, crate::specs::LotTexts::seed_text, crate::specs::LotTexts::budget_text))]
fn seed_budget(word: &[u8]) -> Option<u64>
    ensures { result ≡ (if is_seed_lot word.now then Some
        (decimal_worth (budget_text word.now)) else None) }
{
    let colon = first_place(word, b':');
    if colon == word.len() || !is_number(&word[..colon]) {
        return None;
    }
    budget_of(text_from(word, colon + 1))
}

/// The number of proposals that a text gives. `None` if it is not a number, or too large.
fn budget_of(text: &[u8]) -> Option<u64>
    ensures { result ≡ (if is_number text.now && nat_le (decimal_worth text.now) 1000000 then Some
        (decimal_worth text.now) else None) }
{
    if is_number(text) && number(text) <= MOST_PROPOSALS {
        Some(number(text))
    } else {
        None
    }
}

/// The lots in the words from a place on.
pub(crate) fn read_lots(alloc: Global, words: &[&str], place: usize) -> Result<Vec<Lot>, NoMemory>
    requires { are_lots (drop place (map (λ word. word.now) words.now)) ≡ true }
    ensures said { IfOk result (λ lots. map said_lot lots.items ≡
        map lot_says (drop place (map (λ word. word.now) words.now))) }
    ensures fitting { IfOk result (λ lots. IsLots lots.items) }
{
    let mut lots = Vec::new(alloc);
    for k in place..words.len() {
        lots.push(read_lot(alloc, str_at(words, k).as_bytes())?)?;
    }
    Ok(lots)
}

/// The lot in a word.
#[tactic(auto, unfolding(crate::specs::LotTexts::lot_says))]
fn read_lot(alloc: Global, word: &[u8]) -> Result<Lot, NoMemory>
    requires { is_lot word.now ≡ true }
    ensures { IfOk result (λ lot. said_lot lot ≡ lot_says word.now) }
{
    let budget = budget(word).unwrap_or(0);
    let source = read_source(alloc, word)?;
    Ok(Lot { source, budget })
}

/// Where the words of a lot come from.
#[tactic(auto, unfolding(crate::specs::LotTexts::is_lot, crate::specs::LotTexts::is_seed_lot, crate::specs::LotTexts::seed_text, crate::specs::LotTexts::source_says))]
fn read_source(alloc: Global, word: &[u8]) -> Result<Source, NoMemory>
    requires { is_lot word.now ≡ true }
    ensures { IfOk result (λ source. said_source source ≡ source_says word.now) }
{
    if is_written(word) {
        return Ok(Source::Written(written_words(alloc, word)?));
    }
    let colon = first_place(word, b':');
    Ok(Source::Seed(number(&word[..colon])))
}

/// The words after `w:`.
#[tactic(auto, unfolding(crate::specs::LotTexts::is_written_lot, crate::specs::LotTexts::written_pieces))]
fn written_words(alloc: Global, word: &[u8]) -> Result<Fixed<u64>, NoMemory>
    requires long { 2 ≤ length word.now }
    requires lot { is_written_lot word.now ≡ true }
    ensures { IfOk result (λ list. list.items ≡ map decimal_worth (written_pieces word.now)) }
{
    let text = text_from(word, 2);
    let count = count_numbers(text).unwrap_or(0);
    let mut list = Fixed::make(alloc, count)?;
    put_numbers(text, &mut list);
    Ok(list)
}
