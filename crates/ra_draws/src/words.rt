ghost use Rattle.std.specs.Prelude.{◌≡◌, ◌+◌, ◌*◌, ◌<◌, ◌≤◌, length, slice_index};
ghost use Rattle.ra_draws.specs.Lots.{IsFitting};
ghost use Rattle.ra_draws.specs.Words.{after_words, stream_word, eight_from, proposal_words};

use crate::sources::{Lot, Source};
use ra_base::Fixed;
use rand_core::{Rng, SeedableRng};
use rand_xoshiro::Xoshiro256PlusPlus;
use std::marker::Model;

/// What the next words are read from.
#[derive(Drop)]
enum Reader<'a> {
    Generator(Xoshiro256PlusPlus),
    List(&'a Fixed<u64>),
}

/// The words of a lot's proposals, one proposal after another. Contracts see the lot and how many proposals were
/// handed out.
#[derive(Drop)]
pub struct Draws<'a> {
    lot: &'a Lot,
    reader: Reader<'a>,
    made: u64,
}

impl<'a> Model for Draws<'a> {
    ghost use Rattle.std.specs.Prelude.{◌≡◌, ◌*◌, ◌≤◌, length, slice_index};
    ghost use Rattle.ra_draws.specs.Drawn.{Drawn};

    ghost Value = { Drawn };

    ghost use Rattle.ra_draws.specs.Readers.{ReadsFrom};

    ghost view = { λ d. record { lot = d.lot.now; made = d.made } };

    ghost invariant = { λ d. (d.made ≤ d.lot.now.budget) × ReadsFrom d.reader d.lot.now d.made };
}

impl<'a> Draws<'a> {
    /// The words of a lot, from its first proposal on.
    pub fn make(lot: &'a Lot) -> Draws<'a>
        requires { IsFitting lot.now }
        ensures lot { result.lot ≡ lot.now }
        ensures made { result.made ≡ 0 }
    {
        let reader = match &lot.source {
            Source::Seed(seed) => Reader::Generator(Xoshiro256PlusPlus::seed_from_u64(*seed)),
            Source::Written(words) => Reader::List(words),
        };
        Draws {
            lot,
            reader,
            made: 0,
        }
    }

    /// The eight words of the next proposal.
    pub fn words_for_next(&mut self) -> [u64; 8]
        requires { self.old.made < self.old.lot.budget }
        ensures words { result ≡ proposal_words self.old.lot.source self.old.made }
        ensures made { self.new ≡ record self.old { made = self.old.made + 1 } }
    {
        let _fits = self.lot.budget;
        let words = match &mut self.reader {
            Reader::Generator(generator) => words_of(generator),
            Reader::List(list) => words_at(list, self.made),
        };
        self.made += 1;
        words
    }
}

/// The next eight words of a generator.
#[tactic(auto, unfolding(crate::specs::Words::eight_from, crate::specs::Words::stream_word, crate::specs::Words::after_words))]
fn words_of<R: Rng>(rng: &mut R) -> [u64; 8]
    ensures words { result ≡ eight_from (stream_word (R.stream rng.old)) 0 }
    ensures left { R.stream rng.new ≡ after_words 8 (R.stream rng.old) }
{
    [
        rng.next_u64(),
        rng.next_u64(),
        rng.next_u64(),
        rng.next_u64(),
        rng.next_u64(),
        rng.next_u64(),
        rng.next_u64(),
        rng.next_u64(),
    ]
}

/// The eight words of proposal `k` of a written list.
#[tactic(auto, unfolding(crate::specs::Words::eight_from))]
fn words_at(list: &Fixed<u64>, k: u64) -> [u64; 8]
    requires { 8 * k + 8 ≤ length list.now.items }
    ensures { result ≡ eight_from (slice_index list.now.items) (8 * k) }
{
    let _fits = list.len();
    let start = 8 * k as usize;
    [
        list.get(start),
        list.get(start + 1),
        list.get(start + 2),
        list.get(start + 3),
        list.get(start + 4),
        list.get(start + 5),
        list.get(start + 6),
        list.get(start + 7),
    ]
}
