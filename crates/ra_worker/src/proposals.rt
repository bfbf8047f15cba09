ghost use Rattle.std.specs.Prelude.{◌≡◌, ℕ, ◌+◌, ◌<◌, ◌≤◌, [], slice_index_or};
ghost use Rattle.ra_draws.specs.Words.{proposal_words};
ghost use Rattle.ra_journal.specs.Entries.{worker_count, budget, words};
ghost use Rattle.ra_worker.specs.Proposals.{AreDrawn};

use ra_draws::{Draws, Lot, Lots};

/// The proposals of a worker: the number of the next one, and the words of the next 64.
#[derive(Drop)]
pub(crate) struct Proposals<'a> {
    pub(crate) lots: &'a Lots,
    pub(crate) worker: u32,
    draws: Draws<'a>,
    pub(crate) number: u64,
    ring: [[u64; 8]; 64],
    pub ghost drawn: { AreDrawn lots.now worker draws number ring },
}

impl<'a> Proposals<'a> {
    /// All proposals of a worker.
    pub(crate) fn make(lots: &'a Lots, worker: u32) -> Proposals<'a>
        requires { worker < worker_count lots.now }
        ensures lots { result.lots.now ≡ lots.now }
        ensures worker { result.worker ≡ worker }
        ensures number { result.number ≡ 0 }
    {
        let lot = lots.lot(worker);
        let mut draws = Draws::make(lot);
        let ring = draw_first(&mut draws, lot);
        Proposals {
            lots,
            worker,
            draws,
            number: 0,
            ring,
        }
    }

    /// Goes on to the next proposal.
    pub(crate) fn advance(&mut self)
        requires { self.old.number < budget self.old.lots.now self.old.worker }
        ensures lots { self.new.lots.now ≡ self.old.lots.now }
        ensures worker { self.new.worker ≡ self.old.worker }
        ensures number { self.new.number ≡ self.old.number + 1 }
    {
        let _fits = self.budget();
        let lot = self.lots.lot(self.worker);
        let words = draw(&mut self.draws, lot, self.number + 64);
        self.ring[(self.number % 64) as usize] = words;
        self.number += 1;
    }

    /// The words of one of the next 64 proposals.
    pub(crate) fn words(&self, number: u64) -> &[u64; 8]
        requires from { self.now.number ≤ number }
        requires near { number < self.now.number + 64 }
        requires left { number < budget self.now.lots.now self.now.worker }
        ensures { result.now ≡ words self.now.lots.now self.now.worker number }
    {
        &self.ring[(number % 64) as usize]
    }

    /// How many proposals the worker makes.
    pub(crate) fn budget(&self) -> u64
        ensures value { result ≡ budget self.now.lots.now self.now.worker }
        ensures few { result ≤ 1000000 }
        ensures within { self.now.number ≤ result }
    {
        self.lots.lot(self.worker).budget
    }
}

/// The words of the first 64 proposals, or of fewer if the budget is smaller.
fn draw_first(draws: &mut Draws<'_>, lot: &Lot) -> [[u64; 8]; 64]
    requires lot { draws.old.lot ≡ lot.now }
    requires made { draws.old.made ≡ 0 }
    ensures lot { draws.new.lot ≡ draws.old.lot }
    ensures made { 63 < lot.now.budget → draws.new.made ≡ 64 }
    ensures words { (n : ℕ) → n < 64 → n < lot.now.budget
        → slice_index_or result n [] ≡ proposal_words lot.now.source n }
{
    let mut ring = [[0; 8]; 64];
    for number in 0..64 {
        let words = draw(draws, lot, number);
        ring[number as usize] = words;
    }
    ring
}

/// The words of a proposal, if the budget includes it; the words before it are drawn already.
fn draw(draws: &mut Draws<'_>, lot: &Lot, number: u64) -> [u64; 8]
    requires lot { draws.old.lot ≡ lot.now }
    requires drawn { number < lot.now.budget → draws.old.made ≡ number }
    ensures lot { draws.new.lot ≡ draws.old.lot }
    ensures drawn { number < lot.now.budget → draws.new.made ≡ number + 1 }
    ensures words { number < lot.now.budget → result ≡ proposal_words lot.now.source number }
{
    if number < lot.budget {
        draws.words_for_next()
    } else {
        [0; 8]
    }
}
