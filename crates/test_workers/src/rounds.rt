ghost use Rattle.std.specs.Prelude.{◌≡◌, ℕ, ◌+◌, ◌<◌, ◌≤◌, length};
ghost use Rattle.ra_journal.specs.Entries.{worker_count, budget};
ghost use Rattle.ra_journal.specs.Legal.{Whole};
ghost use Rattle.ra_worker.specs.Turns.{StandsInJournal, StandIn, turn_in};
ghost use Rattle.test_workers.specs.Rounds.{HaveAllMade, PlaysOn};

use ra_draws::Lots;
use ra_journal::{Batch, Journal};
use ra_worker::{Replica, catch_up, hand_in};
use std::marker::Brand;
use std::sync::ledger::Blank;

/// Plays the workers in turn until the journal is whole: in each round each worker catches up with the journal and
/// hands in one proposal. The entries that were there stay, since all that happens is turns of the workers.
pub fn round_robin<'a>(
    journal: &mut Journal<'a>,
    replicas: &mut Vec<Replica<'a>>,
    batch: &mut Batch,
)
    requires at { StandIn journal.old replicas.old.items }
    ensures whole { Whole journal.old.lots journal.new.entries }
    ensures played { PlaysOn journal.old journal.new replicas.old.items replicas.new.items }
{
    let rounds = longest(journal.lots());
    for _round in 0..rounds {
        play_round(journal, replicas, batch);
    }
}

/// The greatest budget.
fn longest(lots: &Lots) -> u64
    ensures { (w : ℕ) → w < worker_count lots.now → budget lots.now w ≤ result }
{
    let mut longest = 0;
    for w in 0..lots.len() {
        longest = larger(longest, lots.lot(w).budget);
    }
    longest
}

/// The larger of two numbers.
fn larger(a: u64, b: u64) -> u64
    ensures first { a ≤ result }
    ensures second { b ≤ result }
{
    if a < b { b } else { a }
}

/// Plays each worker once. Each makes one more proposal, unless it has used its budget.
fn play_round<'a>(journal: &mut Journal<'a>, replicas: &mut Vec<Replica<'a>>, batch: &mut Batch)
    requires at { StandIn journal.old replicas.old.items }
    ensures made { (r : ℕ) → HaveAllMade journal.old r → HaveAllMade journal.new (r + 1) }
    ensures played { PlaysOn journal.old journal.new replicas.old.items replicas.new.items }
{
    for w in 0..journal.lots().len() {
        take_turn(journal, replicas, batch, w);
    }
}

/// A worker catches up with the journal and hands in its next proposal, unless it has used its budget.
fn take_turn<'a>(
    journal: &mut Journal<'a>,
    replicas: &mut Vec<Replica<'a>>,
    batch: &mut Batch,
    w: u32,
)
    requires at { StandIn journal.old replicas.old.items }
    requires exists { w < worker_count journal.old.lots }
    ensures journal { journal.new.entries ≡
        (turn_in journal.old w (length journal.old.entries)).journal }
    ensures played { PlaysOn journal.old journal.new replicas.old.items replicas.new.items }
{
    let replica = &mut replicas[w as usize];
    catch_up_whole(journal, replica, batch);
    let _reply = hand_in::<Brand>(journal, replica, Blank::new(1));
}

/// A replica takes in all entries that are new to it.
fn catch_up_whole<'a>(journal: &Journal<'a>, replica: &mut Replica<'a>, batch: &mut Batch)
    requires at { StandsInJournal journal.now replica.old }
    ensures place { replica.new.place ≡ length journal.now.entries }
    ensures worker { replica.new.worker ≡ replica.old.worker }
    ensures at { StandsInJournal journal.now replica.new }
{
    let length = journal.len();
    let mut place = replica.place();
    while place < length {
        place += catch_up::<Brand>(journal, replica, batch, Blank::new(1));
    }
}
