ghost use Rattle.std.specs.Prelude.{◌≡◌, ◌+◌, ◌-◌, ◌<◌, ◌≤◌, min, false, length, slice_set};
ghost use Rattle.ra_journal.specs.Entries.{worker_count};
ghost use Rattle.ra_worker.specs.Skipping.{is_skipped};
ghost use Rattle.ra_worker.specs.Core.{core_place_of};
ghost use Rattle.ra_worker.specs.Turns.{StandsInJournal, StandIn, core_in, TakesTurn};

use crate::Replica;
use crate::events::CoreReply;
use ra_base::Steps;
use ra_journal::{Batch, Journal};
use std::marker::Brand;
use std::sync::ledger::{Blank, Ledger};

/// A worker takes in the entries up to a place of the journal, plans its next proposal there and hands it in, unless it
/// has used its budget or has an entry at that place or after it. The place is not before the worker's present one.
pub fn take_turn_at<'a>(
    journal: &mut Journal<'a>,
    replicas: &mut Vec<Replica<'a>>,
    worker: u32,
    q: u64,
) -> CoreReply
    requires at { StandIn journal.old replicas.old.items }
    requires exists { worker < worker_count journal.old.lots }
    requires ahead { core_place_of (core_in journal.old replicas.old.items) worker ≤ q }
    requires within { q ≤ length journal.old.entries }
    ensures turn { TakesTurn journal.old journal.new worker q result }
    ensures places { (core_in journal.new replicas.new.items).places ≡
        slice_set (core_in journal.old replicas.old.items).places worker q }
    ensures at { StandIn journal.new replicas.new.items }
{
    let replica = &mut replicas[worker as usize];
    follow_to::<Brand>(journal, replica, q, Blank::new(1));
    hand_in::<Brand>(journal, replica, Blank::new(1))
}

/// A replica takes in the entries up to a place of the journal, which is not before its own.
fn follow_to<'a, L: Ledger>(
    journal: &Journal<'a>,
    replica: &mut Replica<'a>,
    place: u64,
    blank: Blank,
)
    requires name { blank.name ≡ L.name }
    requires parts { blank.parts ≡ L.parts }
    requires some { 0 < blank.parts }
    requires at { StandsInJournal journal.now replica.old }
    requires ahead { replica.old.place ≤ place }
    requires within { place ≤ length journal.now.entries }
    ensures place { replica.new.place ≡ place }
    ensures worker { replica.new.worker ≡ replica.old.worker }
    ensures at { StandsInJournal journal.now replica.new }
{
    let mut steps = Steps::<L>::make(blank);
    for at in replica.place()..place {
        let entry = journal.entry(at);
        replica.take_entry(&entry, &mut steps);
    }
}

/// A replica takes in the entries that are new to it, at most 1,024 of them. Gives their number.
pub fn catch_up<'a, L: Ledger>(
    journal: &Journal<'a>,
    replica: &mut Replica<'a>,
    batch: &mut Batch,
    blank: Blank,
) -> u64
    requires name { blank.name ≡ L.name }
    requires parts { blank.parts ≡ L.parts }
    requires some { 0 < blank.parts }
    requires at { StandsInJournal journal.now replica.old }
    ensures count { result ≡ min 1024 (length journal.now.entries - replica.old.place) }
    ensures place { replica.new.place ≡ replica.old.place + result }
    ensures worker { replica.new.worker ≡ replica.old.worker }
    ensures at { StandsInJournal journal.now replica.new }
{
    let mut steps = Steps::<L>::make(blank);
    let place = replica.place();
    let count = journal.copy_from(place, batch);
    replica.take_in(batch, &mut steps);
    count
}

/// A worker plans its next proposal and hands it in, unless it has used its budget or has not taken in all of its own
/// entries.
pub fn hand_in<'a, L: Ledger>(
    journal: &mut Journal<'a>,
    replica: &Replica<'a>,
    blank: Blank,
) -> CoreReply
    requires name { blank.name ≡ L.name }
    requires parts { blank.parts ≡ L.parts }
    requires some { 0 < blank.parts }
    requires at { StandsInJournal journal.old replica.now }
    ensures { TakesTurn journal.old journal.new replica.now.worker replica.now.place
        result }
{
    if skipped(journal, replica) {
        CoreReply::Skipped
    } else {
        commit_next::<L>(journal, replica, blank)
    }
}

/// Whether a worker has used its budget or has not taken in all of its own entries.
fn skipped(journal: &Journal<'_>, replica: &Replica<'_>) -> bool
    requires at { StandsInJournal journal.now replica.now }
    ensures { result ≡ is_skipped journal.now.lots journal.now.entries
        replica.now.worker replica.now.place }
{
    let made = journal.made_by(replica.worker());
    let budget = replica.budget();
    let next = replica.next();
    budget <= made || next < made
}

/// A worker that is not skipped plans its next proposal and hands it in.
fn commit_next<'a, L: Ledger>(
    journal: &mut Journal<'a>,
    replica: &Replica<'a>,
    blank: Blank,
) -> CoreReply
    requires name { blank.name ≡ L.name }
    requires parts { blank.parts ≡ L.parts }
    requires some { 0 < blank.parts }
    requires at { StandsInJournal journal.old replica.now }
    requires not_skipped { is_skipped journal.old.lots journal.old.entries
        replica.now.worker replica.now.place ≡ false }
    ensures { TakesTurn journal.old journal.new replica.now.worker replica.now.place
        result }
{
    let mut steps = Steps::<L>::make(blank);
    let plan = replica.offer(&mut steps);
    let reply = journal.commit(replica.worker(), &plan);
    CoreReply::Answer { reply }
}
