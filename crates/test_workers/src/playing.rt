ghost use Rattle.std.specs.Prelude.{◌≡◌, ◌+◌, ◌<◌, ◌≤◌, ◌++◌, true, length};
ghost use Rattle.ra_journal.specs.Entries.{worker_count};
ghost use Rattle.ra_journal.specs.Journals.{IsOverSame};
ghost use Rattle.ra_worker.specs.Core.{AreNamed, event_at, worker_of_event};
ghost use Rattle.ra_worker.specs.Turns.{StandIn, core_in};
ghost use Rattle.test_workers.specs.Plays.{step_in, run_in};

use ra_base::Fixed;
use ra_draws::Lots;
use ra_journal::{Batch, Journal};
use ra_worker::{CoreEvent, CoreReply, Replica, catch_up, hand_in};
use std::marker::Brand;
use std::sync::ledger::{Blank, Ledger};

/// Plays a list of events, and adds one reply for each. The events must name workers of the journal.
pub fn play<'a>(
    journal: &mut Journal<'a>,
    replicas: &mut Vec<Replica<'a>>,
    batch: &mut Batch,
    events: &Fixed<CoreEvent>,
    replies: &mut Fixed<CoreReply>,
)
    requires at { StandIn journal.old replicas.old.items }
    requires named { AreNamed journal.old.lots events.now.items }
    requires room { length replies.old.items + length events.now.items ≤ replies.old.room }
    ensures core { core_in journal.new replicas.new.items ≡
        (run_in journal.old replicas.old.items events.now.items).last }
    ensures replies { replies.new.items ≡ replies.old.items ++
        (run_in journal.old replicas.old.items events.now.items).replies }
    ensures room { replies.new.room ≡ replies.old.room }
    ensures at { StandIn journal.new replicas.new.items }
    ensures over { IsOverSame journal.old journal.new }
{
    for n in 0..events.len() {
        let event = event_of(events, n);
        let reply = play_event::<Brand>(journal, replicas, batch, event, Blank::new(1));
        replies.push(reply);
    }
}

/// Whether each event names a worker that has a lot.
pub fn are_named(events: &Fixed<CoreEvent>, lots: &Lots) -> bool
    ensures named { result ≡ true → AreNamed lots.now events.now.items }
    ensures only { AreNamed lots.now events.now.items → result ≡ true }
{
    for n in 0..events.len() {
        let event = event_of(events, n);
        if event.worker() >= lots.len() {
            return false;
        }
    }
    true
}

/// An event of a list.
#[tactic(auto, unfolding(ra_worker::specs::Core::event_at))]
fn event_of(events: &Fixed<CoreEvent>, n: usize) -> CoreEvent
    requires { n < length events.now.items }
    ensures { result ≡ event_at events.now.items n }
{
    events.get(n)
}

/// Plays one event.
pub(crate) fn play_event<'a, L: Ledger>(
    journal: &mut Journal<'a>,
    replicas: &mut Vec<Replica<'a>>,
    batch: &mut Batch,
    event: CoreEvent,
    blank: Blank,
) -> CoreReply
    requires name { blank.name ≡ L.name }
    requires parts { blank.parts ≡ L.parts }
    requires some { 0 < blank.parts }
    requires at { StandIn journal.old replicas.old.items }
    requires named { worker_of_event event < worker_count journal.old.lots }
    ensures step { step_in journal.old replicas.old.items event ≡
        record { after = core_in journal.new replicas.new.items; reply = result } }
    ensures at { StandIn journal.new replicas.new.items }
    ensures over { IsOverSame journal.old journal.new }
{
    match event {
        CoreEvent::CatchUp { worker } => {
            let replica = &mut replicas[worker as usize];
            let count = catch_up::<L>(journal, replica, batch, blank);
            CoreReply::Took { count }
        }
        CoreEvent::Commit { worker } => {
            let replica = &replicas[worker as usize];
            hand_in::<L>(journal, replica, blank)
        }
    }
}
