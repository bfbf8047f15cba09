//! The answers to workers that take turns with the journal.
ghost use Rattle.ra_journal.specs.Journals.{opening_in};
ghost use Rattle.ra_worker.specs.AllReplicas.{AreAt};

use super::first::start_parts;
use super::passes::away;
use super::{AWAY, done, shift, stale};
use crate::{are_named, play, round_robin};
use ra_base::{Cause, Fixed, Guard, Machine, Resource};
use ra_draws::Lots;
use ra_journal::{Batch, Entry, Journal, Reply};
use ra_model::Instance;
use ra_moves::Verdict;
use ra_topology::Topology;
use ra_worker::{CoreEvent, CoreReply, Replica, make_replicas};
use std::alloc::Global;
use std::process::Abort;
use test_samples::{assignment, list, one_lot, sample, two_lots};

/// Plays these events.
fn play_all<'a>(
    rt: &impl Abort,
    alloc: Global,
    journal: &mut Journal<'a>,
    replicas: &mut Vec<Replica<'a>>,
    events: &[CoreEvent],
) -> Fixed<CoreReply>
    requires at { AreAt (opening_in journal.old) journal.old.entries
        replicas.old.items }
{
    let mut batch = Batch::make(alloc).expect(rt, "no memory");
    let mut replies = Fixed::make(alloc, events.len()).expect(rt, "no memory");
    let events = list(alloc, events).expect(rt, "no memory");
    assert!(rt; are_named(&events, journal.lots()));
    play(journal, replicas, &mut batch, &events, &mut replies);
    replies
}

/// The answers to the workers of these lots on the sample.
fn answers_on(
    rt: &impl Abort,
    alloc: Global,
    inst: &Instance,
    lots: &Lots,
    events: &[CoreEvent],
) -> Fixed<CoreReply> {
    let a0 = assignment(alloc, &[0, 3, 0]).expect(rt, "no memory");
    assert!(rt; inst.is_assignment(&a0));
    let topo = Topology::make(alloc, inst).expect(rt, "no memory");
    let start = start_parts(rt, alloc, inst, &a0);
    let mut journal = Journal::make(alloc, inst, &topo, &a0, start, lots).expect(rt, "no memory");
    let mut replicas = make_replicas(alloc, inst, &topo, &a0, start, lots).expect(rt, "no memory");
    play_all(rt, alloc, &mut journal, &mut replicas, events)
}

/// The entries of the journal that two workers with these lots make on the sample, if they are played in turn.
fn entries_of_both(rt: &impl Abort, alloc: Global, inst: &Instance, lots: &Lots) -> [Entry; 2] {
    let a0 = assignment(alloc, &[0, 3, 0]).expect(rt, "no memory");
    assert!(rt; inst.is_assignment(&a0));
    let topo = Topology::make(alloc, inst).expect(rt, "no memory");
    let start = start_parts(rt, alloc, inst, &a0);
    let mut journal = Journal::make(alloc, inst, &topo, &a0, start, lots).expect(rt, "no memory");
    let mut replicas = make_replicas(alloc, inst, &topo, &a0, start, lots).expect(rt, "no memory");
    let mut batch = Batch::make(alloc).expect(rt, "no memory");
    round_robin(&mut journal, &mut replicas, &mut batch);
    assert!(rt; journal.len() == 2);
    [journal.entry(0), journal.entry(1)]
}

fn expect_answers(rt: &impl Abort, answers: &Fixed<CoreReply>, wanted: &[CoreReply]) {
    assert_eq!(rt; answers.as_slice(), wanted);
}

fn answer(reply: Reply) -> CoreReply {
    CoreReply::Answer { reply }
}

/// The answer to worker 1 at place 1: process 2 would use 16 of resource 0 of machine 2 together with process 1, but
/// the capacity is 15.
fn over_capacity() -> Reply {
    let cause = Cause::Capacity {
        machine: Machine(2),
        resource: Resource(0),
        used: 16,
        cap: 15,
    };
    let verdict = Verdict::Refused { cause };
    Reply::Recorded { at: 1, verdict }
}

/// Worker 0 brings process 1 to machine 2, to which worker 1 has planned to bring process 2.
fn a_stale_worker_catches_up(rt: &impl Abort, alloc: Global, inst: &Instance) {
    let lots = two_lots(alloc, 0, 1, &AWAY, &shift(2, 2)).expect(rt, "no memory");
    let first = CoreEvent::Commit { worker: 0 };
    let second = CoreEvent::Commit { worker: 1 };
    let catch_up = CoreEvent::CatchUp { worker: 1 };
    let answers = answers_on(rt, alloc, inst, &lots, &[first, second, catch_up, second]);
    let wanted = [
        answer(done(0, 3510)),
        answer(stale(Guard::Machine(Machine(2)))),
        CoreReply::Took { count: 1 },
        answer(over_capacity()),
    ];
    expect_answers(rt, &answers, &wanted);
}

fn a_worker_without_budget_is_skipped(rt: &impl Abort, alloc: Global, inst: &Instance) {
    let lots = one_lot(alloc, 0, 1, &AWAY).expect(rt, "no memory");
    let catch_up = CoreEvent::CatchUp { worker: 0 };
    let commit = CoreEvent::Commit { worker: 0 };
    let answers = answers_on(rt, alloc, inst, &lots, &[catch_up, commit, commit]);
    let wanted = [
        CoreReply::Took { count: 0 },
        answer(done(0, 3510)),
        CoreReply::Skipped,
    ];
    expect_answers(rt, &answers, &wanted);
}

/// Worker 0 brings process 1 to machine 2. Worker 1 plans after this entry, so its plan isn't stale.
fn workers_in_turn_make_a_whole_journal(rt: &impl Abort, alloc: Global, inst: &Instance) {
    let lots = two_lots(alloc, 0, 1, &AWAY, &shift(2, 2)).expect(rt, "no memory");
    let [first, second] = entries_of_both(rt, alloc, inst, &lots);
    assert_eq!(rt; first, away());
    assert_eq!(rt; [u64::from(second.worker), second.k, second.q], [1, 0, 1]);
    let reply = Reply::Recorded {
        at: 1,
        verdict: second.verdict,
    };
    assert_eq!(rt; reply, over_capacity());
}

#[test]
fn turns_on_the_sample(rt: HostRuntime) {
    let inst = sample(rt.alloc()).expect(&rt, "no instance");
    a_stale_worker_catches_up(&rt, rt.alloc(), &inst);
    a_worker_without_budget_is_skipped(&rt, rt.alloc(), &inst);
    workers_in_turn_make_a_whole_journal(&rt, rt.alloc(), &inst);
    drop(inst);
}
