use super::starts::{demand, start_of};
use super::verdicts::{done, refused};
use plain::first_illegal;
use ra_base::{Cause, Machine, Process, Resource};
use ra_draws::Lots;
use ra_journal::Entry;
use ra_moves::{Move, Step, Verdict};
use std::alloc::Global;
use std::process::Abort;
use test_samples::{one_lot, sample, two_lots};

/// Three proposals to shift process 1: to one of the machines 2, 1, 0 and 3, to 3, and to 2.
const THREE: [u64; 24] = [
    0, 1, 2, 1, 0, 3, 0, 0, 0, 1, 3, 3, 3, 3, 0, 0, 0, 1, 2, 2, 2, 2, 0, 0,
];

/// A proposal to shift process 1 to one of the machines 2, 1, 0 and 3.
const AWAY: [u64; 8] = [0, 1, 2, 1, 0, 3, 0, 0];

/// Demands this answer for a journal on the sample instance, from the start `0 3 0`, which costs 4200.
fn tells(rt: &impl Abort, alloc: Global, lots: &Lots, entries: &[Entry], want: Option<usize>) {
    let inst = sample(alloc).expect(rt, "no instance");
    let a0 = start_of(rt, alloc, &inst, &[0, 3, 0]);
    let found = first_illegal(alloc, &inst, &a0, lots, entries).expect(rt, "no memory");
    demand(rt, found == want);
}

/// Demands this answer for a journal of the one worker with three proposals.
fn tells_of_three(
    rt: &impl Abort,
    alloc: Global,
    slack: u64,
    entries: &[Entry],
    want: Option<usize>,
) {
    let lots = one_lot(alloc, slack, 3, &THREE).expect(rt, "no memory");
    tells(rt, alloc, &lots, entries, want);
}

/// Demands this answer for a journal of two workers with one proposal each.
fn tells_of_two(
    rt: &impl Abort,
    alloc: Global,
    words: &[[u64; 8]; 2],
    entries: &[Entry],
    want: Option<usize>,
) {
    let lots = two_lots(alloc, 0, 1, &words[0], &words[1]).expect(rt, "no memory");
    tells(rt, alloc, &lots, entries, want);
}

fn shift(process: u32, from: u32, to: u32) -> Move {
    Move::shift(Step {
        process: Process(process),
        from: Machine(from),
        to: Machine(to),
    })
}

fn same(process: u32) -> Verdict {
    refused(Cause::Same {
        process: Process(process),
    })
}

fn capacity(machine: u32, resource: u32, used: u64, cap: u32) -> Verdict {
    refused(Cause::Capacity {
        machine: Machine(machine),
        resource: Resource(resource),
        used,
        cap,
    })
}

/// An entry of worker 0.
fn own(k: u64, q: u64, mv: Move, verdict: Verdict) -> Entry {
    Entry {
        worker: 0,
        k,
        q,
        mv,
        verdict,
    }
}

/// The first entry of worker 1.
fn other(q: u64, mv: Move, verdict: Verdict) -> Entry {
    Entry {
        worker: 1,
        k: 0,
        q,
        mv,
        verdict,
    }
}

/// The entry in which process 1 goes to 2, from the start.
fn start() -> Entry {
    own(0, 0, shift(1, 3, 2), done(3510))
}

/// The entry in which it goes back.
fn back() -> Entry {
    own(1, 1, shift(1, 2, 3), done(4200))
}

/// The entry in which it would go back, but the cost rises by 690, and 689 are allowed.
fn not_back() -> Entry {
    own(
        1,
        1,
        shift(1, 2, 3),
        refused(Cause::Rise {
            before: 3510,
            after: 4200,
            allowed: 689,
        }),
    )
}

#[test]
fn legal_journals(rt: HostRuntime) {
    let alloc = rt.alloc();
    tells_of_three(&rt, alloc, 2070, &[], None);
    let again = own(2, 2, shift(1, 3, 2), done(3510));
    tells_of_three(&rt, alloc, 2070, &[start(), back(), again], None);
    let stays = own(2, 2, shift(1, 2, 2), same(1));
    tells_of_three(&rt, alloc, 2069, &[start(), not_back(), stays], None);
}

#[test]
fn numbers_of_proposals(rt: HostRuntime) {
    let alloc = rt.alloc();
    let skips = own(2, 1, shift(1, 2, 2), same(1));
    tells_of_three(&rt, alloc, 2070, &[start(), skips], Some(1));
    tells_of_three(&rt, alloc, 2070, &[back()], Some(0));
    let nobody = other(0, shift(1, 3, 2), done(3510));
    tells_of_three(&rt, alloc, 2070, &[nobody], Some(0));
    let fourth = own(3, 3, shift(1, 2, 2), same(1));
    let again = own(2, 2, shift(1, 3, 2), done(3510));
    tells_of_three(&rt, alloc, 2070, &[start(), back(), again, fourth], Some(3));
}

#[test]
fn places_of_planning(rt: HostRuntime) {
    let alloc = rt.alloc();
    let later = own(1, 2, shift(1, 2, 3), done(4200));
    tells_of_three(&rt, alloc, 2070, &[start(), later], Some(1));
    let earlier = own(1, 0, shift(1, 3, 3), same(1));
    tells_of_three(&rt, alloc, 2070, &[start(), earlier], Some(1));
    // The entry before it was refused, so nothing else is wrong.
    let unseen = own(2, 1, shift(1, 2, 2), same(1));
    tells_of_three(&rt, alloc, 2069, &[start(), not_back(), unseen], Some(2));
}

#[test]
fn other_moves_and_verdicts(rt: HostRuntime) {
    let alloc = rt.alloc();
    let stays = own(0, 0, shift(1, 3, 3), same(1));
    tells_of_three(&rt, alloc, 2070, &[stays], Some(0));
    let dearer = own(0, 0, shift(1, 3, 2), done(3511));
    tells_of_three(&rt, alloc, 2070, &[dearer], Some(0));
    tells_of_three(&rt, alloc, 2070, &[start(), not_back()], Some(1));
}

// Process 1 is on machine 2 when process 2 comes there.
#[test]
fn a_machine_that_was_touched(rt: HostRuntime) {
    let alloc = rt.alloc();
    let words = [AWAY, [0, 2, 2, 2, 2, 2, 0, 0]];
    let unseen = other(0, shift(2, 0, 2), capacity(2, 0, 16, 15));
    tells_of_two(&rt, alloc, &words, &[start(), unseen], Some(1));
    let seen = other(1, shift(2, 0, 2), capacity(2, 0, 16, 15));
    tells_of_two(&rt, alloc, &words, &[start(), seen], None);
    // At the start the second resource is too small.
    let old = other(1, shift(2, 0, 2), capacity(2, 1, 200, 100));
    tells_of_two(&rt, alloc, &words, &[start(), old], Some(1));
}

// Process 2 goes from 0 to 1, and depends on the service of process 1, which went from 3 to 2.
#[test]
fn a_service_that_was_touched(rt: HostRuntime) {
    let alloc = rt.alloc();
    let words = [AWAY, [0, 2, 1, 1, 1, 1, 0, 0]];
    let unseen = other(0, shift(2, 0, 1), done(2411));
    tells_of_two(&rt, alloc, &words, &[start(), unseen], Some(1));
    let seen = other(1, shift(2, 0, 1), done(2411));
    tells_of_two(&rt, alloc, &words, &[start(), seen], None);
}

#[test]
fn a_refused_move_touches_nothing(rt: HostRuntime) {
    let alloc = rt.alloc();
    let words = [[0, 1, 3, 3, 3, 3, 0, 0], [0, 2, 1, 1, 1, 1, 0, 0]];
    let stays = own(0, 0, shift(1, 3, 3), same(1));
    let unseen = other(0, shift(2, 0, 1), done(3111));
    tells_of_two(&rt, alloc, &words, &[stays, unseen], None);
}
