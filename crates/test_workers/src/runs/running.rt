//! Runs of the lots of command words.
ghost use Rattle.std.specs.Prelude.{◌≡◌, None};
ghost use Rattle.ra_model.specs.Assignments.{IsAssignment};
ghost use Rattle.ra_model.specs.Broken.{first_broken};
ghost use Rattle.ra_model.specs.Costs.{parts_of};

use plain::first_illegal;
use ra_base::{Assignment, Fixed, NoMemory, Parts};
use ra_check::{Scratch, first_broken, parts};
use ra_draws::Lots;
use ra_io::Gate;
use ra_journal::{Entry, Journal};
use ra_model::Instance;
use ra_topology::Topology;
use ra_words::{Job, read_words};
use ra_worker::{Prepared, Solved};
use std::alloc::Global;
use std::marker::Sync;
use std::process::Abort;
use std::sync::Wait;
use std::thread::Threads;
use test_samples::{assignment, strings};

/// What a run made.
#[derive(Drop)]
pub(super) struct Made {
    /// The entries of its journal.
    pub(super) entries: Fixed<Entry>,
    /// The first place of least cost.
    pub(super) best_at: u64,
    /// The cost there.
    pub(super) total: u128,
    /// Whether the plain test accepts the journal.
    pub(super) legal: bool,
}

/// The lots of a run's words.
pub(super) fn lots_of(alloc: Global, words: &[String]) -> Option<Lots> {
    match read_words(alloc, words) {
        Ok(Job::Solve { lots, .. }) => Some(lots),
        _ => None,
    }
}

/// The parts of a start, which breaks nothing.
pub(super) fn start_parts(rt: &impl Abort, alloc: Global, inst: &Instance, a0: &Assignment) -> Parts
    requires { IsAssignment inst.now.tables a0.now.items }
    ensures parts { result ≡ parts_of inst.now.tables a0.now.items a0.now.items }
    ensures unbroken { first_broken inst.now.tables a0.now.items a0.now.items ≡ None }
{
    let mut scratch = Scratch::make(alloc, inst).expect(rt, "no memory");
    let broken = first_broken(inst, a0, a0, &mut scratch);
    assert!(rt; broken.is_none());
    parts(inst, a0, a0, &mut scratch)
}

/// The entries of a journal.
pub(super) fn entries_of(alloc: Global, journal: &Journal<'_>) -> Result<Fixed<Entry>, NoMemory> {
    let mut entries = Fixed::make(alloc, journal.len() as usize)?;
    for at in 0..journal.len() {
        if entries.len() < entries.room() {
            entries.push(journal.entry(at));
        }
    }
    Ok(entries)
}

/// What the tests keep of a run that has ended.
fn tell(
    rt: &impl Abort,
    alloc: Global,
    inst: &Instance,
    a0: &Assignment,
    lots: &Lots,
    run: &Solved<'_>,
) -> Made
    requires { IsAssignment inst.now.tables a0.now.items }
{
    let journal = run.journal();
    let entries = entries_of(alloc, journal).expect(rt, "no memory");
    let illegal = first_illegal(alloc, inst, a0, lots, entries.as_slice()).expect(rt, "no memory");
    Made {
        entries,
        best_at: journal.best_at(),
        total: run.parts().total,
        legal: illegal.is_none(),
    }
}

/// Runs lots from an assignment.
fn run_lots<R: Abort + Threads + Wait + Sync, G: Gate>(
    rt: &R,
    alloc: Global,
    inst: &Instance,
    a0: &Assignment,
    lots: &Lots,
    gate: &G,
) -> Made {
    assert!(rt; inst.is_assignment(a0));
    let start = start_parts(rt, alloc, inst, a0);
    let topo = Topology::make(alloc, inst).expect(rt, "no memory");
    let prepared = Prepared::make(alloc, inst, &topo, a0, start, lots).expect(rt, "no memory");
    let run = prepared.solve(rt, gate);
    let made = tell(rt, alloc, inst, a0, lots, &run);
    drop(run);
    drop(topo);
    made
}

/// Runs the lots of command words, from the assignment to these machines.
pub(super) fn run_words<R: Abort + Threads + Wait + Sync, G: Gate>(
    rt: &R,
    alloc: Global,
    inst: &Instance,
    start: &[u32],
    words: &[&str],
    gate: &G,
) -> Made {
    let words = strings(alloc, words).expect(rt, "no memory");
    let lots = lots_of(alloc, words.as_slice()).expect(rt, "no lots");
    let a0 = assignment(alloc, start).expect(rt, "no memory");
    run_lots(rt, alloc, inst, &a0, &lots, gate)
}
