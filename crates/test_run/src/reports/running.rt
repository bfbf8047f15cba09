//! Runs of command words, and what is written of them.
ghost use Rattle.std.specs.Prelude.{◌≡◌, None};
ghost use Rattle.ra_bounds.specs.PinnedBounds.{pinned_bound_of};
ghost use Rattle.ra_model.specs.Assignments.{IsAssignment};
ghost use Rattle.ra_model.specs.Broken.{first_broken};
ghost use Rattle.ra_model.specs.Costs.{parts_of};
ghost use Rattle.ra_report.specs.JournalTexts.{best_state};

use ra_base::{Assignment, Parts};
use ra_bounds::{Bound, pinned_bound};
use ra_check::{Scratch, first_broken, parts};
use ra_draws::Lots;
use ra_io::{MemorySink, NoGate};
use ra_model::Instance;
use ra_pins::Pins;
use ra_report::{Desks, WriteFault, write_report, write_report_at, write_summary};
use ra_topology::Topology;
use ra_words::{Job, read_words};
use ra_worker::{Prepared, Solved};
use std::alloc::Global;
use std::marker::Sync;
use std::process::Abort;
use std::sync::Wait;
use std::thread::Threads;
use test_samples::{assignment, strings};

/// What is written of a run.
#[derive(Clone, Copy)]
pub(super) enum Written {
    Report,
    /// The report, written at a number of desks.
    ReportAt(u32),
    Summary,
}

/// The lots of a run's words.
fn lots_of(alloc: Global, words: &[String]) -> Option<Lots> {
    match read_words(alloc, words) {
        Ok(Job::Solve { lots, .. }) => Some(lots),
        _ => None,
    }
}

/// The parts of a start, which breaks nothing.
fn start_parts(rt: &impl Abort, alloc: Global, inst: &Instance, a0: &Assignment) -> Parts
    requires { IsAssignment inst.now.tables a0.now.items }
    ensures parts { result ≡ parts_of inst.now.tables a0.now.items a0.now.items }
    ensures unbroken { first_broken inst.now.tables a0.now.items a0.now.items ≡ None }
{
    let mut scratch = Scratch::make(alloc, inst).expect(rt, "no memory");
    let broken = first_broken(inst, a0, a0, &mut scratch);
    assert!(rt; broken.is_none());
    parts(inst, a0, a0, &mut scratch)
}

/// The bound of an instance and a start.
fn bound_from(rt: &impl Abort, alloc: Global, inst: &Instance, a0: &Assignment) -> Bound
    requires { IsAssignment inst.now.tables a0.now.items }
    ensures { result ≡ pinned_bound_of inst.now.tables a0.now.items }
{
    let pins = Pins::make(alloc, inst, a0).expect(rt, "no memory");
    pinned_bound(inst, &pins)
}

/// Writes the report of a run that has ended at a number of desks, with the bound of its instance and its start.
fn write_at<R: Abort + Threads + Sync>(
    rt: &R,
    alloc: Global,
    out: &mut MemorySink,
    number: u32,
    bound: &Bound,
    run: &Solved<'_>,
) -> Result<(), WriteFault>
    requires bound { bound.now ≡ pinned_bound_of run.now.journal.instance.tables
        run.now.journal.initial.items }
    requires best { run.now.best.items ≡ best_state run.now.journal }
{
    assert!(rt; 1 <= number && number <= 16);
    let mut desks = Desks::make(alloc, number).expect(rt, "no memory");
    write_report_at(
        rt,
        &mut desks,
        out,
        run.best(),
        &run.parts(),
        bound,
        run.journal(),
    )
}

/// Writes what is told of a run that has ended, with the bound of its instance and its start.
fn write_told<R: Abort + Threads + Sync>(
    rt: &R,
    alloc: Global,
    out: &mut MemorySink,
    told: Written,
    bound: &Bound,
    run: &Solved<'_>,
) -> Result<(), WriteFault>
    requires bound { bound.now ≡ pinned_bound_of run.now.journal.instance.tables
        run.now.journal.initial.items }
    requires best { run.now.best.items ≡ best_state run.now.journal }
{
    match told {
        Written::Report => write_report(out, run.best(), &run.parts(), bound, run.journal()),
        Written::ReportAt(number) => write_at(rt, alloc, out, number, bound, run),
        Written::Summary => write_summary(out, &run.parts(), bound, run.journal()),
    }
}

/// Runs lots from an assignment, and writes what is told.
fn write_run<R: Abort + Threads + Wait + Sync>(
    rt: &R,
    alloc: Global,
    inst: &Instance,
    a0: &Assignment,
    lots: &Lots,
    told: Written,
    out: &mut MemorySink,
) -> Result<(), WriteFault> {
    assert!(rt; inst.is_assignment(a0));
    let start = start_parts(rt, alloc, inst, a0);
    let bound = bound_from(rt, alloc, inst, a0);
    let topo = Topology::make(alloc, inst).expect(rt, "no memory");
    let prepared = Prepared::make(alloc, inst, &topo, a0, start, lots).expect(rt, "no memory");
    let run = prepared.solve(rt, &NoGate);
    let ended = write_told(rt, alloc, out, told, &bound, &run);
    drop(run);
    drop(topo);
    ended
}

/// Runs the lots of command words, from the assignment to these machines, and writes what is told.
pub(super) fn write_words<R: Abort + Threads + Wait + Sync>(
    rt: &R,
    alloc: Global,
    inst: &Instance,
    start: &[u32],
    words: &[&str],
    told: Written,
    out: &mut MemorySink,
) -> Result<(), WriteFault> {
    let words = strings(alloc, words).expect(rt, "no memory");
    let lots = lots_of(alloc, words.as_slice()).expect(rt, "no lots");
    let a0 = assignment(alloc, start).expect(rt, "no memory");
    write_run(rt, alloc, inst, &a0, &lots, told, out)
}
