ghost use Rattle.std.specs.Prelude.{◌≡◌, ◌≢◌, ◌≤◌, OnOk, OnErr, IfErr};
ghost use Rattle.std.specs.Option.{option_copied};
ghost use Rattle.ra_io.specs.Outside.{reading, writing, Took};
ghost use Rattle.ra_bounds.specs.PinnedBounds.{pinned_bound_of};
ghost use Rattle.ra_model.specs.Assignments.{IsAssignment};
ghost use Rattle.ra_journal.specs.Openings.{opening};
ghost use Rattle.ra_report.specs.JournalTexts.{best_state, text_of};
ghost use Rattle.ra_jobs.specs.Commands.{These, over};
ghost use Rattle.ra_jobs.specs.Ends.{Does, DoesOutside, Tries};
ghost use Rattle.ra_jobs.specs.Files.{names_of, IsNamed, EndsAt};
ghost use Rattle.ra_jobs.specs.Output.{output, BrokeOff};
ghost use Rattle.ra_jobs.specs.Stages.{StartReason};
ghost use Rattle.ra_run.specs.Headline.{solve_command, solving};
ghost use Rattle.ra_run.specs.Solving.{IsReported};

use crate::beginning::Beginning;
use ra_base::Name;
use ra_bounds::Bound;
use ra_check::parts;
use ra_draws::Lots;
use ra_io::{Files, Gate, Sink};
use ra_jobs::{
    File, JobFiles, Outside, Refusal, Start, Status, bound_from, finish, judge_start, read_start,
};
use ra_report::{Desks, WriteFault, write_report_at};
use ra_topology::Topology;
use ra_worker::{Prepared, Solved as Run};
use std::alloc::Global;
use std::marker::Sync;
use std::sync::Wait;
use std::thread::Threads;

/// Improves the list `initial` of a model by the proposals of one worker for each lot, and prints a report of their
/// journal. If it can't, it puts one line that says why. It takes all memory before the first proposal is made.
pub fn solve_run<'n, R: Threads + Wait + Sync, F: Files, O: Sink, E: Sink, G: Gate>(
    rt: &R,
    alloc: Global,
    model: &'n Name,
    initial: &'n Name,
    closed: Option<&'n Name>,
    lots: &Lots,
    files: &mut F,
    out: &mut O,
    err: &mut E,
    gate: &G,
) -> Status
    ensures { Does (solve_command model.now initial.now
        (option_copied closed.entry) (These lots.now))
        (reading F.Files files.old files.new) (output O.Sink out.old out.new)
        (output E.Sink err.old err.new) result }
{
    let names = JobFiles::of_solve(model, initial, closed);
    solve_job(rt, alloc, &names, lots, Outside { files, out, err }, gate)
}

/// Does what `solve_run` does, over the files of these names.
pub(crate) fn solve_job<R: Threads + Wait + Sync, F: Files, O: Sink, E: Sink, G: Gate>(
    rt: &R,
    alloc: Global,
    names: &JobFiles<'_>,
    lots: &Lots,
    outside: Outside<'_, F, O, E>,
    gate: &G,
) -> Status
    requires initial { IsNamed (names_of names.now) File.Initial }
    requires last { EndsAt (names_of names.now) File.Initial }
    ensures { DoesOutside F.Files O.Sink E.Sink
        (over (solving (names_of names.now) (These lots.now))) outside.entry outside.exit result }
{
    let Outside { files, out, err } = outside;
    let ended = solve(rt, alloc, names, lots, files, out, gate);
    finish(err, names, ended)
}

/// Improves the initial list, and prints the report.
fn solve<R: Threads + Wait + Sync, F: Files, O: Sink, G: Gate>(
    rt: &R,
    alloc: Global,
    names: &JobFiles<'_>,
    lots: &Lots,
    files: &mut F,
    out: &mut O,
    gate: &G,
) -> Result<(), Refusal>
    requires initial { IsNamed (names_of names.now) File.Initial }
    requires last { EndsAt (names_of names.now) File.Initial }
    ensures { Tries (over (solving (names_of names.now) (These lots.now)))
        (reading F.Files files.old files.new) (output O.Sink out.old out.new) result }
{
    let start = read_start(alloc, names, files)?;
    let ended = run_from(rt, alloc, &start, lots, out, gate);
    drop(start);
    ended
}

/// The run and its report, if the initial list is feasible.
fn run_from<R: Threads + Wait + Sync, O: Sink, G: Gate>(
    rt: &R,
    alloc: Global,
    start: &Start,
    lots: &Lots,
    out: &mut O,
    gate: &G,
) -> Result<(), Refusal>
    requires fits { IsAssignment start.now.inst.tables start.now.initial.items }
    ensures printed { OnOk result (IsReported
        (opening start.now.inst.tables start.now.initial.items lots.now)
        (Took (writing O.Sink out.old out.new))) }
    ensures refused { IfErr result (StartReason start.now.inst.tables start.now.initial.items
        (IsReported (opening start.now.inst.tables start.now.initial.items lots.now)
        (BrokeOff (writing O.Sink out.old out.new)))) }
    ensures no_output { IfErr result (λ refusal. refusal ≢ Refusal.Write → out.new ≡ out.old) }
    ensures out_never_falls { O.faults out.old ≤ O.faults out.new }
{
    let Start { inst, initial } = start;
    let mut scratch = judge_start(alloc, inst, initial)?;
    let parts = parts(inst, initial, initial, &mut scratch);
    drop(scratch);
    let topo = Topology::make(alloc, inst)?;
    let beginning = Beginning {
        inst,
        topo: &topo,
        initial,
        parts,
    };
    let ended = run_over(rt, alloc, &beginning, lots, out, gate);
    drop(topo);
    ended
}

/// The run and its report. The bound is computed before the memory of the run is taken, so that after that only writing
/// can fail.
fn run_over<R: Threads + Wait + Sync, O: Sink, G: Gate>(
    rt: &R,
    alloc: Global,
    beginning: &Beginning<'_>,
    lots: &Lots,
    out: &mut O,
    gate: &G,
) -> Result<(), Refusal>
    ensures printed { OnOk result (IsReported
        (opening beginning.now.inst.now.tables beginning.now.initial.now.items lots.now)
        (Took (writing O.Sink out.old out.new))) }
    ensures refused { IfErr result (StartReason beginning.now.inst.now.tables
        beginning.now.initial.now.items (IsReported
        (opening beginning.now.inst.now.tables beginning.now.initial.now.items lots.now)
        (BrokeOff (writing O.Sink out.old out.new)))) }
    ensures no_output { IfErr result (λ refusal. refusal ≢ Refusal.Write → out.new ≡ out.old) }
    ensures out_never_falls { O.faults out.old ≤ O.faults out.new }
{
    let (inst, initial) = (beginning.inst, beginning.initial);
    let mut desks = Desks::make(alloc, lots.len())?;
    let bound = bound_from(alloc, inst, initial)?;
    let prepared = Prepared::make(alloc, inst, beginning.topo, initial, beginning.parts, lots)?;
    let run = prepared.solve(rt, gate);
    let ended = report(rt, &mut desks, out, &bound, &run);
    drop(run);
    ended?;
    Ok(())
}

/// Writes the report of a run at these desks, with this bound.
fn report<R: Threads + Sync, O: Sink>(
    rt: &R,
    desks: &mut Desks,
    out: &mut O,
    bound: &Bound,
    run: &Run<'_>,
) -> Result<(), WriteFault>
    requires bound { bound.now ≡ pinned_bound_of run.now.journal.instance.tables
        run.now.journal.initial.items }
    requires best { run.now.best.items ≡ best_state run.now.journal }
    ensures whole { OnOk result (Took (writing O.Sink out.old out.new) (text_of run.now.journal)) }
    ensures part { OnErr result (BrokeOff (writing O.Sink out.old out.new) (text_of run.now.journal)) }
    ensures out_never_falls { O.faults out.old ≤ O.faults out.new }
{
    write_report_at(
        rt,
        desks,
        out,
        run.best(),
        &run.parts(),
        bound,
        run.journal(),
    )
}
