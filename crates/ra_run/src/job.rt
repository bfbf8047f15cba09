ghost use Rattle.std.specs.Prelude.{IfSome};
ghost use Rattle.ra_io.specs.Outside.{reading};
ghost use Rattle.ra_words.specs.Jobs.{HasOneLot, job_of};
ghost use Rattle.ra_words.specs.Said.{said};
ghost use Rattle.ra_words.specs.Words.{texts};
ghost use Rattle.ra_jobs.specs.Ends.{Does, DoesOutside, Leaves};
ghost use Rattle.ra_jobs.specs.Output.{output};
ghost use Rattle.ra_run.specs.Commands.{UsageComes, command_of};

use crate::solve::solve_job;
use crate::trial::trial_run;
use crate::verify::verify_job;
use ra_io::{Files, Gate, Sink};
use ra_jobs::{
    JobFiles, Outside, Status, bound_job, check_job, edit_job, refuse_memory, refuse_words,
    repair_job,
};
use ra_words::{Job, WordsFault, read_words};
use std::alloc::Global;
use std::marker::Sync;
use std::sync::Wait;
use std::thread::Threads;

/// Does the job of the command words, which leave out the program's name: `check`, `bound`, `solve` and `verify` with 1
/// to 16 lots, `trial`, `repair` with one lot, or `edit`. All other words are a usage fault. If the job ends with the
/// status Done, its output is printed and the error sink takes nothing; if it ends with another status, the error sink
/// takes one line that says why. The comment of each command says what its job prints; if `solve` is done, this is the
/// report of one legal journal, `SolvePrinted`. Any job may end with NoMemory. A `trial` reads no file of `files`.
pub fn run<R: Threads + Wait + Sync, F: Files, O: Sink, E: Sink, G: Gate>(
    rt: &R,
    alloc: Global,
    words: &[String],
    files: &mut F,
    out: &mut O,
    err: &mut E,
    gate: &G,
) -> Status
    ensures usage { UsageComes (job_of (texts words.now))
        (output O.Sink out.old out.new) (output E.Sink err.old err.new) result }
    ensures does { IfSome (job_of (texts words.now)) (λ says. Does (command_of says)
        (reading F.Files files.old files.new) (output O.Sink out.old out.new)
        (output E.Sink err.old err.new) result) }
    ensures leaves { Leaves (reading F.Files files.old files.new)
        (output O.Sink out.old out.new) (output E.Sink err.old err.new) }
{
    match read_words(alloc, words) {
        Ok(job) => {
            let status = do_job(rt, alloc, &job, Outside { files, out, err }, gate);
            drop(job);
            status
        }
        Err(WordsFault::Usage) => refuse_words(err),
        Err(WordsFault::NoMemory) => refuse_memory(err),
    }
}

/// Does a job.
fn do_job<R: Threads + Wait + Sync, F: Files, O: Sink, E: Sink, G: Gate>(
    rt: &R,
    alloc: Global,
    job: &Job,
    outside: Outside<'_, F, O, E>,
    gate: &G,
) -> Status
    requires { HasOneLot (said job.now) }
    ensures { DoesOutside F.Files O.Sink E.Sink (command_of (said job.now))
        outside.entry outside.exit result }
{
    match job {
        Job::Check {
            model,
            initial,
            changed,
            closed,
        } => {
            let names = JobFiles::of_check(model, initial, changed, closed.as_ref());
            check_job(alloc, &names, outside)
        }
        Job::Bound {
            model,
            initial,
            closed,
        } => {
            let names = JobFiles::of_bound(model, initial.as_ref(), closed.as_ref());
            bound_job(alloc, &names, outside)
        }
        Job::Solve {
            model,
            initial,
            closed,
            lots,
        } => {
            let names = JobFiles::of_solve(model, initial, closed.as_ref());
            solve_job(rt, alloc, &names, lots, outside, gate)
        }
        Job::Trial { number } => {
            let Outside { files: _, out, err } = outside;
            trial_run(rt, alloc, *number, out, err, gate)
        }
        Job::Repair {
            model,
            initial,
            closed,
            lots,
        } => {
            let names = JobFiles::of_solve(model, initial, closed.as_ref());
            repair_job(alloc, &names, lots, outside)
        }
        Job::Edit {
            model,
            initial,
            current,
            edits,
            closed,
        } => {
            let names = JobFiles::of_edit(model, initial, current, edits, closed.as_ref());
            edit_job(alloc, &names, outside)
        }
        Job::Verify {
            model,
            initial,
            report,
            closed,
            lots,
        } => {
            let names = JobFiles::of_verify(model, initial, report, closed.as_ref());
            verify_job(alloc, &names, lots, outside)
        }
    }
}
