ghost use Rattle.std.specs.Prelude.{IfOk, IfErr};
ghost use Rattle.std.specs.Option.{option_copied};
ghost use Rattle.ra_io.specs.Outside.{LeavesFiles, reading};
ghost use Rattle.ra_jobs.specs.Commands.{over};
ghost use Rattle.ra_jobs.specs.Ends.{Does, DoesOutside, Tries};
ghost use Rattle.ra_jobs.specs.Files.{names_of, IsNamed};
ghost use Rattle.ra_jobs.specs.Output.{output};
ghost use Rattle.ra_jobs.specs.Outputs.{check_command, checked};
ghost use Rattle.ra_jobs.specs.Refusals.{Reason, Judges};
ghost use Rattle.ra_jobs.specs.Stages.{Passed};

use crate::judging::judge;
use crate::lists::read_lists;
use crate::outside::Outside;
use crate::reading::read_instance;
use crate::refusals::{File, JobFiles, Refusal};
use crate::refusing::finish;
use crate::status::Status;
use ra_base::{Name, Parts};
use ra_io::{Files, Sink};
use ra_report::write_parts;
use std::alloc::Global;

/// Checks the list `changed` against the list `initial` of a model and prints the parts of its cost. If it can't, it
/// puts one line that says why. It returns, and waits for nobody.
pub fn check_run<'n, F: Files, O: Sink, E: Sink>(
    alloc: Global,
    model: &'n Name,
    initial: &'n Name,
    changed: &'n Name,
    closed: Option<&'n Name>,
    files: &mut F,
    out: &mut O,
    err: &mut E,
) -> Status
    ensures { Does (check_command model.now initial.now changed.now
        (option_copied closed.entry))
        (reading F.Files files.old files.new) (output O.Sink out.old out.new)
        (output E.Sink err.old err.new) result }
{
    let names = JobFiles::of_check(model, initial, changed, closed);
    check_job(alloc, &names, Outside { files, out, err })
}

/// Does what `check_run` does, over the files of these names.
pub fn check_job<F: Files, O: Sink, E: Sink>(
    alloc: Global,
    names: &JobFiles<'_>,
    outside: Outside<'_, F, O, E>,
) -> Status
    requires initial { IsNamed (names_of names.now) File.Initial }
    requires changed { IsNamed (names_of names.now) File.Changed }
    ensures { DoesOutside F.Files O.Sink E.Sink (over (checked (names_of names.now)))
        outside.entry outside.exit result }
{
    let Outside { files, out, err } = outside;
    let ended = check(alloc, names, files, out);
    finish(err, names, ended)
}

/// Checks the new list, and prints the parts of its cost.
fn check<F: Files, O: Sink>(
    alloc: Global,
    names: &JobFiles<'_>,
    files: &mut F,
    out: &mut O,
) -> Result<(), Refusal>
    requires initial { IsNamed (names_of names.now) File.Initial }
    requires changed { IsNamed (names_of names.now) File.Changed }
    ensures { Tries (over (checked (names_of names.now)))
        (reading F.Files files.old files.new) (output O.Sink out.old out.new) result }
{
    let parts = read_parts(alloc, names, files)?;
    write_parts(out, &parts)?;
    Ok(())
}

/// The parts of the new list, if all files are accepted and both lists are feasible.
fn read_parts<F: Files>(
    alloc: Global,
    names: &JobFiles<'_>,
    files: &mut F,
) -> Result<Parts, Refusal>
    requires initial { IsNamed (names_of names.now) File.Initial }
    requires changed { IsNamed (names_of names.now) File.Changed }
    ensures passed { IfOk result (Passed (F.held files.old) (names_of names.now)) }
    ensures refused { IfErr result (Reason (F.held files.old) (names_of names.now)
        (F.faults files.old) (F.faults files.new)
        (Judges (F.held files.old) (names_of names.now) ⊥)) }
    ensures leaves { LeavesFiles (reading F.Files files.old files.new) }
{
    let inst = read_instance(alloc, files, names.model, names.closed)?;
    let lists = read_lists(alloc, files, names, &inst)?;
    judge(alloc, &inst, &lists.initial, &lists.changed)
}
