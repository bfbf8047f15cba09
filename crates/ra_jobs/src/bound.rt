ghost use Rattle.std.specs.Prelude.{◌≡◌, IfOk, IfErr};
ghost use Rattle.std.specs.Option.{option_copied};
ghost use Rattle.ra_bounds.specs.PinnedBounds.{pinned_bound_of};
ghost use Rattle.ra_io.specs.Outside.{LeavesFiles, reading};
ghost use Rattle.ra_model.specs.Assignments.{IsAssignment};
ghost use Rattle.ra_jobs.specs.Commands.{over};
ghost use Rattle.ra_jobs.specs.Ends.{Does, DoesOutside, Tries};
ghost use Rattle.ra_jobs.specs.Files.{name_of, names_of, IsNamed, EndsAt};
ghost use Rattle.ra_jobs.specs.Output.{output};
ghost use Rattle.ra_jobs.specs.Outputs.{BoundIs, BoundRead, bound_command, bounded};
ghost use Rattle.ra_jobs.specs.Refusals.{Reason, Nothing};
ghost use Rattle.ra_jobs.specs.Stages.{ListReason, NamedReason};

use crate::lists::read_list;
use crate::outside::Outside;
use crate::reading::read_instance;
use crate::refusals::{File, JobFiles, Refusal, Role};
use crate::refusing::finish;
use crate::status::Status;
use ra_base::{Assignment, Name, NoMemory};
use ra_bounds::{Bound, bound, pinned_bound};
use ra_io::{Files, Sink};
use ra_model::Instance;
use ra_pins::Pins;
use ra_report::write_bound;
use std::alloc::Global;

/// Prints the lower bound of a model, or, with an initial list, the bound of both, which counts the load of the pinned
/// processes. If it can't, it puts one line that says why. The initial list needn't be feasible. It returns, and waits
/// for nobody.
pub fn bound_run<'n, F: Files, O: Sink, E: Sink>(
    alloc: Global,
    model: &'n Name,
    initial: Option<&'n Name>,
    closed: Option<&'n Name>,
    files: &mut F,
    out: &mut O,
    err: &mut E,
) -> Status
    ensures { Does (bound_command model.now (option_copied initial.entry)
        (option_copied closed.entry))
        (reading F.Files files.old files.new) (output O.Sink out.old out.new)
        (output E.Sink err.old err.new) result }
{
    let names = JobFiles::of_bound(model, initial, closed);
    bound_job(alloc, &names, Outside { files, out, err })
}

/// Does what `bound_run` does, over the files of these names.
pub fn bound_job<F: Files, O: Sink, E: Sink>(
    alloc: Global,
    names: &JobFiles<'_>,
    outside: Outside<'_, F, O, E>,
) -> Status
    requires last { EndsAt (names_of names.now) File.Initial }
    ensures { DoesOutside F.Files O.Sink E.Sink (over (bounded (names_of names.now)))
        outside.entry outside.exit result }
{
    let Outside { files, out, err } = outside;
    let ended = print_bound(alloc, names, files, out);
    finish(err, names, ended)
}

/// Prints the bound of the files.
fn print_bound<F: Files, O: Sink>(
    alloc: Global,
    names: &JobFiles<'_>,
    files: &mut F,
    out: &mut O,
) -> Result<(), Refusal>
    ensures { Tries (over (bounded (names_of names.now)))
        (reading F.Files files.old files.new) (output O.Sink out.old out.new) result }
{
    let bound = read_bound(alloc, names, files)?;
    write_bound(out, &bound)?;
    Ok(())
}

/// The bound of the files.
fn read_bound<F: Files>(
    alloc: Global,
    names: &JobFiles<'_>,
    files: &mut F,
) -> Result<Bound, Refusal>
    ensures read { IfOk result (BoundRead (F.held files.old) (names_of names.now)) }
    ensures refused { IfErr result (Reason (F.held files.old) (names_of names.now)
        (F.faults files.old) (F.faults files.new) Nothing) }
    ensures leaves { LeavesFiles (reading F.Files files.old files.new) }
{
    let inst = read_instance(alloc, files, names.model, names.closed)?;
    let ended = bound_over(alloc, files, names, &inst);
    drop(inst);
    ended
}

/// The bound of an instance, or of an instance and the initial list, if the job has one.
fn bound_over<F: Files>(
    alloc: Global,
    files: &mut F,
    names: &JobFiles<'_>,
    inst: &Instance,
) -> Result<Bound, Refusal>
    ensures read { IfOk result (BoundIs (F.held files.old)
        (names_of names.now).initial inst.now.tables) }
    ensures refused { IfErr result (NamedReason (F.held files.old)
        (names_of names.now) inst.now.tables (F.faults files.old) (F.faults files.new)) }
    ensures leaves { LeavesFiles (reading F.Files files.old files.new) }
{
    match names.initial {
        None => Ok(bound(inst)),
        Some(_) => bound_with(alloc, files, names, inst),
    }
}

/// The bound of an instance and the initial list.
fn bound_with<F: Files>(
    alloc: Global,
    files: &mut F,
    names: &JobFiles<'_>,
    inst: &Instance,
) -> Result<Bound, Refusal>
    requires initial { IsNamed (names_of names.now) File.Initial }
    ensures read { IfOk result (BoundIs (F.held files.old)
        (names_of names.now).initial inst.now.tables) }
    ensures refused { IfErr result (ListReason Role.Initial (F.held files.old)
        (name_of (names_of names.now) File.Initial) inst.now.tables
        (F.faults files.old) (F.faults files.new)) }
    ensures leaves { LeavesFiles (reading F.Files files.old files.new) }
{
    let a0 = read_list(alloc, files, names, Role::Initial, inst)?;
    Ok(bound_from(alloc, inst, &a0)?)
}

/// The bound of an instance and a start, which counts the load of the pinned processes. It makes the pins and frees
/// them.
pub fn bound_from(alloc: Global, inst: &Instance, initial: &Assignment) -> Result<Bound, NoMemory>
    requires fits { IsAssignment inst.now.tables initial.now.items }
    ensures { IfOk result (λ b. b ≡ pinned_bound_of inst.now.tables initial.now.items) }
{
    let pins = Pins::make(alloc, inst, initial)?;
    Ok(pinned_bound(inst, &pins))
}
