ghost use Rattle.std.specs.Prelude.{◌≡◌, ◌≤◌, [], ◌∷◌, length, None, false, OnOk, IfErr};
ghost use Rattle.std.specs.Option.{option_copied};
ghost use Rattle.ra_io.specs.Outside.{reading, writing, Took};
ghost use Rattle.ra_check.specs.Made.{IsMadeFor};
ghost use Rattle.ra_draws.specs.Lots.{IsLots};
ghost use Rattle.ra_draws.specs.Shown.{lots_shown};
ghost use Rattle.ra_model.specs.Assignments.{IsAssignment};
ghost use Rattle.ra_topology.specs.Fits.{IsTopologyOf};
ghost use Rattle.ra_jobs.specs.Commands.{These, over};
ghost use Rattle.ra_jobs.specs.Ends.{Does, DoesOutside, Tries, puts_first};
ghost use Rattle.ra_jobs.specs.Files.{names_of, IsNamed, EndsAt};
ghost use Rattle.ra_jobs.specs.Output.{output, BrokeOff};
ghost use Rattle.ra_jobs.specs.Repairing.{IsTried, TryReason, repair_command, repaired};

use crate::outside::Outside;
use crate::refusals::{File, JobFiles, Refusal};
use crate::refusing::finish;
use crate::start::read_start;
use crate::status::Status;
use ra_base::{Assignment, Name};
use ra_check::{Scratch, first_broken};
use ra_draws::{Lot, Lots};
use ra_io::{Files, Sink};
use ra_model::Instance;
use ra_repair::Repair;
use ra_report::write_repair;
use ra_topology::Topology;
use std::alloc::Global;

/// Looks for a list that meets all constraints from the list `initial` of a model, which may break some, by the tries
/// of one lot. It prints its last list and each try. If it can't, it puts one line that says why. It returns, and waits
/// for nobody.
pub fn repair_run<'n, F: Files, O: Sink, E: Sink>(
    alloc: Global,
    model: &'n Name,
    initial: &'n Name,
    closed: Option<&'n Name>,
    lots: &Lots,
    files: &mut F,
    out: &mut O,
    err: &mut E,
) -> Status
    requires one { length (lots_shown lots.now) ≡ 1 }
    ensures { Does (repair_command model.now initial.now
        (option_copied closed.entry) (These lots.now))
        (reading F.Files files.old files.new) (output O.Sink out.old out.new)
        (output E.Sink err.old err.new) result }
{
    let names = JobFiles::of_solve(model, initial, closed);
    repair_job(alloc, &names, lots, Outside { files, out, err })
}

/// Does what `repair_run` does, over the files of these names.
pub fn repair_job<F: Files, O: Sink, E: Sink>(
    alloc: Global,
    names: &JobFiles<'_>,
    lots: &Lots,
    outside: Outside<'_, F, O, E>,
) -> Status
    requires initial { IsNamed (names_of names.now) File.Initial }
    requires last { EndsAt (names_of names.now) File.Initial }
    requires one { length (lots_shown lots.now) ≡ 1 }
    ensures { DoesOutside F.Files O.Sink E.Sink
        (over (repaired (names_of names.now) (These lots.now))) outside.entry outside.exit result }
{
    let Outside { files, out, err } = outside;
    let ended = mend(alloc, names, lots, files, out);
    finish(err, names, ended)
}

/// Makes the tries from the initial list, and prints them.
fn mend<F: Files, O: Sink>(
    alloc: Global,
    names: &JobFiles<'_>,
    lots: &Lots,
    files: &mut F,
    out: &mut O,
) -> Result<(), Refusal>
    requires initial { IsNamed (names_of names.now) File.Initial }
    requires last { EndsAt (names_of names.now) File.Initial }
    requires one { length (lots_shown lots.now) ≡ 1 }
    ensures { Tries (over (repaired (names_of names.now) (These lots.now)))
        (reading F.Files files.old files.new) (output O.Sink out.old out.new) result }
{
    let start = read_start(alloc, names, files)?;
    let ended = try_from(alloc, &start.inst, &start.initial, lots.lot(0), out);
    drop(start);
    ended
}

/// The tries of a lot from a list, and their text.
fn try_from<O: Sink>(
    alloc: Global,
    inst: &Instance,
    initial: &Assignment,
    lot: &Lot,
    out: &mut O,
) -> Result<(), Refusal>
    requires fits { IsAssignment inst.now.tables initial.now.items }
    requires lot { IsLots (lot.now ∷ []) }
    ensures printed { OnOk result (IsTried inst.now.tables initial.now.items lot.now None
        (Took (writing O.Sink out.old out.new))) }
    ensures refused { IfErr result (TryReason inst.now.tables initial.now.items lot.now
        (Took (writing O.Sink out.old out.new)) (BrokeOff (writing O.Sink out.old out.new))) }
    ensures no_output { IfErr result (λ refusal. puts_first refusal ≡ false → out.new ≡ out.old) }
    ensures out_never_falls { O.faults out.old ≤ O.faults out.new }
{
    let mut scratch = Scratch::make(alloc, inst)?;
    let topo = Topology::make(alloc, inst)?;
    let ended = try_over(alloc, inst, &topo, initial, lot, &mut scratch, out);
    drop(topo);
    ended
}

/// The tries of a lot from a list over the topology of the instance, and their text.
fn try_over<O: Sink>(
    alloc: Global,
    inst: &Instance,
    topo: &Topology,
    initial: &Assignment,
    lot: &Lot,
    scratch: &mut Scratch,
    out: &mut O,
) -> Result<(), Refusal>
    requires fits { IsAssignment inst.now.tables initial.now.items }
    requires lot { IsLots (lot.now ∷ []) }
    requires topology { IsTopologyOf topo.now inst.now.tables }
    requires made { IsMadeFor scratch.old inst.now.tables }
    ensures printed { OnOk result (IsTried inst.now.tables initial.now.items lot.now None
        (Took (writing O.Sink out.old out.new))) }
    ensures refused { IfErr result (TryReason inst.now.tables initial.now.items lot.now
        (Took (writing O.Sink out.old out.new)) (BrokeOff (writing O.Sink out.old out.new))) }
    ensures no_output { IfErr result (λ refusal. puts_first refusal ≡ false → out.new ≡ out.old) }
    ensures out_never_falls { O.faults out.old ≤ O.faults out.new }
{
    let mut repair = Repair::make(alloc, inst, topo, initial, lot)?;
    repair.run();
    let broken = first_broken(inst, initial, repair.assignment(), scratch);
    let ended = write_repair(out, broken.as_ref(), &repair);
    drop(repair);
    ended?;
    match broken {
        Some(cause) => Err(Refusal::Unrepaired(cause)),
        None => Ok(()),
    }
}
