ghost use Rattle.std.specs.Prelude.{◌≡◌, ◌≢◌, ◌≤◌, OnOk, IfOk, IfErr};
ghost use Rattle.std.specs.Option.{option_copied};
ghost use Rattle.ra_edit_read.specs.EditLists.{AreEditsFor};
ghost use Rattle.ra_io.specs.Outside.{LeavesFiles, reading, writing, Took};
ghost use Rattle.ra_model.specs.Assignments.{IsAssignment};
ghost use Rattle.ra_topology.specs.Fits.{IsTopologyOf};
ghost use Rattle.ra_jobs.specs.Commands.{over};
ghost use Rattle.ra_jobs.specs.Ends.{Does, DoesOutside, Tries};
ghost use Rattle.ra_jobs.specs.Files.{names_of, IsNamed, EndsAt};
ghost use Rattle.ra_jobs.specs.Output.{output, BrokeOff};
ghost use Rattle.ra_jobs.specs.Refusals.{Reason};
ghost use Rattle.ra_jobs.specs.Stages.{Judged, JudgeReason, WriteReason};
ghost use Rattle.ra_jobs.specs.Editing.{EditOwn, EditsReason, HasEdits, IsRunOfEdits, IsTakenWithEdits, edits_as, edit_command, editing};
ghost use Rattle.ra_jobs.specs.Outcomes.{IsOutcome, IsWritable, edited_outcome_text};

use crate::edited::write_edited;
use crate::{
    File, JobFiles, Lists, Outside, Refusal, Status, finish, judge, read_instance, read_lists,
};
use ra_base::{Fixed, Name, NoMemory, Parts};
use ra_edit::{Draft, EditReply, Edited, Left};
use ra_edit_read::{Edits, EditsFault, read_edits};
use ra_io::{Files, Sink};
use ra_model::Instance;
use ra_topology::Topology;
use std::alloc::Global;

/// Adds, retires and resizes processes of a model as the list `edits` says, on the list `current`, which is feasible
/// from the list `initial`. It prints the edited model and lists and the answer to each edit. If it can't, it puts one
/// line that says why. It returns, and waits for nobody.
pub fn edit_run<'n, F: Files, O: Sink, E: Sink>(
    alloc: Global,
    model: &'n Name,
    initial: &'n Name,
    current: &'n Name,
    edits: &'n Name,
    closed: Option<&'n Name>,
    files: &mut F,
    out: &mut O,
    err: &mut E,
) -> Status
    ensures { Does (edit_command model.now initial.now current.now edits.now
        (option_copied closed.entry))
        (reading F.Files files.old files.new) (output O.Sink out.old out.new)
        (output E.Sink err.old err.new) result }
{
    let names = JobFiles::of_edit(model, initial, current, edits, closed);
    edit_job(alloc, &names, Outside { files, out, err })
}

/// Does what `edit_run` does, over the files of these names.
pub fn edit_job<F: Files, O: Sink, E: Sink>(
    alloc: Global,
    names: &JobFiles<'_>,
    outside: Outside<'_, F, O, E>,
) -> Status
    requires initial { IsNamed (names_of names.now) File.Initial }
    requires changed { IsNamed (names_of names.now) File.Changed }
    requires edits { IsNamed (names_of names.now) File.Edits }
    requires last { EndsAt (names_of names.now) File.Edits }
    ensures { DoesOutside F.Files O.Sink E.Sink (over (editing (names_of names.now)))
        outside.entry outside.exit result }
{
    let Outside { files, out, err } = outside;
    let ended = edit(alloc, names, files, out);
    finish(err, names, ended)
}

/// Makes the edits of the files, and prints what they leave.
fn edit<F: Files, O: Sink>(
    alloc: Global,
    names: &JobFiles<'_>,
    files: &mut F,
    out: &mut O,
) -> Result<(), Refusal>
    requires initial { IsNamed (names_of names.now) File.Initial }
    requires changed { IsNamed (names_of names.now) File.Changed }
    requires edits { IsNamed (names_of names.now) File.Edits }
    ensures { Tries (over (editing (names_of names.now)))
        (reading F.Files files.old files.new) (output O.Sink out.old out.new) result }
{
    let taken = read_taken(alloc, names, files)?;
    edit_from(alloc, taken, out)
}

/// What the files of edits mean.
#[derive(Drop)]
struct Taken {
    inst: Instance,
    lists: Lists,
    edits: Edits,
}

/// The instance, the two lists and the edits, if all files are accepted.
fn read_taken<F: Files>(
    alloc: Global,
    names: &JobFiles<'_>,
    files: &mut F,
) -> Result<Taken, Refusal>
    requires initial { IsNamed (names_of names.now) File.Initial }
    requires changed { IsNamed (names_of names.now) File.Changed }
    requires edits { IsNamed (names_of names.now) File.Edits }
    ensures read { IfOk result (λ t. IsTakenWithEdits (F.held files.old) (names_of names.now)
        t.inst.tables t.lists.initial.items t.lists.changed.items t.edits) }
    ensures refused { IfErr result (Reason (F.held files.old) (names_of names.now)
        (F.faults files.old) (F.faults files.new)
        (EditOwn (F.held files.old) (names_of names.now) ⊥)) }
    ensures leaves { LeavesFiles (reading F.Files files.old files.new) }
{
    let inst = read_instance(alloc, files, names.model, names.closed)?;
    let lists = read_lists(alloc, files, names, &inst)?;
    let edits = take_edits(alloc, files, names.name(File::Edits), &inst)?;
    Ok(Taken { inst, lists, edits })
}

/// The edits of an edits file.
fn take_edits<F: Files>(
    alloc: Global,
    files: &mut F,
    name: &Name,
    inst: &Instance,
) -> Result<Edits, Refusal>
    ensures read { IfOk result (λ e. HasEdits (F.held files.old) name.now inst.now.tables e) }
    ensures refused { IfErr result (EditsReason (F.held files.old) name.now inst.now.tables
        (F.faults files.old) (F.faults files.new)) }
    ensures leaves { LeavesFiles (reading F.Files files.old files.new) }
{
    match read_edits(alloc, files, name.as_str(), inst) {
        Ok(edits) => Ok(edits),
        Err(fault) => Err(edits_refused(fault)),
    }
}

/// A refusal of the reader of edits, as a refusal of a job.
fn edits_refused(fault: EditsFault) -> Refusal
    ensures { result ≡ edits_as fault }
{
    match fault {
        EditsFault::ReadFault => Refusal::Read(File::Edits),
        EditsFault::NoMemory => Refusal::Memory,
        fault => Refusal::Edits(fault),
    }
}

/// The edits and their text, if both lists are feasible. The instance isn't copied: the processes that the edits leave
/// replace its own.
fn edit_from<O: Sink>(alloc: Global, taken: Taken, out: &mut O) -> Result<(), Refusal>
    requires a0_fits { IsAssignment taken.inst.tables taken.lists.initial.items }
    requires fits { IsAssignment taken.inst.tables taken.lists.changed.items }
    requires edits { AreEditsFor taken.inst.tables taken.edits }
    ensures printed { OnOk result (IsRunOfEdits taken.inst.tables taken.lists.initial.items
        taken.lists.changed.items taken.edits (Took (writing O.Sink out.old out.new))) }
    ensures refused { IfErr result (JudgeReason taken.inst.tables taken.lists.initial.items
        taken.lists.changed.items
        (IsRunOfEdits taken.inst.tables taken.lists.initial.items taken.lists.changed.items taken.edits
        (BrokeOff (writing O.Sink out.old out.new)))) }
    ensures no_output { IfErr result (λ refusal. refusal ≢ Refusal.Write → out.new ≡ out.old) }
    ensures out_never_falls { O.faults out.old ≤ O.faults out.new }
{
    let Taken { inst, lists, edits } = taken;
    let outcome = outcome_of(alloc, &inst, &lists, &edits)?;
    drop(lists);
    drop(edits);
    write_outcome(inst, outcome, out)
}

/// What edits leave: the cost of the current list, the lists, and the answer to each edit.
#[derive(Drop)]
struct Outcome {
    parts: Parts,
    left: Left,
    replies: Fixed<EditReply>,
}

/// What the edits leave, if both lists are feasible.
fn outcome_of(
    alloc: Global,
    inst: &Instance,
    lists: &Lists,
    edits: &Edits,
) -> Result<Outcome, Refusal>
    requires a0_fits { IsAssignment inst.now.tables lists.now.initial.items }
    requires fits { IsAssignment inst.now.tables lists.now.changed.items }
    requires edits { AreEditsFor inst.now.tables edits.now }
    ensures done { IfOk result (IsOutcome inst.now.tables lists.now.initial.items
        lists.now.changed.items edits.now) }
    ensures refused { IfErr result (JudgeReason inst.now.tables lists.now.initial.items
        lists.now.changed.items ⊥) }
{
    let start = judge(alloc, inst, &lists.initial, &lists.changed)?;
    let topo = Topology::make(alloc, inst)?;
    Ok(outcome_over(alloc, inst, &topo, lists, start, edits)?)
}

/// What the edits leave, over the topology of the instance. The current list is feasible, and its cost has these parts.
fn outcome_over(
    alloc: Global,
    inst: &Instance,
    topo: &Topology,
    lists: &Lists,
    start: Parts,
    edits: &Edits,
) -> Result<Outcome, NoMemory>
    requires a0_fits { IsAssignment inst.now.tables lists.now.initial.items }
    requires fits { IsAssignment inst.now.tables lists.now.changed.items }
    requires edits { AreEditsFor inst.now.tables edits.now }
    requires topology { IsTopologyOf topo.now inst.now.tables }
    requires judged { Judged inst.now.tables lists.now.initial.items lists.now.changed.items start }
    ensures { IfOk result (IsOutcome inst.now.tables lists.now.initial.items
        lists.now.changed.items edits.now) }
{
    let mut draft = Draft::make(alloc, inst, topo, &lists.initial, &lists.changed, start)?;
    let replies = draft.edit_all(alloc, edits)?;
    let parts = draft.parts();
    Ok(Outcome {
        parts,
        left: draft.leave(),
        replies,
    })
}

/// Writes what edits leave of an instance and its lists.
fn write_outcome<O: Sink>(inst: Instance, outcome: Outcome, out: &mut O) -> Result<(), Refusal>
    requires { IsWritable inst.tables outcome }
    ensures printed { OnOk result (Took (writing O.Sink out.old out.new)
        (edited_outcome_text inst.tables outcome)) }
    ensures refused { IfErr result (WriteReason (BrokeOff (writing O.Sink out.old out.new)
        (edited_outcome_text inst.tables outcome))) }
    ensures no_output { IfErr result (λ refusal. refusal ≢ Refusal.Write → out.new ≡ out.old) }
    ensures out_never_falls { O.faults out.old ≤ O.faults out.new }
{
    let Outcome {
        parts,
        left,
        replies,
    } = outcome;
    let edited = Edited::of(inst, left);
    write_edited(out, &parts, &edited, &replies)?;
    Ok(())
}
