ghost use Rattle.std.specs.Prelude.{◌≡◌, IfOk, IfErr};
ghost use Rattle.std.specs.Option.{option_copied};
ghost use Rattle.ra_io.specs.Outside.{LeavesFiles, reading};
ghost use Rattle.ra_journal.specs.Openings.{opening};
ghost use Rattle.ra_model.specs.Assignments.{IsAssignment};
ghost use Rattle.ra_jobs.specs.Commands.{These, over};
ghost use Rattle.ra_jobs.specs.Ends.{Does, DoesOutside, Tries};
ghost use Rattle.ra_jobs.specs.Files.{names_of, IsNamed};
ghost use Rattle.ra_jobs.specs.Output.{output};
ghost use Rattle.ra_jobs.specs.Refusals.{Reason};
ghost use Rattle.ra_run.specs.Verifying.{CountReason, IsCounted, IsRead, VerifyOwn, refused_by, verify_command, verifying};

use ra_base::Name;
use ra_check::parts;
use ra_draws::Lots;
use ra_io::{Files, Sink};
use ra_jobs::{File, JobFiles, Outside, Refusal, Start, Status, finish, judge_start, read_start};
use ra_report::write_accepted;
use ra_topology::Topology;
use ra_verify::{VerifyFault, verify};
use std::alloc::Global;

/// Checks the report of a run of the lots from the list `initial` of a model, and prints how many entries its journal
/// has. If the report isn't accepted, it puts one line that says why, for example which of its lines is wrong. It
/// returns, and waits for nobody.
pub fn verify_run<'n, F: Files, O: Sink, E: Sink>(
    alloc: Global,
    model: &'n Name,
    initial: &'n Name,
    report: &'n Name,
    closed: Option<&'n Name>,
    lots: &Lots,
    files: &mut F,
    out: &mut O,
    err: &mut E,
) -> Status
    ensures { Does (verify_command model.now initial.now report.now
        (option_copied closed.entry) (These lots.now))
        (reading F.Files files.old files.new) (output O.Sink out.old out.new)
        (output E.Sink err.old err.new) result }
{
    let names = JobFiles::of_verify(model, initial, report, closed);
    verify_job(alloc, &names, lots, Outside { files, out, err })
}

/// Does what `verify_run` does, over the files of these names.
pub(crate) fn verify_job<F: Files, O: Sink, E: Sink>(
    alloc: Global,
    names: &JobFiles<'_>,
    lots: &Lots,
    outside: Outside<'_, F, O, E>,
) -> Status
    requires initial { IsNamed (names_of names.now) File.Initial }
    requires alone { IsNamed (names_of names.now) File.Changed → ⊥ }
    requires report { IsNamed (names_of names.now) File.Report }
    ensures { DoesOutside F.Files O.Sink E.Sink
        (over (verifying (names_of names.now) (These lots.now))) outside.entry outside.exit result }
{
    let Outside { files, out, err } = outside;
    let ended = accept(alloc, names, lots, files, out);
    finish(err, names, ended)
}

/// Checks the report, and prints how many entries it has.
fn accept<F: Files, O: Sink>(
    alloc: Global,
    names: &JobFiles<'_>,
    lots: &Lots,
    files: &mut F,
    out: &mut O,
) -> Result<(), Refusal>
    requires initial { IsNamed (names_of names.now) File.Initial }
    requires alone { IsNamed (names_of names.now) File.Changed → ⊥ }
    requires report { IsNamed (names_of names.now) File.Report }
    ensures { Tries (over (verifying (names_of names.now) (These lots.now)))
        (reading F.Files files.old files.new) (output O.Sink out.old out.new) result }
{
    let entries = read_report(alloc, names, lots, files)?;
    write_accepted(out, entries)?;
    Ok(())
}

/// How many entries the report has, if all files pass and none of its lines is wrong.
fn read_report<F: Files>(
    alloc: Global,
    names: &JobFiles<'_>,
    lots: &Lots,
    files: &mut F,
) -> Result<u64, Refusal>
    requires initial { IsNamed (names_of names.now) File.Initial }
    requires alone { IsNamed (names_of names.now) File.Changed → ⊥ }
    requires report { IsNamed (names_of names.now) File.Report }
    ensures read { IfOk result (IsRead (F.held files.old) (names_of names.now) lots.now) }
    ensures refused { IfErr result (Reason (F.held files.old) (names_of names.now)
        (F.faults files.old) (F.faults files.new)
        (VerifyOwn (F.held files.old) (names_of names.now) lots.now ⊥)) }
    ensures leaves { LeavesFiles (reading F.Files files.old files.new) }
{
    let start = read_start(alloc, names, files)?;
    let counted = count_entries(alloc, &start, names.name(File::Report), lots, files);
    drop(start);
    counted
}

/// How many entries the report has, if the initial list is feasible, which is tested first, and no line is wrong.
fn count_entries<F: Files>(
    alloc: Global,
    start: &Start,
    report: &Name,
    lots: &Lots,
    files: &mut F,
) -> Result<u64, Refusal>
    requires fits { IsAssignment start.now.inst.tables start.now.initial.items }
    ensures counted { IfOk result (IsCounted (F.held files.old) report.now
        (opening start.now.inst.tables start.now.initial.items lots.now)) }
    ensures refused { IfErr result (CountReason (F.held files.old) report.now
        (opening start.now.inst.tables start.now.initial.items lots.now) (F.faults files.old)
        (F.faults files.new)) }
    ensures leaves { LeavesFiles (reading F.Files files.old files.new) }
{
    let Start { inst, initial } = start;
    let mut scratch = judge_start(alloc, inst, initial)?;
    let topo = Topology::make(alloc, inst)?;
    let cost = parts(inst, initial, initial, &mut scratch);
    let told = verify(
        alloc,
        files,
        report.as_str(),
        inst,
        &topo,
        initial,
        cost,
        lots,
    );
    drop(topo);
    match told {
        Ok(entries) => Ok(entries),
        Err(why) => Err(refused_by(why)),
    }
}

/// The refusal of a job whose report was not accepted.
fn refused_by(why: VerifyFault) -> Refusal
    ensures { result ≡ refused_by why }
{
    match why {
        VerifyFault::ReadFault => Refusal::Read(File::Report),
        VerifyFault::Wrong { line } => Refusal::Wrong(line),
        VerifyFault::NoMemory => Refusal::Memory,
    }
}
