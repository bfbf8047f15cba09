ghost use Rattle.std.specs.Prelude.{◌≡◌, IfOk, IfErr};
ghost use Rattle.ra_io.specs.Outside.{LeavesFiles, reading};
ghost use Rattle.ra_jobs.specs.Files.{file_of, name_of, names_of, IsNamed};
ghost use Rattle.ra_jobs.specs.Stages.{list_as, ListReason, IsList, ReadsLists, ListsReason};

use crate::refusals::{File, JobFiles, Refusal, Role};
use ra_assign::{AssignFault, read_assignment};
use ra_base::Assignment;
use ra_io::Files;
use ra_model::Instance;
use std::alloc::Global;

/// A list of a job.
pub(crate) fn read_list<F: Files>(
    alloc: Global,
    files: &mut F,
    names: &JobFiles<'_>,
    role: Role,
    inst: &Instance,
) -> Result<Assignment, Refusal>
    requires named { IsNamed (names_of names.now) (file_of role) }
    ensures read { IfOk result (λ a. IsList (F.held files.old)
        (name_of (names_of names.now) (file_of role)) inst.now.tables a.items) }
    ensures refused { IfErr result (ListReason role (F.held files.old)
        (name_of (names_of names.now) (file_of role)) inst.now.tables
        (F.faults files.old) (F.faults files.new)) }
    ensures leaves { LeavesFiles (reading F.Files files.old files.new) }
{
    let name = names.name(role.file());
    match read_assignment(alloc, files, name.as_str(), inst) {
        Ok(list) => Ok(list),
        Err(fault) => Err(list_refused(role, fault)),
    }
}

/// A refusal of the reader of lists, as a refusal of a job.
fn list_refused(role: Role, fault: AssignFault) -> Refusal
    ensures { result ≡ list_as role fault }
{
    match fault {
        AssignFault::ReadFault => Refusal::Read(role.file()),
        AssignFault::NoMemory => Refusal::Memory,
        fault => Refusal::Assign(role, fault),
    }
}

/// The two lists of a check or of edits: the initial one, and the new one or the current one.
#[derive(Drop)]
pub struct Lists {
    pub initial: Assignment,
    pub changed: Assignment,
}

/// The initial list and the new one, each of which fits the instance. Else the refusal names the first of the two that
/// could not be read, or that is not an assignment for the instance; or the system refused memory.
pub fn read_lists<F: Files>(
    alloc: Global,
    files: &mut F,
    names: &JobFiles<'_>,
    inst: &Instance,
) -> Result<Lists, Refusal>
    requires initial { IsNamed (names_of names.now) File.Initial }
    requires changed { IsNamed (names_of names.now) File.Changed }
    ensures read { IfOk result (λ l. ReadsLists (F.held files.old) (names_of names.now)
        inst.now.tables l.initial.items l.changed.items) }
    ensures refused { IfErr result (ListsReason (F.held files.old) (names_of names.now)
        inst.now.tables (F.faults files.old) (F.faults files.new)) }
    ensures leaves { LeavesFiles (reading F.Files files.old files.new) }
{
    let initial = read_list(alloc, files, names, Role::Initial, inst)?;
    let changed = read_list(alloc, files, names, Role::Changed, inst)?;
    Ok(Lists { initial, changed })
}
