ghost use Rattle.std.specs.Prelude.{IfOk, IfErr};
ghost use Rattle.ra_io.specs.Outside.{LeavesFiles, reading};
ghost use Rattle.ra_jobs.specs.Files.{names_of, IsNamed};
ghost use Rattle.ra_jobs.specs.Refusals.{Reason, Nothing};
ghost use Rattle.ra_jobs.specs.Stages.{IsAcceptedStart};

use crate::lists::read_list;
use crate::reading::read_instance;
use crate::refusals::{File, JobFiles, Refusal, Role};
use ra_base::Assignment;
use ra_io::Files;
use ra_model::Instance;
use std::alloc::Global;

/// An instance, and the assignment from which a run starts.
#[derive(Drop)]
pub struct Start {
    pub inst: Instance,
    pub initial: Assignment,
}

/// The instance and the initial list, if all files are accepted.
pub fn read_start<F: Files>(
    alloc: Global,
    names: &JobFiles<'_>,
    files: &mut F,
) -> Result<Start, Refusal>
    requires initial { IsNamed (names_of names.now) File.Initial }
    requires alone { IsNamed (names_of names.now) File.Changed → ⊥ }
    ensures read { IfOk result (λ s. IsAcceptedStart (F.held files.old) (names_of names.now)
        s.inst.tables s.initial.items) }
    ensures refused { IfErr result (Reason (F.held files.old) (names_of names.now)
        (F.faults files.old) (F.faults files.new) Nothing) }
    ensures leaves { LeavesFiles (reading F.Files files.old files.new) }
{
    let inst = read_instance(alloc, files, names.model, names.closed)?;
    let initial = read_list(alloc, files, names, Role::Initial, &inst)?;
    Ok(Start { inst, initial })
}
