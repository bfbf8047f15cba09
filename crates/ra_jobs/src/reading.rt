ghost use Rattle.std.specs.Prelude.{None, IfOk, IfErr};
ghost use Rattle.std.specs.Option.{option_copied};
ghost use Rattle.ra_io.specs.Outside.{LeavesFiles, reading};
ghost use Rattle.ra_jobs.specs.Files.{ModelIs, InstanceIs};
ghost use Rattle.ra_jobs.specs.Stages.{ClosedReason, SourceReason, IsClosing};

use crate::refusals::Refusal;
use ra_assign::read_closed;
use ra_base::Name;
use ra_io::Files;
use ra_model::Instance;
use ra_model_read::read_model;
use std::alloc::Global;

/// The instance of the model file, with the machines of the closed list closed, if one is named. Else the refusal names
/// the first of the two files that could not be read, or that is not a model or not a closed list for it; or the system
/// refused memory.
pub fn read_instance<F: Files>(
    alloc: Global,
    files: &mut F,
    model: &Name,
    closed: Option<&Name>,
) -> Result<Instance, Refusal>
    ensures read { IfOk result (λ inst. InstanceIs (F.held files.old) model.now
        (option_copied closed.entry) inst.tables) }
    ensures refused { IfErr result (SourceReason (F.held files.old) model.now
        (option_copied closed.entry) (F.faults files.old) (F.faults files.new)) }
    ensures leaves { LeavesFiles (reading F.Files files.old files.new) }
{
    let inst = read_open(alloc, files, model)?;
    match closed {
        None => Ok(inst),
        Some(closed) => close(alloc, files, closed, inst),
    }
}

/// The instance of the model file, in which no machine is closed.
pub(crate) fn read_open<F: Files>(
    alloc: Global,
    files: &mut F,
    model: &Name,
) -> Result<Instance, Refusal>
    ensures read { IfOk result (λ inst. ModelIs (F.held files.old) model.now inst.tables) }
    ensures refused { IfErr result (SourceReason (F.held files.old) model.now None
        (F.faults files.old) (F.faults files.new)) }
    ensures leaves { LeavesFiles (reading F.Files files.old files.new) }
{
    Ok(read_model(alloc, files, model.as_str())?)
}

/// An instance with the machines of a closed list closed.
pub(crate) fn close<F: Files>(
    alloc: Global,
    files: &mut F,
    closed: &Name,
    inst: Instance,
) -> Result<Instance, Refusal>
    ensures read { IfOk result (λ i. IsClosing (F.held files.old) closed.now inst.tables i.tables) }
    ensures refused { IfErr result (ClosedReason (F.held files.old) closed.now inst.tables
        (F.faults files.old) (F.faults files.new)) }
    ensures leaves { LeavesFiles (reading F.Files files.old files.new) }
{
    let flags = read_closed(alloc, files, closed.as_str(), &inst)?;
    Ok(inst.closing(flags))
}
