ghost use Rattle.std.specs.Prelude.{◌≡◌, ◌≢◌, ◌⊎◌};
ghost use Rattle.std.specs.Option.{option_copied};
ghost use Rattle.ra_io.specs.Outside.{reading};
ghost use Rattle.ra_jobs.specs.Complete.{AreValid};
ghost use Rattle.ra_jobs.specs.Ends.{Does};
ghost use Rattle.ra_jobs.specs.Files.{check_names};
ghost use Rattle.ra_jobs.specs.Output.{output};
ghost use Rattle.ra_jobs.specs.Outputs.{check_command};

use crate::check::check_run;
use crate::status::Status;
use ra_base::Name;
use ra_io::{CountSink, Files, Sink, SteadyFiles};
use std::alloc::Global;

/// Checks as `check_run` does, over files and sinks that never fail: it answers no fault, and over valid files the
/// check is done unless memory is refused. It is for callers who have all files in memory and want only the answer.
pub fn check_steady<'n>(
    alloc: Global,
    model: &'n Name,
    initial: &'n Name,
    changed: &'n Name,
    closed: Option<&'n Name>,
    files: &mut SteadyFiles,
    out: &mut CountSink,
    err: &mut CountSink,
) -> Status
    ensures does { Does (check_command model.now initial.now changed.now
        (option_copied closed.entry))
        (reading ⟦<SteadyFiles as Files>⟧ files.old files.new)
        (output ⟦<CountSink as Sink>⟧ out.old out.new)
        (output ⟦<CountSink as Sink>⟧ err.old err.new) result }
    ensures no_read_fault { result ≢ Status.ReadFault }
    ensures no_write_fault { result ≢ Status.WriteFault }
    ensures complete { AreValid (⟦<SteadyFiles as Files>⟧.held files.old)
        (check_names model.now initial.now changed.now (option_copied closed.entry))
        → (result ≡ Status.Done) ⊎ (result ≡ Status.NoMemory) }
{
    check_run(alloc, model, initial, changed, closed, files, out, err)
}
