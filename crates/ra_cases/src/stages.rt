ghost use Rattle.std.specs.Prelude.{◌<◌, IfOk};
ghost use Rattle.ra_words.specs.Words.{texts};
ghost use Rattle.ra_cases.specs.Runs.{IsReady, Keeps};

use crate::asking::Program;
use crate::parts::{Case, files_of, sink_of};
use crate::trouble::Trouble;
use ra_anneal::anneal_run;
use ra_io::{MemoryFiles, MemorySink, NoGate};
use ra_jobs::Status;
use ra_run::run;
use std::alloc::Global;
use std::marker::Sync;
use std::sync::Wait;
use std::thread::Threads;

/// What a run works on.
#[derive(Drop)]
pub(crate) struct Stage {
    pub(crate) files: MemoryFiles,
    pub(crate) out: MemorySink,
    pub(crate) err: MemorySink,
}

/// The stage of a case whose files give at most `each` bytes at once.
pub(crate) fn stage_of(alloc: Global, case: &Case<'_>, each: usize) -> Result<Stage, Trouble>
    requires { 0 < each }
    ensures { IfOk result (IsReady each) }
{
    let files = files_of(alloc, case, each)?;
    let out = sink_of(alloc, case, "out-takes", "out-fails")?;
    let err = sink_of(alloc, case, "err-takes", "err-fails")?;
    Ok(Stage { files, out, err })
}

/// Runs a program with these words on a stage.
pub(crate) fn run_on<R: Threads + Wait + Sync>(
    rt: &R,
    alloc: Global,
    program: Program,
    words: &[String],
    stage: &mut Stage,
) -> Status
    ensures { Keeps program (texts words.now) stage.old stage.new result }
{
    let (files, out, err) = (&mut stage.files, &mut stage.out, &mut stage.err);
    match program {
        Program::Reassign => run(rt, alloc, words, files, out, err, &NoGate),
        Program::Anneal => anneal_run(rt, alloc, words, files, out, err),
    }
}
