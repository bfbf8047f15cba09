ghost use Rattle.std.specs.Prelude.{◌≡◌, ◌≢◌, ◌≤◌, IfSome, OnOk, IfErr};
ghost use Rattle.std.specs.Option.{option_copied};
ghost use Rattle.ra_io.specs.Outside.{reading, writing, Took};
ghost use Rattle.ra_model.specs.Assignments.{IsAssignment};
ghost use Rattle.ra_words.specs.Words.{texts};
ghost use Rattle.ra_jobs.specs.Commands.{over};
ghost use Rattle.ra_jobs.specs.Ends.{Does, DoesOutside, Leaves, Tries};
ghost use Rattle.ra_jobs.specs.Files.{names_of, IsNamed};
ghost use Rattle.ra_jobs.specs.Output.{output, BrokeOff};
ghost use Rattle.ra_jobs.specs.Stages.{JudgeReason};
ghost use Rattle.ra_anneal.specs.Commands.{UsageComes, command_of, text_command};
ghost use Rattle.ra_anneal.specs.Headline.{anneal_names, annealing};
ghost use Rattle.ra_anneal.specs.Jobs.{job_of};
ghost use Rattle.ra_anneal.specs.Said.{said};
ghost use Rattle.ra_anneal.specs.Searching.{from_in, IsAnnealed};

use crate::given::{Given, judge_given, read_given};
use crate::refusing::refuse_words;
use crate::telling::{HELP, VERSION, tell};
use crate::text::write_annealed;
use crate::words::{Job, read_words};
use ra_base::Name;
use ra_io::{Files, Sink};
use ra_jobs::{File, JobFiles, Outside, Refusal, Status, bound_from, finish, refuse_memory};
use ra_search::{Beginning, Schedule, search};
use ra_topology::Topology;
use ra_words::WordsFault;
use std::alloc::Global;
use std::marker::Sync;
use std::sync::Wait;
use std::thread::Threads;

/// Does the job of the command words, which leave out the program's name: it looks for a list that costs less, or tells
/// how the program is called, or its version. All other words are a usage fault. If it ends with the status Done, its
/// output is printed and the error sink takes nothing; if it ends with another status, the error sink takes one line that
/// says why. What a search prints is `AnnealPrinted`.
pub fn anneal_run<R: Threads + Wait + Sync, F: Files, O: Sink, E: Sink>(
    rt: &R,
    alloc: Global,
    words: &[String],
    files: &mut F,
    out: &mut O,
    err: &mut E,
) -> Status
    ensures usage { UsageComes (job_of (texts words.now))
        (output O.Sink out.old out.new) (output E.Sink err.old err.new) result }
    ensures does { IfSome (job_of (texts words.now)) (λ says. Does (command_of says)
        (reading F.Files files.old files.new) (output O.Sink out.old out.new)
        (output E.Sink err.old err.new) result) }
    ensures leaves { Leaves (reading F.Files files.old files.new)
        (output O.Sink out.old out.new) (output E.Sink err.old err.new) }
{
    match read_words(alloc, words) {
        Ok(job) => {
            let status = do_job(rt, alloc, &job, Outside { files, out, err });
            drop(job);
            status
        }
        Err(WordsFault::Usage) => refuse_words(err),
        Err(WordsFault::NoMemory) => refuse_memory(err),
    }
}

/// Does a job.
fn do_job<R: Threads + Wait + Sync, F: Files, O: Sink, E: Sink>(
    rt: &R,
    alloc: Global,
    job: &Job,
    outside: Outside<'_, F, O, E>,
) -> Status
    ensures { DoesOutside F.Files O.Sink E.Sink (command_of (said job.now))
        outside.entry outside.exit result }
{
    match job {
        Job::Help => tell_job(HELP, outside),
        Job::Version => tell_job(VERSION, outside),
        Job::Anneal {
            model,
            initial,
            from,
            closed,
            schedule,
        } => {
            let names = files_of(model, initial, from.as_ref(), closed.as_ref());
            anneal_job(rt, alloc, &names, schedule, outside)
        }
    }
}

/// Prints a text over the outside of a job.
fn tell_job<F: Files, O: Sink, E: Sink>(text: &str, outside: Outside<'_, F, O, E>) -> Status
    ensures { DoesOutside F.Files O.Sink E.Sink (text_command text.now)
        outside.entry outside.exit result }
{
    let Outside { files: _, out, err } = outside;
    tell(text, out, err)
}

/// The files of a search.
fn files_of<'n>(
    model: &'n Name,
    initial: &'n Name,
    from: Option<&'n Name>,
    closed: Option<&'n Name>,
) -> JobFiles<'n>
    ensures names { names_of result ≡ anneal_names model.now initial.now
        (option_copied from.entry) (option_copied closed.entry) }
    ensures initial { IsNamed (names_of result) File.Initial }
{
    JobFiles {
        changed: from,
        ..JobFiles::of_solve(model, initial, closed)
    }
}

/// Looks for a list that costs less, over the files of these names, and prints what it has found. If it can't, it puts
/// one line that says why.
fn anneal_job<R: Threads + Wait + Sync, F: Files, O: Sink, E: Sink>(
    rt: &R,
    alloc: Global,
    names: &JobFiles<'_>,
    schedule: &Schedule,
    outside: Outside<'_, F, O, E>,
) -> Status
    requires initial { IsNamed (names_of names.now) File.Initial }
    ensures { DoesOutside F.Files O.Sink E.Sink (over (annealing (names_of names.now)))
        outside.entry outside.exit result }
{
    let Outside { files, out, err } = outside;
    let ended = anneal(rt, alloc, names, schedule, files, out);
    finish(err, names, ended)
}

/// Looks for a list that costs less, and prints it.
fn anneal<R: Threads + Wait + Sync, F: Files, O: Sink>(
    rt: &R,
    alloc: Global,
    names: &JobFiles<'_>,
    schedule: &Schedule,
    files: &mut F,
    out: &mut O,
) -> Result<(), Refusal>
    requires initial { IsNamed (names_of names.now) File.Initial }
    ensures { Tries (over (annealing (names_of names.now)))
        (reading F.Files files.old files.new) (output O.Sink out.old out.new) result }
{
    let given = read_given(alloc, names, files)?;
    let ended = anneal_from(rt, alloc, &given, schedule, out);
    drop(given);
    ended
}

/// The search and its text, if both lists are feasible.
fn anneal_from<R: Threads + Wait + Sync, O: Sink>(
    rt: &R,
    alloc: Global,
    given: &Given,
    schedule: &Schedule,
    out: &mut O,
) -> Result<(), Refusal>
    requires initial { IsAssignment given.now.inst.tables given.now.initial.items }
    requires from { IsAssignment given.now.inst.tables (from_in given.now) }
    ensures printed { OnOk result (IsAnnealed given.now.inst.tables given.now.initial.items
        (from_in given.now) (Took (writing O.Sink out.old out.new))) }
    ensures refused { IfErr result (JudgeReason given.now.inst.tables given.now.initial.items
        (from_in given.now) (IsAnnealed given.now.inst.tables given.now.initial.items
        (from_in given.now) (BrokeOff (writing O.Sink out.old out.new)))) }
    ensures no_output { IfErr result (λ refusal. refusal ≢ Refusal.Write → out.new ≡ out.old) }
    ensures out_never_falls { O.faults out.old ≤ O.faults out.new }
{
    let costs = judge_given(alloc, given)?;
    let topo = Topology::make(alloc, &given.inst)?;
    let beginning = Beginning {
        inst: &given.inst,
        topo: &topo,
        initial: &given.initial,
        start: costs.start,
        from: given.from(),
        from_parts: costs.from,
    };
    let ended = anneal_over(rt, alloc, &beginning, schedule, out);
    drop(topo);
    ended
}

/// The search and its text. The bound is computed first, so that after the search only writing can fail.
fn anneal_over<R: Threads + Wait + Sync, O: Sink>(
    rt: &R,
    alloc: Global,
    beginning: &Beginning<'_>,
    schedule: &Schedule,
    out: &mut O,
) -> Result<(), Refusal>
    ensures printed { OnOk result (IsAnnealed beginning.now.inst.now.tables
        beginning.now.initial.now.items beginning.now.from.now.items
        (Took (writing O.Sink out.old out.new))) }
    ensures refused { IfErr result (JudgeReason beginning.now.inst.now.tables
        beginning.now.initial.now.items beginning.now.from.now.items
        (IsAnnealed beginning.now.inst.now.tables beginning.now.initial.now.items
        beginning.now.from.now.items (BrokeOff (writing O.Sink out.old out.new)))) }
    ensures no_output { IfErr result (λ refusal. refusal ≢ Refusal.Write → out.new ≡ out.old) }
    ensures out_never_falls { O.faults out.old ≤ O.faults out.new }
{
    let bound = bound_from(alloc, beginning.inst, beginning.initial)?;
    let found = search(rt, alloc, beginning, schedule)?;
    let ended = write_annealed(
        out,
        &found.parts,
        bound.total,
        &found.told,
        &found.best,
        &found.last,
    );
    drop(found);
    ended?;
    Ok(())
}
