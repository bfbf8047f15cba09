ghost use Rattle.std.specs.Prelude.{◌≡◌, ◌≢◌, ◌≤◌, None, OnOk, OnErr, IfOk, IfErr};
ghost use Rattle.ra_bounds.specs.PinnedBounds.{pinned_bound_of};
ghost use Rattle.ra_io.specs.Outside.{LeavesFiles, Reading, writing, Took};
ghost use Rattle.ra_journal.specs.Entries.{worker_count};
ghost use Rattle.ra_journal.specs.Openings.{opening};
ghost use Rattle.ra_model.specs.Assignments.{IsAssignment};
ghost use Rattle.ra_model.specs.Broken.{first_broken};
ghost use Rattle.ra_model.specs.Costs.{parts_of};
ghost use Rattle.ra_report.specs.JournalTexts.{best_state};
ghost use Rattle.ra_report.specs.Summaries.{summary_of};
ghost use Rattle.ra_jobs.specs.Ends.{Does};
ghost use Rattle.ra_jobs.specs.Files.{Names};
ghost use Rattle.ra_jobs.specs.Lines.{refusal_line};
ghost use Rattle.ra_jobs.specs.Output.{output, BrokeOff, Put};
ghost use Rattle.ra_run.specs.Trials.{HoldsTexts, HoldsTrial, IsTrialStart, IsTrialLots, IsSummarized, TrialPrinted, TrialReason, trial_command};

use crate::beginning::Beginning;
use ra_base::{Drawing, Name, NoMemory, Parts};
use ra_bounds::Bound;
use ra_check::{Scratch, parts};
use ra_draws::{Lot, Lots, Source};
use ra_io::{Files, Gate, Sink, SteadyFiles};
use ra_jobs::{JobFiles, Refusal, Start, Status, bound_from, put_line, read_start, refuse_memory};
use ra_report::{Fault, WriteFault, write_summary};
use ra_topology::Topology;
use ra_trial::{TrialText, trial_text};
use ra_worker::{Prepared, Solved as Run};
use std::alloc::Global;
use std::marker::Sync;
use std::sync::Wait;
use std::thread::Threads;

/// Why a trial was not done.
#[derive(Clone, Copy)]
pub(crate) enum TrialFault {
    /// Writing the summary failed.
    Write,
    /// The system refused memory.
    Memory,
}

impl From<NoMemory> for TrialFault {
    ghost use Rattle.std.specs.Prelude.{◌≡◌};
    ghost use Rattle.ra_run.specs.declared.trial.TrialFault.TheVariants.{Memory};

    ghost from_gives = { λ _ e. e ≡ Memory };

    fn from(_: NoMemory) -> TrialFault {
        TrialFault::Memory
    }
}

impl From<WriteFault> for TrialFault {
    ghost use Rattle.std.specs.Prelude.{◌≡◌};
    ghost use Rattle.ra_run.specs.declared.trial.TrialFault.TheVariants.{Write};

    ghost from_gives = { λ _ e. e ≡ Write };

    fn from(_: WriteFault) -> TrialFault {
        TrialFault::Write
    }
}

/// Makes an instance and a start from a number, improves the start by one worker, and prints the summary of its
/// journal. If it can't, it puts one line that says why. It fails only if writing fails or if the system refuses
/// memory.
pub fn trial_run<R: Threads + Wait + Sync, O: Sink, E: Sink, G: Gate>(
    rt: &R,
    alloc: Global,
    number: u64,
    out: &mut O,
    err: &mut E,
    gate: &G,
) -> Status
    ensures { (files : Reading) → LeavesFiles files → Does (trial_command number) files
        (output O.Sink out.old out.new) (output E.Sink err.old err.new) result }
{
    match trial(rt, alloc, number, out, gate) {
        Ok(()) => Status::Done,
        Err(TrialFault::Write) => refuse_write(err),
        Err(TrialFault::Memory) => refuse_memory(err),
    }
}

/// Puts the line of an output that could not be written.
#[tactic(auto, unfolding(ra_report::specs::FaultTexts::fault_text, ra_jobs::specs::Lines::fault_of, ra_jobs::specs::Lines::refusal_line))]
fn refuse_write<E: Sink>(err: &mut E) -> Status
    ensures status { result ≡ Status.WriteFault }
    ensures line { (names : Names) → Put (writing E.Sink err.old err.new) (refusal_line names Refusal.Write) }
    ensures never_falls { E.faults err.old ≤ E.faults err.new }
{
    put_line(err, &Fault::Write);
    Status::WriteFault
}

/// A trial without the line of its refusal.
fn trial<R: Threads + Wait + Sync, O: Sink, G: Gate>(
    rt: &R,
    alloc: Global,
    number: u64,
    out: &mut O,
    gate: &G,
) -> Result<(), TrialFault>
    ensures printed { OnOk result (TrialPrinted number
        (Took (writing O.Sink out.old out.new))) }
    ensures refused { IfErr result (TrialReason (TrialPrinted number
        (BrokeOff (writing O.Sink out.old out.new)))) }
    ensures no_output { IfErr result (λ fault. fault ≢ TrialFault.Write → out.new ≡ out.old) }
    ensures never_falls { O.faults out.old ≤ O.faults out.new }
{
    let lots = trial_lots(alloc, number)?;
    let start = trial_start(alloc, number)?;
    let ended = trial_from(rt, alloc, &start, &lots, out, gate);
    drop(start);
    ended
}

/// The one lot of a number, with its slack.
fn trial_lots(alloc: Global, number: u64) -> Result<Lots, NoMemory>
    ensures { IfOk result (IsTrialLots number) }
{
    let mut lots = Vec::new(alloc);
    lots.push(Lot {
        source: Source::Seed(number),
        budget: 2000,
    })?;
    Ok(Lots::of(1000, Drawing::Two, lots))
}

/// The instance of a number and its start. Both texts are accepted, so this fails only for memory.
fn trial_start(alloc: Global, number: u64) -> Result<Start, NoMemory>
    ensures { IfOk result (λ s. IsTrialStart number s.inst.tables s.initial.items) }
{
    let mut files = trial_files(alloc, number)?;
    let model = Name::make(alloc, "model")?;
    let initial = Name::make(alloc, "start")?;
    let names = JobFiles::of_solve(&model, &initial, None);
    match read_start(alloc, &names, &mut files) {
        Ok(start) => Ok(start),
        Err(refusal) => {
            prove!(matches!(&refusal, Refusal::Memory));
            Err(NoMemory)
        }
    }
}

/// The two texts of a number as files.
fn trial_files(alloc: Global, number: u64) -> Result<SteadyFiles, NoMemory>
    ensures { IfOk result (λ files. HoldsTrial number (⟦<SteadyFiles as Files>⟧.held files)) }
{
    let text = trial_text(alloc, number)?;
    let files = hold(alloc, &text);
    drop(text);
    files
}

/// Two texts as files.
fn hold(alloc: Global, text: &TrialText) -> Result<SteadyFiles, NoMemory>
    ensures { IfOk result (λ files. HoldsTexts (⟦<SteadyFiles as Files>⟧.held files)
        text.now.model.items text.now.start.items) }
{
    let mut files = SteadyFiles::make(alloc)?;
    files.add(alloc, "model", text.model.as_slice())?;
    files.add(alloc, "start", text.start.as_slice())?;
    Ok(files)
}

/// The run of one worker from a feasible list, and its summary.
fn trial_from<R: Threads + Wait + Sync, O: Sink, G: Gate>(
    rt: &R,
    alloc: Global,
    start: &Start,
    lots: &Lots,
    out: &mut O,
    gate: &G,
) -> Result<(), TrialFault>
    requires fits { IsAssignment start.now.inst.tables start.now.initial.items }
    requires unbroken { first_broken start.now.inst.tables start.now.initial.items
        start.now.initial.items ≡ None }
    requires one { worker_count lots.now ≡ 1 }
    ensures printed { OnOk result (IsSummarized
        (opening start.now.inst.tables start.now.initial.items lots.now)
        (Took (writing O.Sink out.old out.new))) }
    ensures refused { IfErr result (TrialReason (IsSummarized
        (opening start.now.inst.tables start.now.initial.items lots.now)
        (BrokeOff (writing O.Sink out.old out.new)))) }
    ensures no_output { IfErr result (λ fault. fault ≢ TrialFault.Write → out.new ≡ out.old) }
    ensures never_falls { O.faults out.old ≤ O.faults out.new }
{
    let Start { inst, initial } = start;
    let mut scratch = Scratch::make(alloc, inst)?;
    let topo = Topology::make(alloc, inst)?;
    let parts = parts(inst, initial, initial, &mut scratch);
    let beginning = Beginning {
        inst,
        topo: &topo,
        initial,
        parts,
    };
    let ended = trial_over(rt, alloc, &beginning, lots, out, gate);
    drop(topo);
    ended
}

/// The run of one worker, and its summary.
fn trial_over<R: Threads + Wait + Sync, O: Sink, G: Gate>(
    rt: &R,
    alloc: Global,
    beginning: &Beginning<'_>,
    lots: &Lots,
    out: &mut O,
    gate: &G,
) -> Result<(), TrialFault>
    requires one { worker_count lots.now ≡ 1 }
    ensures printed { OnOk result (IsSummarized
        (opening beginning.now.inst.now.tables beginning.now.initial.now.items lots.now)
        (Took (writing O.Sink out.old out.new))) }
    ensures refused { IfErr result (TrialReason (IsSummarized
        (opening beginning.now.inst.now.tables beginning.now.initial.now.items lots.now)
        (BrokeOff (writing O.Sink out.old out.new)))) }
    ensures no_output { IfErr result (λ fault. fault ≢ TrialFault.Write → out.new ≡ out.old) }
    ensures never_falls { O.faults out.old ≤ O.faults out.new }
{
    let (inst, initial) = (beginning.inst, beginning.initial);
    let bound = bound_from(alloc, inst, initial)?;
    let prepared = Prepared::make(alloc, inst, beginning.topo, initial, beginning.parts, lots)?;
    let run = prepared.solve(rt, gate);
    let ended = summarize(out, &bound, &run.parts(), &run);
    drop(run);
    ended?;
    Ok(())
}

/// Writes the summary of a run, whose best state has these parts, with this bound.
fn summarize<O: Sink>(
    out: &mut O,
    bound: &Bound,
    best: &Parts,
    run: &Run<'_>,
) -> Result<(), WriteFault>
    requires parts { best.now ≡ parts_of run.now.journal.instance.tables
        run.now.journal.initial.items run.now.best.items }
    requires bound { bound.now ≡ pinned_bound_of run.now.journal.instance.tables
        run.now.journal.initial.items }
    requires best { run.now.best.items ≡ best_state run.now.journal }
    ensures whole { OnOk result (Took (writing O.Sink out.old out.new) (summary_of run.now.journal)) }
    ensures part { OnErr result (BrokeOff (writing O.Sink out.old out.new) (summary_of run.now.journal)) }
    ensures never_falls { O.faults out.old ≤ O.faults out.new }
{
    write_summary(out, best, bound, run.journal())
}
