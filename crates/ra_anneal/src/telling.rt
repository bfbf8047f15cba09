ghost use Rattle.std.specs.Prelude.{◌≡◌, ◌≤◌};
ghost use Rattle.ra_io.specs.Outside.{writing, Reading, LeavesFiles};
ghost use Rattle.ra_jobs.specs.Ends.{Does};
ghost use Rattle.ra_jobs.specs.Files.{Names};
ghost use Rattle.ra_jobs.specs.Lines.{refusal_line};
ghost use Rattle.ra_jobs.specs.Output.{output, Put};
ghost use Rattle.ra_anneal.specs.Commands.{text_command};

use crate::text::write_text;
use ra_io::Sink;
use ra_jobs::{Refusal, Status, put_line};
use ra_report::Fault;

/// How the program is called.
pub(crate) const HELP: &str =
    "usage: anneal MODEL INITIAL [--from LIST] [--closed FILE] [--heat HIGH:LOW] [--workers W] SEED:TRIES\n\n  --from LIST      the list with which the search begins; INITIAL if it isn't given\n  --closed FILE    machines that nobody may enter\n  --heat HIGH:LOW  by how much the cost may rise, at first and in the end; chosen if it isn't given\n  --workers W      how many workers search, 1 to 16; 1 if it isn't given\n  SEED:TRIES       the seed of the random words, and how many tries all workers make together, at most 10^12\n\nThe options come in this order.\n";

/// The version of the program.
pub(crate) const VERSION: &str = "anneal 2.0.0\n";

/// Prints a text. It reads no file, and fails only if writing fails.
pub(crate) fn tell<O: Sink, E: Sink>(text: &str, out: &mut O, err: &mut E) -> Status
    ensures { (files : Reading) → LeavesFiles files → Does (text_command text.now) files
        (output O.Sink out.old out.new) (output E.Sink err.old err.new) result }
{
    match write_text(out, text) {
        Ok(()) => Status::Done,
        Err(_) => refuse_write(err),
    }
}

/// Puts the line of an output that could not be written.
#[tactic(auto, unfolding(ra_report::specs::FaultTexts::fault_text, ra_jobs::specs::Lines::fault_of, ra_jobs::specs::Lines::refusal_line))]
fn refuse_write<E: Sink>(err: &mut E) -> Status
    ensures status { result ≡ Status.WriteFault }
    ensures line { (names : Names) → Put (writing E.Sink err.old err.new) (refusal_line names Refusal.Write) }
    ensures never_falls { E.faults err.old ≤ E.faults err.new }
{
    put_line(err, &Fault::Write);
    Status::WriteFault
}
