ghost use Rattle.std.specs.Prelude.{◌≡◌, ◌↔◌, ◌≤◌, ◌⊎◌};
ghost use Rattle.std.specs.IoError.{error_kind};
ghost use Rattle.ra_io.specs.Outside.{writing};
ghost use Rattle.ra_jobs.specs.Files.{Names};
ghost use Rattle.ra_jobs.specs.Lines.{refusal_line};
ghost use Rattle.ra_jobs.specs.Output.{Put};
ghost use Rattle.ra_anneal.specs.Texts.{usage_text};

use crate::text::write_text;
use ra_io::Sink;
use ra_jobs::{Refusal, Status, refuse_memory};
use std::io;
use std::io::ErrorKind;

const USAGE: &str =
    "usage: anneal MODEL INITIAL [--from LIST] [--closed FILE] [--heat HIGH:LOW] [--workers W] SEED:TRIES\n";

/// Puts the usage line, or a front of it if a put fails.
pub(crate) fn refuse_words<E: Sink>(err: &mut E) -> Status
    ensures status { result ≡ Status.Usage }
    ensures line { Put (writing E.Sink err.old err.new) usage_text }
    ensures never_falls { E.faults err.old ≤ E.faults err.new }
{
    match write_text(err, USAGE) {
        Ok(()) => {}
        Err(_) => {}
    }
    Status::Usage
}

/// Refuses a command line that could not be read: the system refused memory, or a word is not a text.
pub fn refuse_unread<E: Sink>(err: &mut E, error: &io::Error) -> Status
    ensures status { (result ≡ Status.NoMemory) ⊎ (result ≡ Status.Usage) }
    ensures memory { (result ≡ Status.NoMemory) ↔ (error_kind error.now ≡ ErrorKind.OutOfMemory) }
    ensures memory_line { result ≡ Status.NoMemory → (names : Names) → Put (writing E.Sink err.old err.new) (refusal_line names Refusal.Memory) }
    ensures usage_line { result ≡ Status.Usage → Put (writing E.Sink err.old err.new) usage_text }
    ensures never_falls { E.faults err.old ≤ E.faults err.new }
{
    if error.kind() == ErrorKind::OutOfMemory {
        refuse_memory(err)
    } else {
        refuse_words(err)
    }
}
