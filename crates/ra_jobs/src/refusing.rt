ghost use Rattle.std.specs.Prelude.{◌≡◌, ◌↔◌, ◌≤◌, ◌⊎◌, [], ◌∷◌, IfErr};
ghost use Rattle.std.specs.IoError.{error_kind};
ghost use Rattle.ra_io.specs.Outside.{writing};
ghost use Rattle.ra_report.specs.FaultTexts.{CanBeTold, fault_text, usage_line};
ghost use Rattle.ra_report.specs.Pieces.{joined};
ghost use Rattle.ra_report.specs.Texts.{line_end};
ghost use Rattle.ra_jobs.specs.Ends.{Finishes};
ghost use Rattle.ra_jobs.specs.Files.{Names, names_of};
ghost use Rattle.ra_jobs.specs.Lines.{fault_of, refusal_line};
ghost use Rattle.ra_jobs.specs.Output.{output, Put};
ghost use Rattle.ra_jobs.specs.Refusals.{CanTell};
ghost use Rattle.ra_jobs.specs.Statuses.{status_of};
ghost use Rattle.ra_jobs.specs.declared.refusals.Refusal.TheVariants.{Memory};

use crate::refusals::{File, JobFiles, Refusal};
use crate::status::Status;
use ra_io::Sink;
use ra_report::{Fault, write_fault};
use std::io;
use std::io::ErrorKind;

/// How a job ends: it is done, or its refusal is told. The status is that of the refusal, even if a put fails.
pub fn finish<E: Sink>(err: &mut E, names: &JobFiles<'_>, ended: Result<(), Refusal>) -> Status
    requires { IfErr ended (CanTell (names_of names.now)) }
    ensures { Finishes (names_of names.now) ended (output E.Sink err.old err.new) result }
{
    match ended {
        Ok(()) => Status::Done,
        Err(refusal) => {
            tell(err, names, refusal);
            status(refusal)
        }
    }
}

/// The status of a refusal.
#[tactic(auto, unfolding(crate::specs::Statuses::status_of))]
fn status(refusal: Refusal) -> Status
    ensures { result ≡ status_of refusal }
{
    match refusal {
        Refusal::Read(_) => Status::ReadFault,
        Refusal::Model(_) => Status::BadModel,
        Refusal::Closed(_) => Status::BadClosed,
        Refusal::Assign(_, _) => Status::BadAssignment,
        Refusal::Edits(_) => Status::BadEdits,
        Refusal::Broken(_, _) => Status::Infeasible,
        Refusal::Wrong(_) => Status::Wrong,
        Refusal::Unrepaired(_) => Status::Unrepaired,
        Refusal::Write => Status::WriteFault,
        Refusal::Memory => Status::NoMemory,
    }
}

/// Puts the line of a refusal.
#[tactic(auto, unfolding(crate::specs::Lines::refusal_line))]
fn tell<E: Sink>(err: &mut E, names: &JobFiles<'_>, refusal: Refusal)
    requires { CanTell (names_of names.now) refusal }
    ensures line { Put (writing E.Sink err.old err.new) (refusal_line (names_of names.now) refusal) }
    ensures never_falls { E.faults err.old ≤ E.faults err.new }
{
    put_line(err, &fault(names, refusal))
}

/// The fault of a refusal.
#[tactic(auto, unfolding(crate::specs::Lines::fault_of, ra_report::specs::FaultTexts::fault_text))]
fn fault<'n>(names: &JobFiles<'n>, refusal: Refusal) -> Fault<'n>
    requires { CanTell (names_of names.now) refusal }
    ensures text { fault_text result ≡ fault_text (fault_of (names_of names.now) refusal) }
    ensures told { CanBeTold result }
{
    match refusal {
        Refusal::Read(file) => Fault::Read {
            name: names.name(file),
        },
        Refusal::Model(fault) => Fault::Model { fault },
        Refusal::Closed(fault) => Fault::Closed {
            name: names.name(File::Closed),
            fault,
        },
        Refusal::Assign(role, fault) => Fault::Assign {
            name: names.name(role.file()),
            fault,
        },
        Refusal::Edits(fault) => Fault::Edits {
            name: names.name(File::Edits),
            fault,
        },
        Refusal::Broken(role, cause) => Fault::Infeasible {
            name: names.name(role.file()),
            cause,
        },
        Refusal::Wrong(line) => Fault::Wrong { line },
        Refusal::Unrepaired(cause) => Fault::Unrepaired {
            name: names.name(File::Initial),
            cause,
        },
        Refusal::Write => Fault::Write,
        Refusal::Memory => Fault::Memory,
    }
}

/// Puts the line of a fault, or a front of it if a put fails.
pub fn put_line<E: Sink>(err: &mut E, fault: &Fault<'_>)
    requires { CanBeTold fault.now }
    ensures line { Put (writing E.Sink err.old err.new) (fault_text fault.now) }
    ensures never_falls { E.faults err.old ≤ E.faults err.new }
{
    match write_fault(err, fault) {
        Ok(()) => {}
        Err(_) => {}
    }
}

/// Puts the usage line.
#[tactic(auto, unfolding(ra_report::specs::FaultTexts::fault_text))]
pub fn refuse_words<E: Sink>(err: &mut E) -> Status
    ensures status { result ≡ Status.Usage }
    ensures line { Put (writing E.Sink err.old err.new) (joined (usage_line ∷ line_end ∷ [])) }
    ensures never_falls { E.faults err.old ≤ E.faults err.new }
{
    put_line(err, &Fault::Usage);
    Status::Usage
}

/// Puts the line of refused memory.
#[tactic(auto, unfolding(ra_report::specs::FaultTexts::fault_text, crate::specs::Lines::fault_of, crate::specs::Lines::refusal_line))]
pub fn refuse_memory<E: Sink>(err: &mut E) -> Status
    ensures status { result ≡ Status.NoMemory }
    ensures line { (names : Names) → Put (writing E.Sink err.old err.new) (refusal_line names Memory) }
    ensures never_falls { E.faults err.old ≤ E.faults err.new }
{
    put_line(err, &Fault::Memory);
    Status::NoMemory
}

/// Refuses a command line that could not be read: the system refused memory, or a word is not a text.
pub fn refuse_unread<E: Sink>(err: &mut E, error: &io::Error) -> Status
    ensures status { (result ≡ Status.NoMemory) ⊎ (result ≡ Status.Usage) }
    ensures memory { (result ≡ Status.NoMemory) ↔ (error_kind error.now ≡ ErrorKind.OutOfMemory) }
    ensures memory_line { result ≡ Status.NoMemory → (names : Names) → Put (writing E.Sink err.old err.new) (refusal_line names Refusal.Memory) }
    ensures usage_line { result ≡ Status.Usage → Put (writing E.Sink err.old err.new) (joined (usage_line ∷ line_end ∷ [])) }
    ensures never_falls { E.faults err.old ≤ E.faults err.new }
{
    if error.kind() == ErrorKind::OutOfMemory {
        refuse_memory(err)
    } else {
        refuse_words(err)
    }
}
