ghost use Rattle.std.specs.Prelude.{◌≡◌};
ghost use Rattle.std.specs.Option.{option_copied};
ghost use Rattle.ra_jobs.specs.Files.{file_of, name_of, names_of, IsNamed, EndsAt, bound_names, solve_names, check_names, verify_names, edit_names};

use ra_assign::{AssignFault, ClosedFault};
use ra_base::{Cause, Name, NoMemory};
use ra_edit_read::EditsFault;
use ra_model_read::ModelFault;
use ra_report::WriteFault;

/// A file of a job.
#[derive(Clone, Copy)]
pub enum File {
    Model,
    Closed,
    Initial,
    Changed,
    Report,
    Edits,
}

/// One of the two lists of a job: the initial one, from which processes move, or the one that is judged, which is the
/// new list of a check and the current list of edits.
#[derive(Clone, Copy)]
pub enum Role {
    Initial,
    Changed,
}

impl Role {
    /// The file of the list.
    pub(crate) fn file(self) -> File
        ensures { result ≡ file_of self }
    {
        match self {
            Role::Initial => File::Initial,
            Role::Changed => File::Changed,
        }
    }
}

/// Why a job was not done, in the order in which the causes are found. A cause in the initial list comes first.
#[derive(Clone, Copy)]
pub enum Refusal {
    /// Reading a file failed.
    Read(File),
    /// The model file is not a model.
    Model(ModelFault),
    /// The closed list is not one for the model.
    Closed(ClosedFault),
    /// This list is not an assignment for the model.
    Assign(Role, AssignFault),
    /// The edits file has no edits for the model.
    Edits(EditsFault),
    /// This list breaks a constraint.
    Broken(Role, Cause),
    /// This line of the report is wrong.
    Wrong(u64),
    /// The last list of a repair breaks a constraint.
    Unrepaired(Cause),
    /// Writing the output failed.
    Write,
    /// The system refused memory.
    Memory,
}

impl From<NoMemory> for Refusal {
    ghost use Rattle.std.specs.Prelude.{◌≡◌};
    ghost use Rattle.ra_jobs.specs.declared.refusals.Refusal.TheVariants.{Memory};

    ghost from_gives = { λ _ refusal. refusal ≡ Memory };

    fn from(_: NoMemory) -> Refusal {
        Refusal::Memory
    }
}

impl From<WriteFault> for Refusal {
    ghost use Rattle.std.specs.Prelude.{◌≡◌};
    ghost use Rattle.ra_jobs.specs.declared.refusals.Refusal.TheVariants.{Write};

    ghost from_gives = { λ _ refusal. refusal ≡ Write };

    fn from(_: WriteFault) -> Refusal {
        Refusal::Write
    }
}

impl From<ModelFault> for Refusal {
    ghost use Rattle.std.specs.Prelude.{◌≡◌};
    ghost use Rattle.ra_jobs.specs.Stages.{model_as};

    ghost from_gives = { λ fault refusal. refusal ≡ model_as fault };

    fn from(fault: ModelFault) -> Refusal {
        match fault {
            ModelFault::ReadFault => Refusal::Read(File::Model),
            ModelFault::NoMemory => Refusal::Memory,
            fault => Refusal::Model(fault),
        }
    }
}

impl From<ClosedFault> for Refusal {
    ghost use Rattle.std.specs.Prelude.{◌≡◌};
    ghost use Rattle.ra_jobs.specs.Stages.{closed_as};

    ghost from_gives = { λ fault refusal. refusal ≡ closed_as fault };

    fn from(fault: ClosedFault) -> Refusal {
        match fault {
            ClosedFault::ReadFault => Refusal::Read(File::Closed),
            ClosedFault::NoMemory => Refusal::Memory,
            fault => Refusal::Closed(fault),
        }
    }
}

/// The names of a job's files, borrowed from the job. A file that the job doesn't have has no name here.
#[derive(Clone, Copy)]
pub struct JobFiles<'n> {
    pub model: &'n Name,
    pub closed: Option<&'n Name>,
    pub initial: Option<&'n Name>,
    pub changed: Option<&'n Name>,
    pub report: Option<&'n Name>,
    pub edits: Option<&'n Name>,
}

impl<'n> JobFiles<'n> {
    /// The files of `bound`.
    pub fn of_bound(
        model: &'n Name,
        initial: Option<&'n Name>,
        closed: Option<&'n Name>,
    ) -> JobFiles<'n>
        ensures names { names_of result ≡ bound_names model.now (option_copied initial.entry)
            (option_copied closed.entry) }
        ensures last { EndsAt (names_of result) File.Initial }
    {
        JobFiles {
            model,
            closed,
            initial,
            changed: None,
            report: None,
            edits: None,
        }
    }

    /// The files of `solve` and of `repair`.
    pub fn of_solve(model: &'n Name, initial: &'n Name, closed: Option<&'n Name>) -> JobFiles<'n>
        ensures names { names_of result ≡ solve_names model.now initial.now
            (option_copied closed.entry) }
        ensures initial { IsNamed (names_of result) File.Initial }
        ensures last { EndsAt (names_of result) File.Initial }
    {
        JobFiles::of_bound(model, Some(initial), closed)
    }

    /// The files of `check`.
    pub fn of_check(
        model: &'n Name,
        initial: &'n Name,
        changed: &'n Name,
        closed: Option<&'n Name>,
    ) -> JobFiles<'n>
        ensures names { names_of result ≡ check_names model.now initial.now changed.now
            (option_copied closed.entry) }
        ensures initial { IsNamed (names_of result) File.Initial }
        ensures changed { IsNamed (names_of result) File.Changed }
    {
        JobFiles {
            changed: Some(changed),
            ..JobFiles::of_solve(model, initial, closed)
        }
    }

    /// The files of `verify`.
    pub fn of_verify(
        model: &'n Name,
        initial: &'n Name,
        report: &'n Name,
        closed: Option<&'n Name>,
    ) -> JobFiles<'n>
        ensures names { names_of result ≡ verify_names model.now initial.now report.now
            (option_copied closed.entry) }
        ensures initial { IsNamed (names_of result) File.Initial }
        ensures alone { IsNamed (names_of result) File.Changed → ⊥ }
        ensures report { IsNamed (names_of result) File.Report }
    {
        JobFiles {
            report: Some(report),
            ..JobFiles::of_solve(model, initial, closed)
        }
    }

    /// The files of `edit`.
    pub fn of_edit(
        model: &'n Name,
        initial: &'n Name,
        current: &'n Name,
        edits: &'n Name,
        closed: Option<&'n Name>,
    ) -> JobFiles<'n>
        ensures names { names_of result ≡ edit_names model.now initial.now current.now edits.now
            (option_copied closed.entry) }
        ensures initial { IsNamed (names_of result) File.Initial }
        ensures changed { IsNamed (names_of result) File.Changed }
        ensures edits { IsNamed (names_of result) File.Edits }
        ensures last { EndsAt (names_of result) File.Edits }
    {
        JobFiles {
            edits: Some(edits),
            ..JobFiles::of_check(model, initial, current, closed)
        }
    }

    /// The name of a file that the job has.
    #[tactic(auto, unfolding(crate::specs::Files::name_of))]
    pub fn name(&self, file: File) -> &'n Name
        requires { IsNamed (names_of self.now) file }
        ensures { result.now ≡ name_of (names_of self.now) file }
    {
        let named = match file {
            File::Model => Some(self.model),
            File::Closed => self.closed,
            File::Initial => self.initial,
            File::Changed => self.changed,
            File::Report => self.report,
            File::Edits => self.edits,
        };
        match named {
            Some(name) => name,
            None => unreachable!(),
        }
    }
}
