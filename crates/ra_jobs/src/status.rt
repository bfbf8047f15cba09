ghost use Rattle.std.specs.Prelude.{◌≡◌};
ghost use Rattle.ra_jobs.specs.Statuses.{status_number};

/// How a job ended.
#[derive(Clone, Copy, Debug, PartialEq, Eq)]
pub enum Status {
    /// The output was written whole.
    Done,
    /// The words are not a job.
    Usage,
    /// Reading a file failed.
    ReadFault,
    /// The model file is not a model.
    BadModel,
    /// A file is not an assignment for the model.
    BadAssignment,
    /// A list breaks a constraint.
    Infeasible,
    /// Writing the output failed.
    WriteFault,
    /// The system refused memory.
    NoMemory,
    /// The closed list is not one for the model.
    BadClosed,
    /// A line of a report is wrong.
    Wrong,
    /// The last list of a repair breaks a constraint.
    Unrepaired,
    /// The edits file has no edits for the model.
    BadEdits,
}

impl Status {
    /// The exit status of the program.
    #[tactic(auto, unfolding(crate::specs::Statuses::status_number))]
    pub fn number(self) -> u8
        ensures { result ≡ status_number self }
    {
        match self {
            Status::Done => 0,
            Status::Usage => 2,
            Status::ReadFault => 3,
            Status::BadModel => 4,
            Status::BadAssignment => 5,
            Status::Infeasible => 6,
            Status::WriteFault => 7,
            Status::NoMemory => 8,
            Status::BadClosed => 10,
            Status::Wrong => 9,
            Status::Unrepaired => 11,
            Status::BadEdits => 12,
        }
    }
}
