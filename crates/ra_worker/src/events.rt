ghost use Rattle.std.specs.Prelude.{◌≡◌};
ghost use Rattle.ra_worker.specs.Core.{worker_of_event};

use ra_journal::Reply;

/// An event of the core of a run: a worker takes its turn with the journal.
#[derive(Clone, Copy, Debug, PartialEq, Eq)]
pub enum CoreEvent {
    /// A worker takes in the entries that are new to it, at most 1,024 of them.
    CatchUp { worker: u32 },
    /// A worker plans its next proposal and hands it in.
    Commit { worker: u32 },
}

impl CoreEvent {
    /// The worker whose turn it is.
    #[tactic(auto, unfolding(crate::specs::Core::worker_of_event))]
    pub fn worker(&self) -> u32
        ensures { result ≡ worker_of_event self.now }
    {
        match self {
            CoreEvent::CatchUp { worker } => *worker,
            CoreEvent::Commit { worker } => *worker,
        }
    }
}

/// The answer to a worker.
#[derive(Clone, Copy, Debug, PartialEq, Eq)]
pub enum CoreReply {
    /// It has taken in this number of entries.
    Took { count: u64 },
    /// The answer to its plan.
    Answer { reply: Reply },
    /// It has used its budget, or has not taken in all of its own entries. Nothing changed.
    Skipped,
}
