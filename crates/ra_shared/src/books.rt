ghost use Rattle.ra_journal.specs.Journals.{IsJournal};

use ra_base::Assignment;
use ra_draws::Lots;
use ra_journal::{Entry, Journal};
use ra_model::Instance;
use ra_turn::{Pass, Story};

/// What a journal was opened with. Only clauses name this type; no value of it is made.
pub struct Opened {
    /// The instance.
    pub inst: Instance,
    /// The initial assignment.
    pub a0: Assignment,
    /// The lots of the workers.
    pub lots: Lots,
}

/// A journal as the value that a lock protects: its notes are its entries. It is in a heap block of its own, so that a
/// turn moves only its address.
#[derive(Drop)]
pub struct Book<'a> {
    pub(crate) journal: Box<Journal<'a>>,
    pub ghost sound: { IsJournal journal.value },
}

/// The right of one worker to take turns at the journal. It knows which entries the worker has seen and made.
pub type WorkerPass<'a> = Pass<Book<'a>>;

impl<'a> Story for Book<'a> {
    ghost use Rattle.ra_shared.specs.Books.{opened_by, notes_in, entry_touches};

    type Note = Entry;

    type Opening = Opened;

    ghost opening = { opened_by };

    ghost notes = { notes_in };

    ghost author = { λ entry. entry.worker };

    ghost touches = { entry_touches };

    fn note_count(&self) -> u64 {
        self.journal.len()
    }
}
