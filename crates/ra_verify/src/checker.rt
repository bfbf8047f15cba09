ghost use Rattle.ra_journal.specs.Journals.{opening_in, IsJournal};
ghost use Rattle.ra_worker.specs.AllReplicas.{AreAt};

use ra_journal::Journal;
use ra_worker::Replica;

/// The entries of a report so far, as a journal, and a replica for each worker, which advances to each place at which a
/// plan of the worker was made. It takes its memory when it is made.
pub(crate) struct Checker<'a> {
    pub(crate) journal: Journal<'a>,
    pub(crate) replicas: Vec<Replica<'a>>,
    pub ghost sound: { IsJournal journal },
    pub ghost at: { AreAt (opening_in journal) journal.entries replicas.items },
}

/// Frees all parts in one call, so that the end of an owner is short to prove.
impl Drop for Checker<'_> {
    fn drop(self) {
        let Checker {
            journal: _,
            replicas: _,
        } = self;
    }
}
