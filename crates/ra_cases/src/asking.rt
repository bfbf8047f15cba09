use crate::endings::Ending;

/// A program that the suite runs.
#[derive(Clone, Copy)]
pub(crate) enum Program {
    Reassign,
    Anneal,
}

/// What a case asks for: a program that is run with these command words, over files that give as many bytes at once as
/// it says, if it says so, and how each run has to end.
#[derive(Clone, Copy)]
pub(crate) struct Asked<'c> {
    pub(crate) program: Program,
    pub(crate) words: &'c [String],
    pub(crate) gives: Option<u64>,
    pub(crate) ending: Ending<'c>,
}
