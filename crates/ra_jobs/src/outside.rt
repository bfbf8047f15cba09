/// The outside of a job: its files, its output, and the sink that takes the line of its refusal.
#[derive(Drop)]
pub struct Outside<'o, F, O, E> {
    pub files: &'o mut F,
    pub out: &'o mut O,
    pub err: &'o mut E,
}
