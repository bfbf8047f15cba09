/// How a search goes: its words, its tries, its heats and its workers.
#[derive(Clone, Copy, Debug, PartialEq, Eq)]
pub struct Schedule {
    /// The seed of all words.
    pub seed: u64,
    /// How many tries all workers make together.
    pub tries: u64,
    /// From which heat to which it cools down, in units of cost; if there are none it chooses.
    pub heat: Option<(u64, u64)>,
    /// How many workers there are.
    pub workers: u32,
}
