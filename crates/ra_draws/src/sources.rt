use ra_base::Fixed;

/// Where the words of a worker come from.
#[derive(Drop)]
pub enum Source {
    /// The words of the generator xoshiro256++ from this seed.
    Seed(u64),
    /// These words, eight for each proposal.
    Written(Fixed<u64>),
}

/// What a worker gets: the source of its words, and how many proposals it makes.
#[derive(Drop)]
pub struct Lot {
    /// Where its words come from.
    pub source: Source,
    /// How many proposals it makes.
    pub budget: u64,
}
