/// What is added to a cost, and what is taken away from it.
#[derive(Clone, Copy)]
pub struct Change {
    pub added: u128,
    pub taken: u128,
}
