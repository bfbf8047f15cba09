/// A lower bound of the cost of every feasible assignment: its two parts, each multiplied by its weights, and their sum.
#[derive(Clone, Copy, Debug, PartialEq, Eq)]
pub struct Bound {
    /// What all processes together require above the safety capacities of all machines together.
    pub load: u128,
    /// The shortfall of all machines together of one available resource against another.
    pub balance: u128,
    /// The sum of the two parts.
    pub total: u128,
}
