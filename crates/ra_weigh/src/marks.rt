/// Which of its marks is read of a machine.
#[derive(Clone, Copy)]
pub(crate) enum Mark {
    /// Its number.
    OnMachine,
    /// The label of its location.
    InLocation,
    /// The label of its neighbourhood.
    InNeighbourhood,
}
