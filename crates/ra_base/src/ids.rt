/// The number of a machine, counted from 0.
#[derive(Clone, Copy, Debug, PartialEq, Eq, PartialOrd, Ord)]
pub struct Machine(pub u32);

/// The number of a process, counted from 0.
#[derive(Clone, Copy, Debug, PartialEq, Eq, PartialOrd, Ord)]
pub struct Process(pub u32);

/// The number of a service, counted from 0.
#[derive(Clone, Copy, Debug, PartialEq, Eq, PartialOrd, Ord)]
pub struct Service(pub u32);

/// The number of a resource, counted from 0.
#[derive(Clone, Copy, Debug, PartialEq, Eq, PartialOrd, Ord)]
pub struct Resource(pub u32);

/// What no other move may have touched before a move commits: a machine or a service. Machines come before services,
/// and both are in the order of their numbers.
#[derive(Clone, Copy, Debug, PartialEq, Eq, PartialOrd, Ord)]
pub enum Guard {
    /// A machine that a move leaves or enters.
    Machine(Machine),
    /// The service of a process that moves, or a service that such a service depends on or serves.
    Service(Service),
}
