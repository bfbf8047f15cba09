use crate::ids::{Machine, Process, Resource, Service};

/// Why a move or an assignment is refused.
#[derive(Clone, Copy, Debug, PartialEq, Eq)]
pub enum Cause {
    /// A step names a process of an earlier step.
    Repeat {
        process: Process,
    },
    /// A step leaves its process where it is.
    Same {
        process: Process,
    },
    /// The use of a resource of a machine, `used`, is above its capacity, `cap`.
    Capacity {
        machine: Machine,
        resource: Resource,
        used: u64,
        cap: u32,
    },
    /// The transient use of a resource of a machine, `used`, is above its capacity, `cap`.
    Transient {
        machine: Machine,
        resource: Resource,
        used: u64,
        cap: u32,
    },
    /// Two processes of a service are on one machine.
    Conflict {
        service: Service,
        machine: Machine,
    },
    /// The processes of a service are in `has` locations, which are fewer than it `wants`.
    Spread {
        service: Service,
        has: u32,
        wants: u32,
    },
    /// A process of a service is in a neighbourhood, given by its label, in which no process of a service that it needs
    /// is.
    Dependency {
        service: Service,
        needs: Service,
        neighbourhood: u32,
    },
    /// The cost rises from `before` to `after`, which is more than the allowance permits. (The shortest field is first,
    /// so that a cause takes 48 bytes and not 64.)
    Rise {
        allowed: u64,
        before: u128,
        after: u128,
    },
    /// A process is put on a machine that is closed.
    Closed {
        process: Process,
        machine: Machine,
    },
}

/// How the words of a proposal name the machines to which a shift may move its process.
#[derive(Clone, Copy, Debug, PartialEq, Eq)]
pub enum Drawing {
    /// Four machines, each named by a word of its own.
    One,
    /// A window of machines, whose start a word names.
    Two,
}
