use ra_base::NoMemory;
use thiserror::Error;

/// What a number of a model file means. The fields of a file follow one another in a fixed order.
#[derive(Clone, Copy, Debug, PartialEq, Eq)]
pub enum Field {
    /// How many resources there are.
    ResourceCount,
    /// Whether a resource is transient, 0 or 1.
    Transient,
    /// The weight of a resource's load cost.
    LoadWeight,
    /// How many machines there are.
    MachineCount,
    /// The label of a machine's neighbourhood.
    Neighbourhood,
    /// The label of a machine's location.
    Location,
    /// The capacity of a machine for a resource.
    Capacity,
    /// The safety capacity of a machine for a resource.
    Safety,
    /// What the way from one machine to another costs.
    MoveCost,
    /// How many services there are.
    ServiceCount,
    /// How many locations a service needs.
    SpreadMin,
    /// How many dependencies a service has.
    DependencyCount,
    /// A service on which a service depends.
    Dependency,
    /// How many processes there are.
    ProcessCount,
    /// The service of a process.
    ProcessService,
    /// What a process requires of a resource.
    Requirement,
    /// What it costs to move a process.
    ProcessCost,
    /// How many balance objectives there are.
    BalanceCount,
    /// The first resource of a balance objective.
    BalanceFirst,
    /// The second resource of a balance objective.
    BalanceSecond,
    /// The target of a balance objective.
    BalanceTarget,
    /// The weight of a balance objective.
    BalanceWeight,
    /// The weight of the process cost.
    ProcessWeight,
    /// The weight of the service cost.
    ServiceWeight,
    /// The weight of the machine cost.
    MachineWeight,
}

/// Why a model file is refused: the first thing that is wrong with it, or a cause outside it.
#[derive(Clone, Copy, Debug, PartialEq, Eq, Error)]
pub enum ModelFault {
    /// A fetch failed, and the count of faults of the file rose.
    #[error("read fault")]
    ReadFault,
    /// The byte at a place is neither a digit nor a blank.
    #[error("byte at {at} is neither a digit nor a blank")]
    BadByte {
        /// The place of the byte.
        at: u64,
        /// The byte.
        byte: u8,
    },
    /// The number that begins at a place is too large.
    #[error("number too large at {at}")]
    TooLarge {
        /// The place of its first digit.
        at: u64,
    },
    /// The file has more bytes than the reader takes.
    #[error("too long")]
    TooLong,
    /// The file ends before this field.
    #[error("{what:?} is missing")]
    Missing {
        /// The field.
        what: Field,
        /// Which of the fields of this kind it is, from 0.
        item: u64,
    },
    /// A count or a reference is not within its limits.
    #[error("number at {at} is not within its limits")]
    Range {
        /// The field.
        what: Field,
        /// The place of the number.
        at: u64,
        /// The number.
        value: u32,
        /// The least allowed number.
        least: u32,
        /// The most allowed number.
        most: u32,
    },
    /// A transient flag is neither 0 nor 1.
    #[error("flag at {at} is neither 0 nor 1")]
    Flag {
        /// The place of the number.
        at: u64,
        /// The number.
        value: u32,
    },
    /// A number follows the last field.
    #[error("extra number at {at}")]
    Extra {
        /// The place of the number.
        at: u64,
    },
    /// The system refused memory.
    #[error("out of memory")]
    NoMemory,
}

impl From<NoMemory> for ModelFault {
    ghost use Rattle.std.specs.Prelude.{◌≡◌};
    ghost use Rattle.ra_model_read.specs.declared.faults.ModelFault.TheVariants.{NoMemory};

    ghost from_gives = { λ _ e. e ≡ NoMemory };

    fn from(_: NoMemory) -> ModelFault {
        ModelFault::NoMemory
    }
}
