//! Laws of the problem's words: each function does nothing, and its contract is a law that was proved.
ghost use Rattle.ra_model.specs.Laws.{BrokenNamesConstraints, AllSumsFit};
ghost use Rattle.ra_model.specs.WholeCosts.{BalanceIsWhole};
ghost use Rattle.ra_model.specs.MachineCosts.{LoadIsByMachine, BalanceIsByMachine, AllMachineCostsFit};
ghost use Rattle.ra_laws.specs.ModelLaws.{BrokenNamesAll, OneShareChanges, CountsGoOverMembers};

/// An assignment for which no broken constraint is named is feasible, and for a feasible one none is named.
pub fn broken_names_all()
    ensures { BrokenNamesAll }
{}

/// What is named as broken is one of the six constraints.
pub fn broken_names_constraints()
    ensures { BrokenNamesConstraints }
{}

/// If one process moves to another machine, a sum over the processes changes only by its share.
pub fn one_share_changes()
    ensures { OneShareChanges }
{}

/// A count over the processes of a service may go only over a list of them.
pub fn counts_go_over_members()
    ensures { CountsGoOverMembers }
{}

/// No sum of an instance is too large for a program's numbers.
pub fn all_sums_fit()
    ensures { AllSumsFit }
{}

/// The load cost is the sum over the machines of what each adds to it.
pub fn load_is_by_machine()
    ensures { LoadIsByMachine }
{}

/// The balance cost is the sum over the machines of what each adds to it.
pub fn balance_is_by_machine()
    ensures { BalanceIsByMachine }
{}

/// The balance cost of a feasible assignment is what the challenge's formula gives in whole numbers.
pub fn balance_is_whole()
    ensures { BalanceIsWhole }
{}

/// No cost of a machine is too large for a program's numbers.
pub fn all_machine_costs_fit()
    ensures { AllMachineCostsFit }
{}
