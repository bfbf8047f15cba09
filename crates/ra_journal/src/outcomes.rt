ghost use Rattle.std.specs.Prelude.{◌≡◌};
ghost use Rattle.ra_moves.specs.declared.verdicts.Verdict.TheVariants.{Refused};
ghost use Rattle.ra_journal.specs.Packing.{verdict_in};

use crate::halved::{Halved, Quartered};
use ra_base::{Cause, Machine, Process, Resource, Service};
use ra_moves::Verdict;

/// The outcome of a proposal: a verdict in which each cause is a variant beside Done and each long number is split. So
/// it takes 44 bytes and is aligned to four, while a verdict takes 64 and is aligned to 16.
#[derive(Clone, Copy)]
pub(crate) enum Outcome {
    /// The move is done, and the cost after it is this.
    Done(Quartered),
    /// The move is refused; the causes with their numbers are those of `Cause`, in that order.
    Repeat(Process),
    Same(Process),
    Capacity(Machine, Resource, Halved, u32),
    Transient(Machine, Resource, Halved, u32),
    Conflict(Service, Machine),
    Spread(Service, u32, u32),
    Dependency(Service, Service, u32),
    Rise(Halved, Quartered, Quartered),
    Closed(Process, Machine),
}

/// The outcome of a verdict.
#[tactic(auto, unfolding(crate::specs::Packing::verdict_in))]
pub(crate) fn outcome_of(verdict: &Verdict) -> Outcome
    ensures { verdict_in result ≡ verdict.now }
{
    match *verdict {
        Verdict::Done { cost } => Outcome::Done(Quartered::of(cost)),
        Verdict::Refused { cause } => refusal_for(&cause),
    }
}

/// The outcome of a refusal for a cause.
#[tactic(auto, unfolding(crate::specs::Packing::verdict_in))]
fn refusal_for(cause: &Cause) -> Outcome
    ensures { verdict_in result ≡ Refused cause.now }
{
    match *cause {
        Cause::Repeat { process } => Outcome::Repeat(process),
        Cause::Same { process } => Outcome::Same(process),
        Cause::Capacity {
            machine,
            resource,
            used,
            cap,
        } => Outcome::Capacity(machine, resource, Halved::of(used), cap),
        Cause::Transient {
            machine,
            resource,
            used,
            cap,
        } => Outcome::Transient(machine, resource, Halved::of(used), cap),
        Cause::Conflict { service, machine } => Outcome::Conflict(service, machine),
        Cause::Spread {
            service,
            has,
            wants,
        } => Outcome::Spread(service, has, wants),
        Cause::Dependency {
            service,
            needs,
            neighbourhood,
        } => Outcome::Dependency(service, needs, neighbourhood),
        Cause::Rise {
            allowed,
            before,
            after,
        } => Outcome::Rise(
            Halved::of(allowed),
            Quartered::of(before),
            Quartered::of(after),
        ),
        Cause::Closed { process, machine } => Outcome::Closed(process, machine),
    }
}

/// The verdict that an outcome represents.
#[tactic(auto, unfolding(crate::specs::Packing::verdict_in))]
pub(crate) fn verdict_in(outcome: &Outcome) -> Verdict
    ensures { result ≡ verdict_in outcome.now }
{
    let cause = match *outcome {
        Outcome::Done(cost) => {
            return Verdict::Done {
                cost: cost.number(),
            };
        }
        Outcome::Repeat(process) => Cause::Repeat { process },
        Outcome::Same(process) => Cause::Same { process },
        Outcome::Capacity(machine, resource, used, cap) => Cause::Capacity {
            machine,
            resource,
            used: used.number(),
            cap,
        },
        Outcome::Transient(machine, resource, used, cap) => Cause::Transient {
            machine,
            resource,
            used: used.number(),
            cap,
        },
        Outcome::Conflict(service, machine) => Cause::Conflict { service, machine },
        Outcome::Spread(service, has, wants) => Cause::Spread {
            service,
            has,
            wants,
        },
        Outcome::Dependency(service, needs, neighbourhood) => Cause::Dependency {
            service,
            needs,
            neighbourhood,
        },
        Outcome::Rise(allowed, before, after) => Cause::Rise {
            allowed: allowed.number(),
            before: before.number(),
            after: after.number(),
        },
        Outcome::Closed(process, machine) => Cause::Closed { process, machine },
    };
    Verdict::Refused { cause }
}
