ghost use Rattle.std.specs.Prelude.{◌≡◌, IfOk, IfErr};
ghost use Rattle.ra_check.specs.Made.{IsMadeFor};
ghost use Rattle.ra_io.specs.Outside.{LeavesFiles, reading};
ghost use Rattle.ra_jobs.specs.Files.{names_of, IsNamed};
ghost use Rattle.ra_jobs.specs.Refusals.{Reason, Nothing};
ghost use Rattle.ra_jobs.specs.Stages.{JudgeReason};
ghost use Rattle.ra_model.specs.Assignments.{IsAssignment};
ghost use Rattle.ra_model.specs.Costs.{parts_of};
ghost use Rattle.ra_model.specs.Feasible.{Feasible};
ghost use Rattle.ra_anneal.specs.Searching.{from_in, IsGiven, AreFeasible};

use ra_base::{Assignment, Parts};
use ra_check::{Scratch, first_broken, parts};
use ra_io::Files;
use ra_jobs::{
    File, JobFiles, Lists, Refusal, Role, Start, judge_start, read_instance, read_lists, read_start,
};
use ra_model::Instance;
use std::alloc::Global;

/// What a search is given: an instance, the list from which processes move, and the list with which it begins, if that
/// is another one.
#[derive(Drop)]
pub(crate) struct Given {
    pub(crate) inst: Instance,
    pub(crate) initial: Assignment,
    pub(crate) from: Option<Assignment>,
}

/// The parts of the costs of the two lists.
#[derive(Clone, Copy)]
pub(crate) struct Costs {
    pub(crate) start: Parts,
    pub(crate) from: Parts,
}

impl Given {
    ghost use Rattle.ra_anneal.specs.Searching.{from_in};

    /// The list with which the search begins.
    pub(crate) fn from(&self) -> &Assignment
        ensures { result.now.items ≡ from_in self.now }
    {
        match &self.from {
            Some(list) => list,
            None => &self.initial,
        }
    }
}

/// The instance and the lists, if all files are accepted: the model, the closed list, the initial list, and the list with
/// which the search begins.
pub(crate) fn read_given<F: Files>(
    alloc: Global,
    names: &JobFiles<'_>,
    files: &mut F,
) -> Result<Given, Refusal>
    requires initial { IsNamed (names_of names.now) File.Initial }
    ensures read { IfOk result (IsGiven (F.held files.old) (names_of names.now)) }
    ensures refused { IfErr result (Reason (F.held files.old) (names_of names.now)
        (F.faults files.old) (F.faults files.new) Nothing) }
    ensures leaves { LeavesFiles (reading F.Files files.old files.new) }
{
    match names.changed {
        None => read_one(alloc, names, files),
        Some(_) => read_both(alloc, names, files),
    }
}

/// The instance and the initial list, with which the search begins.
fn read_one<F: Files>(alloc: Global, names: &JobFiles<'_>, files: &mut F) -> Result<Given, Refusal>
    requires initial { IsNamed (names_of names.now) File.Initial }
    requires alone { IsNamed (names_of names.now) File.Changed → ⊥ }
    ensures read { IfOk result (IsGiven (F.held files.old) (names_of names.now)) }
    ensures refused { IfErr result (Reason (F.held files.old) (names_of names.now)
        (F.faults files.old) (F.faults files.new) Nothing) }
    ensures leaves { LeavesFiles (reading F.Files files.old files.new) }
{
    let Start { inst, initial } = read_start(alloc, names, files)?;
    Ok(Given {
        inst,
        initial,
        from: None,
    })
}

/// The instance, the initial list, and the list with which the search begins.
fn read_both<F: Files>(alloc: Global, names: &JobFiles<'_>, files: &mut F) -> Result<Given, Refusal>
    requires initial { IsNamed (names_of names.now) File.Initial }
    requires changed { IsNamed (names_of names.now) File.Changed }
    ensures read { IfOk result (IsGiven (F.held files.old) (names_of names.now)) }
    ensures refused { IfErr result (Reason (F.held files.old) (names_of names.now)
        (F.faults files.old) (F.faults files.new) Nothing) }
    ensures leaves { LeavesFiles (reading F.Files files.old files.new) }
{
    let inst = read_instance(alloc, files, names.model, names.closed)?;
    let Lists { initial, changed } = read_lists(alloc, files, names, &inst)?;
    Ok(Given {
        inst,
        initial,
        from: Some(changed),
    })
}

/// The parts of the costs of both lists, if both are feasible from the initial one. Else the refusal names the list that
/// breaks a constraint, the initial one first, and what it breaks; or the system refused memory.
pub(crate) fn judge_given(alloc: Global, given: &Given) -> Result<Costs, Refusal>
    requires initial { IsAssignment given.now.inst.tables given.now.initial.items }
    requires from { IsAssignment given.now.inst.tables (from_in given.now) }
    ensures passes { IfOk result (AreFeasible given.now.inst.tables given.now.initial.items
        (from_in given.now)) }
    ensures refused { IfErr result (JudgeReason given.now.inst.tables given.now.initial.items
        (from_in given.now) ⊥) }
{
    let mut scratch = judge_start(alloc, &given.inst, &given.initial)?;
    let start = parts(&given.inst, &given.initial, &given.initial, &mut scratch);
    match &given.from {
        None => Ok(Costs { start, from: start }),
        Some(list) => {
            let from = judge_from(&given.inst, &given.initial, list, &mut scratch)?;
            Ok(Costs { start, from })
        }
    }
}

/// The parts of the cost of the list with which the search begins, if it is feasible from the initial one.
fn judge_from(
    inst: &Instance,
    initial: &Assignment,
    from: &Assignment,
    scratch: &mut Scratch,
) -> Result<Parts, Refusal>
    requires initial { IsAssignment inst.now.tables initial.now.items }
    requires from { IsAssignment inst.now.tables from.now.items }
    requires start { Feasible inst.now.tables initial.now.items initial.now.items }
    requires made { IsMadeFor scratch.old inst.now.tables }
    ensures passes { IfOk result (λ costs. costs ≡ parts_of inst.now.tables initial.now.items
        from.now.items) }
    ensures feasible { IfOk result (λ _. Feasible inst.now.tables initial.now.items
        from.now.items) }
    ensures refused { IfErr result (JudgeReason inst.now.tables initial.now.items
        from.now.items ⊥) }
{
    match first_broken(inst, initial, from, scratch) {
        Some(cause) => Err(Refusal::Broken(Role::Changed, cause)),
        None => Ok(parts(inst, initial, from, scratch)),
    }
}
