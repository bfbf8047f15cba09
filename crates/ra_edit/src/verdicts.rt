ghost use Rattle.std.specs.Prelude.{◌≡◌, ◌<◌, ◌*◌, ◌^◌, length, None, IfOk};
ghost use Rattle.ra_model.specs.Limits.{Small};
ghost use Rattle.ra_model.specs.Numbers.{resource_count, machine_count, service_count};
ghost use Rattle.ra_model.specs.Assignments.{machine_at};
ghost use Rattle.ra_model.specs.Costs.{parts_of};
ghost use Rattle.ra_edit_read.specs.EditLists.{FitsInstance};
ghost use Rattle.ra_edit.specs.Drafts.{Drafted, instance_of};
ghost use Rattle.ra_edit.specs.Keeping.{IsJudgedDraft};
ghost use Rattle.ra_edit.specs.Replies.{barred};
ghost use Rattle.ra_edit.specs.Kinds.{Asks, HasCome, HasGone, HasOther, IsEdited};
ghost use Rattle.ra_edit.specs.Loads.{IsHeld, draft_in};

use crate::costs::{costs_with, moved_share, way_share};
use crate::judging::{added_breaks, resized_breaks, retired_breaks};
use crate::keeping::Kept;
use crate::lists::machine_of;
use crate::moved::service_cost_without;
use crate::rows::{requirements_of, row_changed, row_with, row_without};
use crate::scanning::{service_of, small};
use ra_base::{Cause, Machine, NoMemory, Parts, Process, Service};
use ra_edit_read::Edit;
use std::alloc::Global;

/// What is known of the current list of a draft: the first constraint that it breaks, or what it costs.
#[derive(Clone, Copy)]
pub(crate) enum Judged {
    Refused(Cause),
    Fine(Parts),
}

/// Whether the current list breaks a constraint after an edit of feasible lists, and what it costs. It looks only at
/// what the edit touches, and changes nothing.
pub(crate) fn judge(
    alloc: Global,
    kept: &Kept<'_>,
    edit: Edit,
    asked: &[u32],
) -> Result<Judged, NoMemory>
    requires held { IsHeld kept.now }
    requires free { barred (length kept.now.lists.rows.items) edit ≡ None }
    requires fits { FitsInstance kept.now.inst.now.tables edit }
    requires asked { length asked.now ≡ resource_count kept.now.inst.now.tables }
    ensures { IfOk result (λ judged. (e : Drafted) →
        IsEdited (draft_in kept.now) edit asked.now e → IsJudgedDraft e judged) }
{
    match edit {
        Edit::Add {
            service,
            machine,
            ..
        } => judge_added(alloc, kept, service, machine, asked),
        Edit::Retire { process } => judge_retired(alloc, kept, Process(process)),
        Edit::Resize { process } => judge_resized(alloc, kept, Process(process), asked),
    }
}

/// What is known after a process of a service has come to a machine.
fn judge_added(
    alloc: Global,
    kept: &Kept<'_>,
    s: Service,
    m: Machine,
    asked: &[u32],
) -> Result<Judged, NoMemory>
    requires held { IsHeld kept.now }
    requires service { s.0 < service_count kept.now.inst.now.tables }
    requires machine { m.0 < machine_count kept.now.inst.now.tables }
    requires asked { length asked.now ≡ resource_count kept.now.inst.now.tables }
    ensures { IfOk result (λ judged. (e : Drafted) →
        HasCome (draft_in kept.now) e s.0 m.0 →
        Asks e (length kept.now.lists.rows.items) asked.now → IsJudgedDraft e judged) }
{
    let inst = kept.inst;
    let lists = &kept.lists;
    let loads = &kept.loads;
    small(inst, lists);
    let used = row_with(alloc, loads.use_row(inst, m), asked)?;
    let between = row_with(alloc, loads.transient_row(inst, m), asked)?;
    if let Some(cause) = added_breaks(
        inst,
        &kept.members,
        s,
        m,
        used.as_slice(),
        between.as_slice(),
    ) {
        return Ok(Judged::Refused(cause));
    }
    let costs = costs_with(inst, lists, loads, kept.parts, m, used.as_slice());
    let way = u128::from(inst.machine_weight()) * u128::from(inst.move_cost(m, m));
    let cost = Parts::summed(
        costs.load,
        costs.balance,
        kept.parts.process,
        kept.parts.service,
        kept.parts.machine + way,
    );
    Ok(Judged::Fine(cost))
}

/// What is known after a process has got other requirements.
fn judge_resized(
    alloc: Global,
    kept: &Kept<'_>,
    p: Process,
    asked: &[u32],
) -> Result<Judged, NoMemory>
    requires held { IsHeld kept.now }
    requires process { p.0 < length kept.now.lists.rows.items }
    requires asked { length asked.now ≡ resource_count kept.now.inst.now.tables }
    ensures { IfOk result (λ judged. (e : Drafted) →
        HasOther (draft_in kept.now) e p.0 → Asks e p.0 asked.now →
        IsJudgedDraft e judged) }
{
    let inst = kept.inst;
    let lists = &kept.lists;
    let loads = &kept.loads;
    let home = machine_of(&lists.initial, p);
    let here = machine_of(&lists.current, p);
    small(inst, lists);
    let was = requirements_of(inst, lists, p);
    let used = row_changed(alloc, loads.use_row(inst, here), was, asked)?;
    let at_home = row_changed(alloc, loads.transient_row(inst, home), was, asked)?;
    let at_here = row_changed(alloc, loads.transient_row(inst, here), was, asked)?;
    if let Some(cause) = resized_breaks(
        inst,
        home,
        here,
        used.as_slice(),
        at_home.as_slice(),
        at_here.as_slice(),
    ) {
        return Ok(Judged::Refused(cause));
    }
    let costs = costs_with(inst, lists, loads, kept.parts, here, used.as_slice());
    let cost = Parts::summed(
        costs.load,
        costs.balance,
        kept.parts.process,
        kept.parts.service,
        kept.parts.machine,
    );
    Ok(Judged::Fine(cost))
}

/// What is known after a process has gone.
fn judge_retired(alloc: Global, kept: &Kept<'_>, p: Process) -> Result<Judged, NoMemory>
    requires held { IsHeld kept.now }
    requires process { p.0 < length kept.now.lists.rows.items }
    ensures { IfOk result (λ judged. (e : Drafted) →
        HasGone (draft_in kept.now) e p.0 → IsJudgedDraft e judged) }
{
    let inst = kept.inst;
    let lists = &kept.lists;
    let s = service_of(inst, lists, p);
    let here = machine_of(&lists.current, p);
    if let Some(cause) = retired_breaks(inst, lists, &kept.members, kept.topo, p, s, here) {
        return Ok(Judged::Refused(cause));
    }
    let parts = parts_without(alloc, kept, p, here)?;
    Ok(Judged::Fine(parts))
}

/// What the current list costs after a process has gone from a machine.
fn parts_without(
    alloc: Global,
    kept: &Kept<'_>,
    p: Process,
    here: Machine,
) -> Result<Parts, NoMemory>
    requires held { IsHeld kept.now }
    requires process { p.0 < length kept.now.lists.rows.items }
    requires here { here.0 ≡ machine_at kept.now.lists.current.items p.0 }
    ensures { IfOk result (λ parts. (e : Drafted) →
        HasGone (draft_in kept.now) e p.0 →
        parts ≡ parts_of (instance_of e) e.initial e.current) }
{
    let inst = kept.inst;
    let lists = &kept.lists;
    let loads = &kept.loads;
    small(inst, lists);
    let used = row_without(
        alloc,
        loads.use_row(inst, here),
        requirements_of(inst, lists, p),
    )?;
    let costs = costs_with(inst, lists, loads, kept.parts, here, used.as_slice());
    let process = kept.parts.process - moved_share(inst, lists, p);
    let service = service_cost_without(&kept.moved, inst, lists, p);
    let machine = kept.parts.machine - way_share(inst, lists, p);
    Ok(Parts::summed(costs.load, costs.balance, process, service, machine))
}
