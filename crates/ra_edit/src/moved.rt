//! The moved processes of each service, and what they cost.
ghost use Rattle.std.specs.Prelude.{◌≡◌, ℕ, List, ◌^◌, ◌<◌, ◌≤◌, length, slice_index, None, IfOk, IfSome};
ghost use Rattle.ra_model.specs.Numbers.{service_count, process_count};
ghost use Rattle.ra_model.specs.Costs.{service_cost};
ghost use Rattle.ra_model.specs.Services.{moved_of};
ghost use Rattle.ra_check.specs.Stands.{AddsMoved, AreBelow};
ghost use Rattle.ra_cells.specs.Replaced.{IsChange, counted_after};
ghost use Rattle.ra_edit.specs.Drafts.{Drafted, instance_of};
ghost use Rattle.ra_edit.specs.Kinds.{HasGone, IsEdited};
ghost use Rattle.ra_edit.specs.Keeping.{drafted, tables_with, IsSoundDraft};
ghost use Rattle.ra_edit.specs.Moved.{AreMovedOfDraft};
ghost use Rattle.ra_edit.specs.Replies.{barred};

use crate::lists::{Lists, machine_of};
use crate::scanning::{processes, service_of};
use ra_base::{MovedCount, NoMemory, Process};
use ra_cells::Greatest;
use ra_edit_read::Edit;
use ra_model::Instance;
use std::alloc::Global;

/// The moved counts of some lists, which have no more processes than the instance.
pub(crate) fn moved_counts(
    alloc: Global,
    inst: &Instance,
    lists: &Lists,
) -> Result<Greatest, NoMemory>
    requires sound { IsSoundDraft (drafted inst.now.tables lists.now) }
    requires few { length lists.now.rows.items ≤ process_count inst.now.tables }
    ensures { IfOk result (λ moved. AreMovedOfDraft (drafted inst.now.tables lists.now) moved) }
{
    let mut moved = Greatest::make(alloc, inst)?;
    for p in 0..processes(inst, lists) {
        count_moved(&mut moved, inst, lists, Process(p));
    }
    Ok(moved)
}

/// Counts a process for its service, if it isn't on its initial machine.
fn count_moved(moved: &mut Greatest, inst: &Instance, lists: &Lists, p: Process)
    requires sound { IsSoundDraft (drafted inst.now.tables lists.now) }
    requires process { p.0 < length lists.now.rows.items }
    requires slots { length moved.old.counts ≡ service_count inst.now.tables }
    requires below { AreBelow moved.old.limit moved.old.counts }
    requires few { moved.old.limit ≤ 50000 }
    ensures counted { AddsMoved (tables_with inst.now.tables lists.now) lists.now.initial.items
        lists.now.current.items p.0 moved.old.counts moved.new.counts }
    ensures slots { length moved.new.counts ≡ length moved.old.counts }
    ensures limit { moved.new.limit ≡ moved.old.limit }
{
    if machine_of(&lists.initial, p) != machine_of(&lists.current, p) {
        let s = service_of(inst, lists, p);
        let count = moved.count(s) + 1;
        moved.change(s, count);
    }
}

/// Follows an edit of the lists. Only a process that goes changes a moved count, since one that comes hasn't moved.
pub(crate) fn follow_moved(moved: &mut Greatest, inst: &Instance, lists: &Lists, edit: Edit)
    requires sound { IsSoundDraft (drafted inst.now.tables lists.now) }
    requires moved { AreMovedOfDraft (drafted inst.now.tables lists.now) moved.old }
    requires free { barred (length lists.now.rows.items) edit ≡ None }
    ensures { (e : Drafted) (asked : List ℕ) →
        IsEdited (drafted inst.now.tables lists.now) edit asked e → AreMovedOfDraft e moved.new }
{
    match edit {
        Edit::Add { .. } | Edit::Resize { .. } => {}
        Edit::Retire { process } => follow_retired(moved, inst, lists, Process(process)),
    }
}

/// Follows the removal of a process.
fn follow_retired(moved: &mut Greatest, inst: &Instance, lists: &Lists, p: Process)
    requires sound { IsSoundDraft (drafted inst.now.tables lists.now) }
    requires moved { AreMovedOfDraft (drafted inst.now.tables lists.now) moved.old }
    requires process { p.0 < length lists.now.rows.items }
    ensures { (e : Drafted) → HasGone (drafted inst.now.tables lists.now) e p.0 →
        AreMovedOfDraft e moved.new }
{
    if let Some(change) = change_without(moved, inst, lists, p) {
        moved.change(change.service, change.after);
    }
}

/// The service cost without one process: the greatest number of moved processes of one service, times its weight.
pub(crate) fn service_cost_without(
    moved: &Greatest,
    inst: &Instance,
    lists: &Lists,
    p: Process,
) -> u128
    requires sound { IsSoundDraft (drafted inst.now.tables lists.now) }
    requires moved { AreMovedOfDraft (drafted inst.now.tables lists.now) moved.now }
    requires process { p.0 < length lists.now.rows.items }
    ensures value { (e : Drafted) → HasGone (drafted inst.now.tables lists.now) e p.0 →
        result ≡ service_cost (instance_of e) e.initial e.current }
    ensures bound { result < 2 ^ 64 }
{
    let change = change_without(moved, inst, lists, p);
    let most = moved.greatest_after(change, None, None);
    u128::from(inst.service_weight()) * u128::from(most)
}

/// How the moved counts change if a process goes: that of its service is one less, if the process isn't on its initial
/// machine.
fn change_without(
    moved: &Greatest,
    inst: &Instance,
    lists: &Lists,
    p: Process,
) -> Option<MovedCount>
    requires sound { IsSoundDraft (drafted inst.now.tables lists.now) }
    requires moved { AreMovedOfDraft (drafted inst.now.tables lists.now) moved.now }
    requires process { p.0 < length lists.now.rows.items }
    ensures change { IfSome result (λ c. IsChange moved.now c) }
    ensures counts { (e : Drafted) → HasGone (drafted inst.now.tables lists.now) e p.0 → (s : ℕ) →
        counted_after result (slice_index moved.now.counts) s ≡
        moved_of (instance_of e) e.initial e.current s }
{
    if machine_of(&lists.initial, p) == machine_of(&lists.current, p) {
        return None;
    }
    let service = service_of(inst, lists, p);
    let before = moved.count(service);
    Some(MovedCount {
        service,
        before,
        after: before - 1,
    })
}
