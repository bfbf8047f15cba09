//! What is read of some lists.
ghost use Rattle.std.specs.Prelude.{◌≡◌, ℕ, ◌^◌, ◌<◌, ◌≤◌, length, slice_index};
ghost use Rattle.ra_model.specs.Limits.{Small};
ghost use Rattle.ra_model.specs.Numbers.{service_of};
ghost use Rattle.ra_edit.specs.Keeping.{drafted, tables_with, IsSoundDraft};

use crate::lists::Lists;
use ra_base::{Process, Service};
use ra_model::Instance;

/// How many processes there are.
#[tactic(auto, using(crate::proofs::ScanLaws::readings))]
pub(crate) fn processes(inst: &Instance, lists: &Lists) -> u32
    requires { IsSoundDraft (drafted inst.now.tables lists.now) }
    ensures value { result ≡ length lists.now.rows.items }
    ensures bound { result ≤ 50000 }
{
    lists.rows.len() as u32
}

/// The service of a process.
#[tactic(auto, using(crate::proofs::ScanLaws::readings))]
pub(crate) fn service_of(inst: &Instance, lists: &Lists, p: Process) -> Service
    requires sound { IsSoundDraft (drafted inst.now.tables lists.now) }
    requires process { p.0 < length lists.now.rows.items }
    ensures { result.0 ≡ service_of (tables_with inst.now.tables lists.now) p.0 }
{
    lists.rows.get(p.0 as usize).service
}

/// All numbers of the lists are below 2^32, by their types.
pub(crate) fn small(inst: &Instance, lists: &Lists)
    ensures { Small (tables_with inst.now.tables lists.now) }
{
    small_numbers(lists.requirements.as_slice());
}

/// Each number of a list is below 2^32, by its type.
pub(crate) fn small_numbers(numbers: &[u32])
    ensures { (k : ℕ) → slice_index numbers.now k < 2 ^ 32 }
{
    let _count = numbers.len();
}
