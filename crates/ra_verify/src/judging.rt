ghost use Rattle.std.specs.Prelude.{◌≡◌, ◌≤◌, ◌<◌, ◌+◌, ◌↔◌, ℕ, true, Err, IfOk, IfErr, IfNone, IfSome};
ghost use Rattle.ra_model.specs.Situations.{situation};
ghost use Rattle.ra_bounds.specs.PinnedBounds.{pinned_bound_of};
ghost use Rattle.ra_token.specs.Lines.{FirstUnlike};
ghost use Rattle.ra_journal.specs.Legal.{Whole};
ghost use Rattle.ra_report.specs.JournalTexts.{head_of};
ghost use Rattle.ra_verify.specs.Judging.{IsAccepted, IsMisjudged};
ghost use Rattle.ra_verify.specs.declared.faults.VerifyFault.TheVariants as fault;

use crate::faults::VerifyFault;
use ra_base::Steps;
use ra_bounds::Bound;
use ra_journal::Journal;
use ra_report::unlike_head;
use ra_worker::replay;
use ra_world::World;
use std::marker::Brand;
use std::sync::ledger::{Blank, Ledger};

/// Judges a report whose entry lines are all right: whether their journal is whole, and whether the first lines are the
/// head of its report. `head` is the bytes of this number of first lines, ten or all. The world is at the initial
/// assignment, whose bound is given.
pub(crate) fn judge<'a>(
    head: &[u8],
    lines: u64,
    journal: &Journal<'a>,
    world: &mut World<'a>,
    bound: &Bound,
) -> Result<u64, VerifyFault>
    requires few { lines ≤ 10 }
    requires bound { bound.now ≡
        pinned_bound_of journal.now.instance.tables journal.now.initial.items }
    requires at_start { world.old ≡ situation journal.now.instance.tables
        journal.now.initial.items journal.now.initial.items }
    ensures accepted { IfOk result (IsAccepted journal.now head.now) }
    ensures wrong { IfErr result (λ why. (n : ℕ) × (why ≡ fault.Wrong n)
        × IsMisjudged journal.now head.now lines n) }
{
    let entries = journal.len();
    if !is_whole(journal) {
        return Err(VerifyFault::Wrong {
            line: lines + entries + 1,
        });
    }
    match first_unlike::<Brand>(head, journal, world, bound, Blank::new(1)) {
        Some(place) => Err(VerifyFault::Wrong {
            line: place as u64 + 1,
        }),
        None => Ok(entries),
    }
}

/// Whether each worker has made all proposals of its budget.
fn is_whole(journal: &Journal<'_>) -> bool
    ensures { (result ≡ true) ↔ Whole journal.now.lots journal.now.entries }
{
    for w in 0..journal.lots().len() {
        if journal.made_by(w) != journal.lots().lot(w).budget {
            return false;
        }
    }
    true
}

/// The first line, counted from 0, of a head that isn't that of the journal's report.
fn first_unlike<'a, L: Ledger>(
    head: &[u8],
    journal: &Journal<'a>,
    world: &mut World<'a>,
    bound: &Bound,
    blank: Blank,
) -> Option<usize>
    requires bound { bound.now ≡
        pinned_bound_of journal.now.instance.tables journal.now.initial.items }
    requires name { blank.name ≡ L.name }
    requires parts { blank.parts ≡ L.parts }
    requires some { 0 < blank.parts }
    requires at_start { world.old ≡ situation journal.now.instance.tables
        journal.now.initial.items journal.now.initial.items }
    ensures same { IfNone result (head.now ≡ head_of journal.now) }
    ensures unlike { IfSome result (FirstUnlike head.now (head_of journal.now)) }
    ensures few { IfSome result (λ n. n ≤ 10) }
{
    let mut steps = Steps::<L>::make(blank);
    replay(journal, journal.best_at(), world, &mut steps);
    unlike_head(head, world.assignment(), &world.parts(), bound, journal)
}
