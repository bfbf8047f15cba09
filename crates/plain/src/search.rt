ghost use Rattle.std.specs.Prelude.{◌≡◌, ◌<◌, ◌≤◌, true, false, length, None, IfOk, IfSome};
ghost use Rattle.ra_model.specs.Assignments.{IsAssignment};
ghost use Rattle.ra_journal.specs.Entries.{entry_at};
ghost use Rattle.ra_journal.specs.Legal.{IsLegalAt, IsLegal, Legal};
ghost use Rattle.ra_journal.specs.Openings.{opening};
ghost use Rattle.plain.specs.Illegal.{IsFirstIllegal};
ghost use Rattle.plain.specs.Benches.{IsBenchFor};

use crate::bench::Bench;
use crate::comparing::{is_same_move, is_same_verdict};
use crate::places::{entry, is_numbered, is_placed};
use crate::touching::is_untouched;
use ra_base::{Assignment, NoMemory};
use ra_draws::Lots;
use ra_journal::Entry;
use ra_model::Instance;
use std::alloc::Global;

/// The place of the first entry of a journal that is not legal, and none if the journal is legal. The work grows with
/// the square of the journal's length. No entry is looked at before all earlier ones have passed.
pub fn first_illegal(
    alloc: Global,
    inst: &Instance,
    a0: &Assignment,
    lots: &Lots,
    entries: &[Entry],
) -> Result<Option<usize>, NoMemory>
    requires fits { IsAssignment inst.now.tables a0.now.items }
    ensures legal { IfOk result (λ found. found ≡ None →
        Legal (opening inst.now.tables a0.now.items lots.now) entries.now) }
    ensures first { IfOk result (λ found.
        IfSome found
        (λ j. IsFirstIllegal (opening inst.now.tables a0.now.items lots.now) entries.now j)) }
{
    let mut bench = Bench::make(alloc, inst)?;
    for j in 0..entries.len() {
        if !is_legal(&mut bench, inst, a0, lots, entries, j) {
            return Ok(Some(j));
        }
    }
    Ok(None)
}

/// Whether the entry at place `j` is legal, if all before it are.
fn is_legal(
    bench: &mut Bench,
    inst: &Instance,
    a0: &Assignment,
    lots: &Lots,
    entries: &[Entry],
    j: usize,
) -> bool
    requires fits { IsAssignment inst.now.tables a0.now.items }
    requires made { IsBenchFor bench.old inst.now.tables }
    requires there { j < length entries.now }
    requires before { IsLegal (opening inst.now.tables a0.now.items lots.now) entries.now j }
    ensures legal { result ≡ true →
        IsLegalAt (opening inst.now.tables a0.now.items lots.now) entries.now j (entry_at entries.now j) }
    ensures illegal { result ≡ false →
        IsLegalAt (opening inst.now.tables a0.now.items lots.now) entries.now j (entry_at entries.now j) → ⊥ }
    ensures kept { IsBenchFor bench.new inst.now.tables }
{
    let e = entry(entries, j);
    if !is_numbered(lots, entries, j, e) {
        return false;
    }
    if !is_placed(entries, j, e) {
        return false;
    }
    let planned = bench.plan(inst, a0, lots, entries, e);
    if !is_same_move(&e.mv, &planned) {
        return false;
    }
    if !is_untouched(inst, entries, j, e) {
        return false;
    }
    let verdict = bench.judge(inst, a0, lots, entries, j, e);
    is_same_verdict(&e.verdict, &verdict)
}
