ghost use Rattle.std.specs.Prelude.{◌≡◌, ◌<◌, length};
ghost use Rattle.ra_moves.specs.Steps.{step_at};
ghost use Rattle.ra_journal.specs.Packing.{IsSmall, unpacked};

use crate::entries::Entry;
use crate::outcomes::{Outcome, outcome_of, verdict_in};
use crate::small_step::SmallStep;
use ra_moves::{Move, MoveKind};
use std::mem::size_of;

/// An entry in 72 bytes: the worker in one, each of its numbers in four, and the move as its kind and three steps of
/// six bytes each, of which a shorter move uses the first ones. Nothing is aligned to more than four bytes, and there
/// is no gap.
#[derive(Clone, Copy)]
pub(crate) struct Packed {
    outcome: Outcome,
    k: u32,
    q: u32,
    first: SmallStep,
    second: SmallStep,
    third: SmallStep,
    worker: u8,
    kind: MoveKind,
}

const _: () = prove!(size_of::<Packed>() == 72);

/// Packs an entry.
#[tactic(auto, using(crate::proofs::PackingLemmas::packed_back))]
pub(crate) fn pack(entry: &Entry) -> Packed
    requires { IsSmall entry.now }
    ensures { unpacked result ≡ entry.now }
{
    let last = entry.mv.steps() - 1;
    Packed {
        outcome: outcome_of(&entry.verdict),
        k: entry.k as u32,
        q: entry.q as u32,
        first: small_step(entry, 0),
        second: small_step(entry, last.min(1)),
        third: small_step(entry, last),
        worker: entry.worker as u8,
        kind: entry.mv.kind(),
    }
}

/// A step of an entry, counted from 0, in six bytes.
fn small_step(entry: &Entry, i: u32) -> SmallStep
    requires small { IsSmall entry.now }
    requires exists { i < length entry.now.mv.steps }
    ensures { result ≡ step_at entry.now.mv.steps i }
{
    SmallStep::of(&entry.mv.step(i))
}

/// The entry that was packed.
#[tactic(auto, unfolding(crate::specs::Packing::unpacked))]
#[inline(always)]
pub(crate) fn unpack(packed: &Packed) -> Entry
    ensures { result ≡ unpacked packed.now }
{
    Entry {
        worker: u32::from(packed.worker),
        k: u64::from(packed.k),
        q: u64::from(packed.q),
        mv: move_in(packed),
        verdict: verdict_in(&packed.outcome),
    }
}

/// The move that was packed.
#[tactic(auto, unfolding(crate::specs::Packing::unpacked, crate::specs::Packing::steps_of_kind))]
fn move_in(packed: &Packed) -> Move
    ensures { result ≡ (unpacked packed.now).mv }
{
    match packed.kind {
        MoveKind::Shift => Move::shift(packed.first.step()),
        MoveKind::Swap => Move::swap(packed.first.step(), packed.second.step()),
        MoveKind::Chain => Move::chain(
            packed.first.step(),
            packed.second.step(),
            packed.third.step(),
        ),
    }
}
