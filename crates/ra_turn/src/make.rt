//! Making a lock.
ghost use Rattle.std.specs.Prelude.{◌≡◌, ◌+◌, ◌*◌, ◌^◌, ◌<◌, ◌≤◌, [], ◌∷◌, length, vec_capacity, Some, IfOk};
ghost use Rattle.ra_turn.specs.declared.sight.Stage.TheVariants.{Maker};
ghost use Rattle.ra_turn.specs.Law.{maker as first_view};
ghost use Rattle.ra_turn.specs.Passes.{opening_of, passes_of, guards_of, turns_of_each, EachAt, IsNewPass, IsMaker};
ghost use Rattle.ra_turn.specs.Seats.{IsSized, IsSameSeat};

use crate::law::{Board, Key, Place};
use crate::pass::Pass;
use crate::plays::Cut;
use crate::story::Story;
use crate::turn::Turn;
use atomic_table::Table;
use ra_base::NoMemory;
use std::alloc::Global;
use std::snapshot::Snapshot;

impl<V: Story> Turn<V> {
    /// A lock that protects `value`, with these numbers of passes, of turns for each pass, and of guards. At `Err` the
    /// value was dropped.
    pub fn make(
        alloc: Global,
        value: V,
        passes: u32,
        turns: u64,
        guards: u32,
    ) -> Result<(Turn<V>, Vec<Pass<V>>), NoMemory>
    where
        V: Drop,
        requires passes { (1 ≤ passes) × (passes * turns < 2 ^ 62) }
        requires value { V.notes value ≡ [] }
        ensures turn { IfOk result (λ r. (opening_of V.opening r.0 ≡ V.opening value) ×
            (passes_of r.0 ≡ passes) × (guards_of r.0 ≡ guards)) }
        ensures passes { IfOk result (λ r. (length r.1.items ≡ passes) ×
            EachAt (IsNewPass r.0 turns) r.1.items) }
    {
        let Ok(mut all) = Vec::with_capacity(alloc, passes as usize) else {
            return Err(NoMemory);
        };
        let key = Key {
            passes,
            turns,
            guards,
            start: Snapshot::of(&value),
        };
        let (table, mut maker) = lay(alloc, value, &key)?;
        let turn = Turn { table };
        cut_all(&turn, &mut maker, &mut all, passes, turns);
        Ok((turn, all))
    }
}

/// Makes the table, and the maker's seat.
fn lay<V: Story + Drop>(
    alloc: Global,
    value: V,
    key: &Key<V>,
) -> Result<(Board<V>, Place<V>), NoMemory>
    requires key { (1 ≤ key.now.passes) × (key.now.passes * key.now.turns < 2 ^ 62) ×
        (key.now.start.value ≡ value) }
    requires value { V.notes value ≡ [] }
    ensures { IfOk result (λ r. IsSized r.0.shared.table_id r.0.shared.key ×
        (r.0.shared.key ≡ key.now) × (r.1.table_id ≡ r.0.shared.table_id) ×
        (r.1.me ≡ (first_view key.now.passes key.now.turns (V.opening value), []))) }
{
    let Ok(words) = Vec::from_elem(alloc, 0u64, 3 + key.guards as usize) else {
        return Err(NoMemory);
    };
    let Ok(mut slots) = Vec::with_capacity(alloc, 1) else {
        return Err(NoMemory);
    };
    slots.push_reserved(Some(value));
    match Table::new(alloc, words.as_slice(), slots, key) {
        Ok(made) => Ok(made),
        Err(_) => Err(NoMemory),
    }
}

/// Splits every pass off the maker's seat.
fn cut_all<V: Story>(
    turn: &Turn<V>,
    maker: &mut Place<V>,
    all: &mut Vec<Pass<V>>,
    passes: u32,
    turns: u64,
)
    requires maker { IsMaker V.opening turn.now turns 0 maker.old }
    requires counts { (passes ≡ passes_of turn.now) × (turns ≡ turns_of_each turn.now) }
    requires all { (all.old.items ≡ []) × (passes ≤ vec_capacity all.old) }
    ensures { (length all.new.items ≡ passes) × EachAt (IsNewPass turn.now turns) all.new.items }
{
    for number in 0..passes {
        all.push_reserved(cut(turn, maker, number, turns));
    }
}

/// Splits the pass `number` off the maker's seat.
fn cut<V: Story>(turn: &Turn<V>, maker: &mut Place<V>, number: u32, turns: u64) -> Pass<V>
    requires maker { IsMaker V.opening turn.now turns number maker.old }
    requires counts { (number < passes_of turn.now) × (turns ≡ turns_of_each turn.now) }
    ensures maker { IsMaker V.opening turn.now turns (number + 1) maker.new }
    ensures pass { IsNewPass turn.now turns number result }
{
    let seat = turn.table.shared.split_seat::<Cut>(maker);
    Pass {
        seat,
        number,
        left: turns,
        seen: 0,
    }
}
