ghost use Rattle.std.specs.Prelude.{◌≡◌, ◌+◌, ◌<◌, ◌≤◌, ◌++◌, length, IfOk};
ghost use Rattle.ra_model_text.specs.Lines.{line_text, lines_text};
ghost use Rattle.ra_trial.specs.Lines.{AddsAtMost, listed};
ghost use Rattle.ra_trial.specs.Numbers.{trial_word, trial_way_cost_of};
ghost use Rattle.ra_trial.specs.Trials.{machine_front, machine_line, machine_lines};

use crate::lines::push_line;
use crate::numbers::{MACHINES, capacity, move_cost};
use crate::words::Words;
use ra_base::{Fixed, NoMemory};
use std::alloc::Global;

/// How many numbers the line of a machine has.
const LINE_NUMBERS: usize = 110;

/// Room for the numbers of one machine's line.
pub(crate) fn make_line(alloc: Global) -> Result<Fixed<u32>, NoMemory>
    ensures { IfOk result (λ line. line.room ≡ 110) }
{
    Fixed::make(alloc, LINE_NUMBERS)
}

/// Adds the count of machines and the line of each.
pub(crate) fn push_machines(text: &mut Fixed<u8>, line: &mut Fixed<u32>, words: &Words)
    requires room { length text.old.items + 121112 ≤ text.old.room }
    requires line { line.old.room ≡ 110 }
    ensures { AddsAtMost text.old text.new (lines_text (machine_lines (trial_word words.now.number)))
        121112 }
{
    push_line(text, &[MACHINES]);
    for m in 0..MACHINES {
        push_machine(text, line, words, m);
    }
}

/// Adds the line of machine `m`.
fn push_machine(text: &mut Fixed<u8>, line: &mut Fixed<u32>, words: &Words, m: u32)
    requires machine { m < 100 }
    requires room { length text.old.items + 1211 ≤ text.old.room }
    requires line { line.old.room ≡ 110 }
    ensures adds { AddsAtMost text.old text.new (line_text (machine_line (trial_word words.now.number)
        m)) 1211 }
    ensures line { line.new.room ≡ 110 }
{
    gather_machine(line, words, m);
    push_line(text, line.as_slice());
}

/// Fills the line's numbers with those of machine `m`.
fn gather_machine(line: &mut Fixed<u32>, words: &Words, m: u32)
    requires machine { m < 100 }
    requires room { line.old.room ≡ 110 }
    ensures items { line.new.items ≡ machine_line (trial_word words.now.number) m }
    ensures many { length line.new.items ≡ 110 }
    ensures room { line.new.room ≡ 110 }
{
    line.clear();
    line.extend_from_slice(&front(words, m));
    add_way_costs(line, m);
}

/// The numbers of machine `m` before its move costs.
#[tactic(auto, unfolding(crate::specs::Trials::machine_front, crate::specs::Lines::listed, crate::specs::Numbers::trial_safety_of))]
fn front(words: &Words, m: u32) -> [u32; 10]
    requires { m < 100 }
    ensures { result ≡ machine_front (trial_word words.now.number) m }
{
    let c = [
        capacity(words, m, 0),
        capacity(words, m, 1),
        capacity(words, m, 2),
        capacity(words, m, 3),
    ];
    [
        m / 20,
        m % 10,
        c[0],
        c[1],
        c[2],
        c[3],
        3 * c[0] / 4,
        3 * c[1] / 4,
        3 * c[2] / 4,
        3 * c[3] / 4,
    ]
}

/// Adds the costs of a move from machine `m` to each machine.
fn add_way_costs(line: &mut Fixed<u32>, m: u32)
    requires machine { m < 100 }
    requires room { length line.old.items + 100 ≤ line.old.room }
    ensures items { line.new.items ≡ line.old.items ++ listed 100 (trial_way_cost_of m) }
    ensures many { length line.new.items ≡ length line.old.items + 100 }
    ensures room { line.new.room ≡ line.old.room }
{
    for b in 0..MACHINES {
        line.push(move_cost(m, b));
    }
}
