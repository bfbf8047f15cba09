ghost use Rattle.std.specs.Prelude.{◌≡◌, ℕ, None, ◌+◌, ◌%◌, ◌<◌, ◌≤◌, length};
ghost use Rattle.ra_model.specs.Assignments.{machine_at};
ghost use Rattle.ra_moves.specs.declared.steps.MoveKind.TheVariants.{Shift};
ghost use Rattle.ra_moves.specs.Judging.{repeat_of};
ghost use Rattle.ra_moves.specs.Steps.{StandsAt, Distinct, from_in, to_in};
ghost use Rattle.ra_moves.specs.Options.{kind_of, count_of, option_count, target, leaving, shift_of, swap_of, chain_of, option_at};

use crate::divisors::{Divisor, Divisors};
use crate::moves::Move;
use crate::steps::{MoveKind, Step};
use ra_base::{Assignment, Drawing, Machine, Process};

/// How many options the eight words of a proposal name, over this number of machines.
#[tactic(auto, unfolding(crate::specs::Options::option_count, crate::specs::Options::count_of))]
pub fn options(words: &[u64; 8], machines: u32, drawing: Drawing) -> u32
    requires { 1 ≤ machines }
    ensures value { result ≡ option_count words.now machines drawing }
    ensures some { 1 ≤ result }
    ensures few { result ≤ 64 }
{
    count(kind(words), machines, drawing)
}

/// One of the moves that the eight words of a proposal name: option `option` of assignment `a`, counted from 0. Each of
/// its processes is on the machine that its step leaves, and the processes differ unless the move is refused as Repeat.
pub fn resolve(
    a: &Assignment,
    words: &[u64; 8],
    machines: u32,
    drawing: Drawing,
    option: u32,
) -> Move
    requires some_process { 1 ≤ length a.now.items }
    requires few_processes { length a.now.items ≤ 50000 }
    requires some_machine { 1 ≤ machines }
    requires named { option < option_count words.now machines drawing }
    ensures option { result ≡ option_at a.now.items words.now machines drawing option }
    ensures stands { StandsAt from_in result.steps a.now.items }
    ensures reaches { ((p : ℕ) → p < length a.now.items → machine_at a.now.items p < machines)
        → (j : ℕ) → j < length result.steps → to_in result.steps j < machines }
    ensures distinct { repeat_of result.steps ≡ None → Distinct result.steps }
{
    let by = Divisors::of(a.len() as u32, machines);
    resolve_by(a, words, &by, drawing, option)
}

/// The move that `resolve` gives, from divisors that are known.
#[inline(always)]
pub fn resolve_by(
    a: &Assignment,
    words: &[u64; 8],
    by: &Divisors,
    drawing: Drawing,
    option: u32,
) -> Move
    requires processes { by.now.processes.number ≡ length a.now.items }
    requires named { option < option_count words.now by.now.machines.number drawing }
    ensures option { result ≡ option_at a.now.items words.now by.now.machines.number drawing option }
    ensures stands { StandsAt from_in result.steps a.now.items }
    ensures reaches { ((p : ℕ) → p < length a.now.items → machine_at a.now.items p < by.now.machines.number)
        → (j : ℕ) → j < length result.steps → to_in result.steps j < by.now.machines.number }
    ensures distinct { repeat_of result.steps ≡ None → Distinct result.steps }
{
    let p = Process(by.processes.rest(words[1]));
    match kind(words) {
        MoveKind::Shift => shift(a, p, machine_of(words, by.machines, drawing, option)),
        MoveKind::Swap => {
            let q = Process(by.processes.rest(words[2 + option as usize]));
            swap(a, p, q)
        }
        MoveKind::Chain => {
            let q = Process(by.processes.rest(words[2]));
            let r = Process(by.processes.rest(words[3]));
            chain(a, p, q, r, Machine(by.machines.rest(words[4])))
        }
    }
}

/// The kind of move that the first of a proposal's words asks for.
#[tactic(auto, unfolding(crate::specs::Options::kind_of))]
fn kind(words: &[u64; 8]) -> MoveKind
    ensures { result ≡ kind_of words.now }
{
    match words[0] % 8 {
        0..=4 => MoveKind::Shift,
        5 | 6 => MoveKind::Swap,
        _ => MoveKind::Chain,
    }
}

#[tactic(auto, unfolding(crate::specs::Options::count_of))]
fn count(kind: MoveKind, machines: u32, drawing: Drawing) -> u32
    requires { 1 ≤ machines }
    ensures value { result ≡ count_of kind drawing machines }
    ensures some { 1 ≤ result }
    ensures few { result ≤ 64 }
{
    match (kind, drawing) {
        (MoveKind::Shift, Drawing::One) => 4,
        (MoveKind::Shift, Drawing::Two) => machines.min(64),
        (MoveKind::Swap, _) => 4,
        (MoveKind::Chain, _) => 1,
    }
}

/// The machine of a shift's option.
#[inline(always)]
#[tactic(auto, unfolding(crate::specs::Options::target, crate::specs::Options::count_of))]
fn machine_of(words: &[u64; 8], machines: Divisor, drawing: Drawing, option: u32) -> Machine
    requires named { option < count_of Shift drawing machines.number }
    ensures { result.0 ≡ target drawing words.now machines.number option }
{
    match drawing {
        Drawing::One => Machine(machines.rest(words[2 + option as usize])),
        Drawing::Two => {
            let first = Machine(machines.rest(words[2]));
            after(first, option, machines.number)
        }
    }
}

/// The machine that is this number of places after another one, if the machines form a ring.
fn after(first: Machine, places: u32, machines: u32) -> Machine
    requires first { first.0 < machines }
    requires places { places < machines }
    ensures { result.0 ≡ (first.0 + places) % machines }
{
    let left = machines - places;
    if first.0 < left {
        Machine(first.0 + places)
    } else {
        Machine(first.0 - left)
    }
}

#[tactic(auto, unfolding(crate::specs::Options::shift_of))]
fn shift(a: &Assignment, p: Process, to: Machine) -> Move
    requires { p.0 < length a.now.items }
    ensures { result ≡ shift_of a.now.items p.0 to.0 }
{
    Move::shift(step(a, p, to))
}

#[tactic(auto, unfolding(crate::specs::Options::swap_of))]
fn swap(a: &Assignment, p: Process, q: Process) -> Move
    requires first { p.0 < length a.now.items }
    requires second { q.0 < length a.now.items }
    ensures { result ≡ swap_of a.now.items p.0 q.0 }
{
    Move::swap(step(a, p, at(a, q)), step(a, q, at(a, p)))
}

#[tactic(auto, unfolding(crate::specs::Options::chain_of))]
fn chain(a: &Assignment, p: Process, q: Process, r: Process, to: Machine) -> Move
    requires first { p.0 < length a.now.items }
    requires second { q.0 < length a.now.items }
    requires third { r.0 < length a.now.items }
    ensures { result ≡ chain_of a.now.items p.0 q.0 r.0 to.0 }
{
    Move::chain(step(a, p, at(a, q)), step(a, q, at(a, r)), step(a, r, to))
}

/// The step of a process from its machine to another.
#[tactic(auto, unfolding(crate::specs::Options::leaving))]
fn step(a: &Assignment, process: Process, to: Machine) -> Step
    requires { process.0 < length a.now.items }
    ensures { result ≡ leaving a.now.items process.0 to.0 }
{
    Step {
        process,
        from: at(a, process),
        to,
    }
}

/// The machine of a process.
#[tactic(auto, using(ra_model::proofs::TallyLemmas::machine_at_read))]
fn at(a: &Assignment, p: Process) -> Machine
    requires { p.0 < length a.now.items }
    ensures { result.0 ≡ machine_at a.now.items p.0 }
{
    a.get(p.0 as usize)
}
