// Workers that write lines in a pad that a lock protects. The pad borrows, so that the workers' type names a lifetime.
ghost use Rattle.std.specs.Prelude.{◌≡◌, ◌+◌, ◌<◌, ◌≤◌, [], ◌++◌, ◌∷◌, false, length, IfSome, MatchBool};
ghost use Rattle.ra_turn.specs.Passes.{EachAt, IsDone, IsReady, grips_of, passes_of};
ghost use Rattle.test_workers.specs.Passing.{HasLetGo, IsFree, MayTake, NumberMayTake};

use ra_shared::{Labour, all_labour};
use ra_turn::{Pass, Story, Turn};
use std::alloc::Global;
use std::sync::Wait;
use std::thread::Threads;

// Who wrote a line, and a number.
#[derive(Clone, Copy, Debug, PartialEq, Eq)]
pub struct Line {
    pub by: u32,
    pub number: u32,
}

#[derive(Drop)]
pub struct Pad<'a> {
    pub owners: &'a [u32],
    pub lines: Vec<Line>,
}

impl<'a> Story for Pad<'a> {
    type Note = Line;

    type Opening = ();

    ghost opening = { λ _. tt };

    ghost notes = { λ p. p.lines.items };

    ghost author = { λ line. line.by };

    ghost touches = { λ _ line guard. false };

    fn note_count(&self) -> u64 {
        self.lines.len() as u64
    }
}

// One worker, with a number of lines to write.
#[derive(Drop)]
pub struct Scribe<'a> {
    pass: Pass<Pad<'a>>,
    lines: u32,
}

impl<'a> Labour<Turn<Pad<'a>>> for Scribe<'a> {
    ghost able = { λ turn s. MayTake turn s.lines s.pass };

    ghost done = { λ turn s t. IsFree turn s.pass.number t.pass };

    fn labour<R: Wait>(&mut self, rt: &R, with: &Turn<Pad<'a>>) {
        let lines = self.lines;
        write_all(rt, with, &mut self.pass, lines);
    }
}

// Writes a line in each of a number of turns.
fn write_all<'a, R: Wait>(rt: &R, turn: &Turn<Pad<'a>>, pass: &mut Pass<Pad<'a>>, lines: u32)
    requires { MayTake turn.now lines pass.old }
    ensures { IsFree turn.now pass.old.number pass.new }
{
    for number in 0..lines {
        write_line(rt, turn, pass, number);
    }
}

// Writes a line, if there is memory.
fn push(pad: &mut Pad<'_>, line: Line) -> bool
    ensures { MatchBool result (pad.new.lines.items ≡ pad.old.lines.items ++ line ∷ [])
        (pad.new.lines.items ≡ pad.old.lines.items) }
{
    pad.lines.push(line).is_ok()
}

// Takes a turn, and writes a line in it.
fn write_line<'a, R: Wait>(rt: &R, turn: &Turn<Pad<'a>>, pass: &mut Pass<Pad<'a>>, number: u32)
    requires { IsReady turn.now pass.old × (0 < pass.old.left) × (grips_of pass.old ≡ []) }
    ensures { HasLetGo turn.now pass.old pass.new }
{
    let by = pass.number();
    let mut held = turn.take(rt, pass);
    push(&mut held.value, Line { by, number });
    turn.give(pass, held);
}

// Both workers, in the order of their passes.
fn both<'a>(
    alloc: Global,
    turn: &Turn<Pad<'a>>,
    first: Pass<Pad<'a>>,
    second: Pass<Pad<'a>>,
    lines: u32,
) -> Option<Vec<Scribe<'a>>>
    requires first { NumberMayTake turn.now 0 lines first }
    requires second { NumberMayTake turn.now 1 lines second }
    ensures { IfSome result (λ all. (length all.items ≡ 2)
        × EachAt (λ n s. NumberMayTake turn.now n s.lines s.pass) all.items) }
{
    let mut all = Vec::with_capacity(alloc, 2).ok()?;
    all.push_reserved(Scribe { pass: first, lines });
    all.push_reserved(Scribe {
        pass: second,
        lines,
    });
    Some(all)
}

// The two workers.
fn two<'a>(turn: &Turn<Pad<'a>>, mut all: Vec<Scribe<'a>>) -> Option<(Scribe<'a>, Scribe<'a>)>
    requires { (length all.items ≡ 2) × EachAt (λ n s. IsFree turn.now n s.pass) all.items }
    ensures first { IfSome result (λ r. IsFree turn.now 0 r.0.pass) }
    ensures second { IfSome result (λ r. IsFree turn.now 1 r.1.pass) }
{
    let (Some(second), Some(first)) = (all.pop(), all.pop()) else {
        return None;
    };
    Some((first, second))
}

// Both passes, in their order.
fn in_order<'a>(
    alloc: Global,
    turn: &Turn<Pad<'a>>,
    first: Pass<Pad<'a>>,
    second: Pass<Pad<'a>>,
) -> Option<Vec<Pass<Pad<'a>>>>
    requires first { IsFree turn.now 0 first }
    requires second { IsFree turn.now 1 second }
    requires two { passes_of turn.now ≡ 2 }
    ensures { IfSome result (λ all. (length all.items ≡ passes_of turn.now)
        × EachAt (IsDone turn.now) all.items) }
{
    let mut all = Vec::with_capacity(alloc, 2).ok()?;
    all.push_reserved(first);
    all.push_reserved(second);
    Some(all)
}

fn into_pass<'a>(scribe: Scribe<'a>) -> Pass<Pad<'a>>
    ensures { result ≡ scribe.entry.pass }
{
    let Scribe { pass, lines: _ } = scribe;
    pass
}

// What the workers write, a number of lines each.
pub fn written<'a, R: Threads + Wait + Sync>(
    rt: &R,
    alloc: Global,
    owners: &'a [u32],
    lines: u32,
) -> Option<Pad<'a>> {
    let pad = Pad {
        owners,
        lines: Vec::new(alloc),
    };
    let Ok((turn, mut passes)) = Turn::make(alloc, pad, 2, u64::from(lines), 0) else {
        return None;
    };
    let (Some(second), Some(first)) = (passes.pop(), passes.pop()) else {
        return None;
    };
    let mut all = both(alloc, &turn, first, second, lines)?;
    all_labour(rt, &turn, &mut all);
    let (first, second) = two(&turn, all)?;
    let passes = in_order(alloc, &turn, into_pass(first), into_pass(second))?;
    Some(turn.close(passes))
}

// How many lines a pass wrote.
pub fn count_by(lines: &[Line], by: u32) -> usize {
    lines.iter().filter(|line| line.by == by).count()
}
