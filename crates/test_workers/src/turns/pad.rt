// A value that a lock protects: a list of lines.
ghost use Rattle.std.specs.Prelude.{◌≡◌, ℕ, ◌+◌, ◌<◌, ◌≤◌, ◌==◌, [], ◌∷◌, ◌++◌, length, MatchBool};
ghost use Rattle.ra_turn.specs.Notes.{IsVersion, grip};
ghost use Rattle.ra_turn.specs.Passes.{IsReady, guards_of, grips_of, seen_by};
ghost use Rattle.test_workers.specs.Passing.{HasLetGo, HasTakenBareTurn, IsFree};

use ra_turn::{Hold, Pass, Story, Turn};
use std::alloc::Global;
use std::sync::Wait;

// A number, who wrote it, and one more than the guard that it touches, or 0.
#[derive(Clone, Copy, Debug, PartialEq, Eq)]
pub struct Line {
    pub by: u32,
    pub number: u32,
    pub touched: u64,
}

#[derive(Drop)]
pub struct Pad {
    pub lines: Vec<Line>,
}

impl Story for Pad {
    type Note = Line;

    type Opening = ();

    ghost opening = { λ _. tt };

    ghost notes = { λ p. p.lines.items };

    ghost author = { λ line. line.by };

    ghost touches = { λ _ line guard. line.touched == guard + 1 };

    fn note_count(&self) -> u64 {
        self.lines.len() as u64
    }
}

pub fn empty(alloc: Global) -> Pad
    ensures { result.lines.items ≡ [] }
{
    Pad {
        lines: Vec::new(alloc),
    }
}

pub fn plain(by: u32, number: u32) -> Line
    ensures { (result.by ≡ by) × (result.touched ≡ 0) }
{
    Line {
        by,
        number,
        touched: 0,
    }
}

pub fn touching(by: u32, number: u32, guard: u32) -> Line
    ensures { (result.by ≡ by) × (result.touched ≡ guard + 1) }
{
    Line {
        by,
        number,
        touched: u64::from(guard) + 1,
    }
}

// Writes a line, if there is memory.
fn write(pad: &mut Pad, line: Line) -> bool
    ensures { MatchBool result (pad.new.lines.items ≡ pad.old.lines.items ++ line ∷ [])
        (pad.new.lines.items ≡ pad.old.lines.items) }
{
    pad.lines.push(line).is_ok()
}

// The guard's version in the lines.
fn version_of(lines: &[Line], guard: u32) -> u64
    ensures { IsVersion (λ line. line.touched == guard + 1) lines.now result }
{
    let touched = u64::from(guard) + 1;
    let mut version = 0;
    for (place, line) in lines.iter().enumerate() {
        if line.touched == touched {
            version = place as u64 + 1;
        }
    }
    version
}

// Takes a turn, writes a line in it if a number is given, and says what it had found.
pub fn take_turn<R: Wait>(
    rt: &R,
    alloc: Global,
    turn: &Turn<Pad>,
    pass: &mut Pass<Pad>,
    number: Option<u32>,
) -> Option<Vec<Line>>
    requires { IsReady turn.now pass.old × (0 < pass.old.left) }
    ensures { HasTakenBareTurn turn.now pass.old pass.new }
{
    let mut held = turn.take(rt, pass);
    let found = Vec::from_slice(alloc, held.value.lines.as_slice()).ok();
    if let Some(number) = number {
        write(&mut held.value, plain(pass.number(), number));
    }
    turn.give(pass, held);
    found
}

// Locks the guard at what the pass has seen, writes a line that touches it, and unlocks it. If the guard is newer, it
// writes a line that touches none.
pub fn write_held<R: Wait>(
    rt: &R,
    turn: &Turn<Pad>,
    pass: &mut Pass<Pad>,
    guard: u32,
    number: u32,
) -> Hold
    requires pass { IsReady turn.now pass.old × (0 < pass.old.left) × (grips_of pass.old ≡ []) }
    requires guard { guard < guards_of turn.now }
    ensures { HasLetGo turn.now pass.old pass.new }
{
    let asked = pass.seen();
    let by = pass.number();
    let answer = turn.hold(rt, pass, guard, asked);
    match answer {
        Hold::Held { version: _ } => write_and_release(
            rt,
            turn,
            pass,
            guard,
            touching(by, number, guard),
        ),
        Hold::Newer { version: _ } => write_line(rt, turn, pass, plain(by, number)),
    }
    answer
}

// Writes a line that touches no guard.
pub fn write_line<R: Wait>(rt: &R, turn: &Turn<Pad>, pass: &mut Pass<Pad>, line: Line)
    requires pass { IsReady turn.now pass.old × (0 < pass.old.left) }
    requires line { (line.by ≡ pass.old.number) × (line.touched ≡ 0) }
    ensures { HasTakenBareTurn turn.now pass.old pass.new }
{
    let mut held = turn.take(rt, pass);
    write(&mut held.value, line);
    turn.give(pass, held);
}

// Writes a line that touches the guard, which the pass has locked, and unlocks the guard.
fn write_and_release<R: Wait>(
    rt: &R,
    turn: &Turn<Pad>,
    pass: &mut Pass<Pad>,
    guard: u32,
    line: Line,
)
    requires pass { IsReady turn.now pass.old × (0 < pass.old.left) }
    requires held { (v : ℕ) × (grips_of pass.old ≡ grip guard v ∷ [])
        × (v ≤ length (seen_by pass.old)) }
    requires line { (line.by ≡ pass.old.number) × (line.touched ≡ guard + 1) }
    ensures { HasLetGo turn.now pass.old pass.new }
{
    let mut held = turn.take(rt, pass);
    write(&mut held.value, line);
    let version = version_of(held.value.lines.as_slice(), guard);
    turn.give(pass, held);
    turn.release(pass, guard, version);
}

// Locks the guard at what the pass has seen, and unlocks it.
pub fn hold_and_release<R: Wait>(rt: &R, turn: &Turn<Pad>, pass: &mut Pass<Pad>, guard: u32) -> Hold
    requires pass { IsReady turn.now pass.old × (grips_of pass.old ≡ []) }
    requires guard { guard < guards_of turn.now }
    ensures { IsFree turn.now pass.old.number pass.new }
{
    let asked = pass.seen();
    let answer = turn.hold(rt, pass, guard, asked);
    if let Hold::Held { version } = answer {
        turn.release(pass, guard, version);
    }
    answer
}
