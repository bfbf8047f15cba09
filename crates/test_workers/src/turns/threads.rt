// Passes in threads of their own.
ghost use Rattle.std.specs.Prelude.{◌≡◌, ◌+◌, ◌*◌, ◌<◌, ◌≤◌, ◌^◌, []};
ghost use Rattle.ra_turn.specs.Passes.{IsReady, guards_of, grips_of};
ghost use Rattle.test_workers.specs.Passing.{HasLetGo, IsFree, MayTake};

use super::pad::{Line, Pad, empty, plain, write_held, write_line};
use ra_turn::{Pass, Turn};
use std::alloc::Global;
use std::sync::Wait;
use std::test::Fail;
use std::thread;
use std::thread::Threads;

// Writes a line in each of a number of turns.
fn write_all<R: Wait>(rt: &R, turn: &Turn<Pad>, pass: &mut Pass<Pad>, turns: u32)
    requires { MayTake turn.now turns pass.old }
    ensures { IsFree turn.now pass.old.number pass.new }
{
    let by = pass.number();
    for number in 0..turns {
        write_line(rt, turn, pass, plain(by, number));
    }
}

// Writes a line in each of a number of turns, and locks a guard in each eighth turn.
fn write_some_held<R: Wait>(rt: &R, turn: &Turn<Pad>, pass: &mut Pass<Pad>, turns: u32, guards: u32)
    requires pass { MayTake turn.now turns pass.old }
    requires guards { (0 < guards) × (guards ≡ guards_of turn.now) }
    ensures { IsFree turn.now pass.old.number pass.new }
{
    for number in 0..turns {
        write_one(rt, turn, pass, number, guards);
    }
}

// Writes a line, and locks a guard for it at each eighth number.
fn write_one<R: Wait>(rt: &R, turn: &Turn<Pad>, pass: &mut Pass<Pad>, number: u32, guards: u32)
    requires pass { IsReady turn.now pass.old × (0 < pass.old.left) × (grips_of pass.old ≡ []) }
    requires guards { (0 < guards) × (guards ≡ guards_of turn.now) }
    ensures { HasLetGo turn.now pass.old pass.new }
{
    if number % 8 == 0 {
        write_held(rt, turn, pass, number / 8 % guards, number);
    } else {
        let by = pass.number();
        write_line(rt, turn, pass, plain(by, number));
    }
}

// What a number of threads write, each in a number of turns.
fn written<R: Threads + Wait + Sync>(rt: &R, alloc: Global, passes: u32, turns: u32) -> Option<Pad>
    requires { (1 ≤ passes) × (passes < 100) }
{
    let Ok((turn, mut all)) = Turn::make(alloc, empty(alloc), passes, u64::from(turns), 0) else {
        return None;
    };
    thread::for_each_mut(
        rt,
        &mut all,
        passes as usize,
        &|_, pass| { write_all(rt, &turn, pass, turns) },
    );
    Some(turn.close(all))
}

// What a number of threads write, each in a number of turns, if they lock guards.
fn written_held<R: Threads + Wait + Sync>(
    rt: &R,
    alloc: Global,
    passes: u32,
    turns: u32,
    guards: u32,
) -> Option<Pad>
    requires { (1 ≤ passes) × (passes < 100) × (0 < guards) }
{
    let Ok((turn, mut all)) = Turn::make(alloc, empty(alloc), passes, u64::from(turns), guards)
    else {
        return None;
    };
    thread::for_each_mut(
        rt,
        &mut all,
        passes as usize,
        &|_, pass| { write_some_held(rt, &turn, pass, turns, guards) },
    );
    Some(turn.close(all))
}

// How many lines a pass wrote.
fn count_by(lines: &[Line], by: u32) -> usize {
    lines.iter().filter(|line| line.by == by).count()
}

#[test]
fn two_threads_write_a_thousand_lines_each(rt: HostRuntime) -> Result<(), Fail> {
    let pad = written(&rt, rt.alloc(), 2, 1000).ok_or("memory")?;
    assert_eq!(rt; pad.lines.len(), 2000);
    for by in 0..2 {
        assert_eq!(rt; count_by(pad.lines.as_slice(), by), 1000);
    }
    Ok(())
}

#[test]
fn sixteen_threads_hold_guards_now_and_then(rt: HostRuntime) -> Result<(), Fail> {
    let pad = written_held(&rt, rt.alloc(), 16, 1000, 3).ok_or("memory")?;
    assert_eq!(rt; pad.lines.len(), 16000);
    for by in 0..16 {
        assert_eq!(rt; count_by(pad.lines.as_slice(), by), 1000);
    }
    Ok(())
}
