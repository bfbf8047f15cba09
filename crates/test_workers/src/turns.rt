mod pad;
mod threads;

ghost use Rattle.std.specs.Prelude.{◌≡◌, ◌+◌, ◌<◌, ◌^◌, [], length, IfSome};
ghost use Rattle.ra_turn.specs.Passes.{EachAt, IsDone, IsReady, guards_of, grips_of, passes_of};
ghost use Rattle.test_workers.specs.Passing.{IsFree};

use pad::{Pad, empty, hold_and_release, plain, take_turn, touching, write_held};
use ra_turn::{Hold, Pass, Turn};
use std::alloc::Global;
use std::test::Fail;

// A lock with two passes, each with this number of turns.
fn for_two(alloc: Global, turns: u64, guards: u32) -> Option<(Turn<Pad>, Pass<Pad>, Pass<Pad>)>
    requires { turns < 2 ^ 32 }
    ensures lock { IfSome result (λ r. (passes_of r.0 ≡ 2) × (guards_of r.0 ≡ guards)) }
    ensures first { IfSome result (λ r. IsReady r.0 r.1 × (r.1.number ≡ 0) × (r.1.left ≡ turns)
        × (grips_of r.1 ≡ [])) }
    ensures second { IfSome result (λ r. IsReady r.0 r.2 × (r.2.number ≡ 1) × (r.2.left ≡ turns)
        × (grips_of r.2 ≡ [])) }
{
    let Ok((turn, mut passes)) = Turn::make(alloc, empty(alloc), 2, turns, guards) else {
        return None;
    };
    let (Some(second), Some(first)) = (passes.pop(), passes.pop()) else {
        return None;
    };
    Some((turn, first, second))
}

// Both passes, in their order.
fn both(
    alloc: Global,
    turn: &Turn<Pad>,
    first: Pass<Pad>,
    second: Pass<Pad>,
) -> Option<Vec<Pass<Pad>>>
    requires first { IsFree turn.now 0 first }
    requires second { IsFree turn.now 1 second }
    requires two { passes_of turn.now ≡ 2 }
    ensures { IfSome result (λ all. (length all.items ≡ passes_of turn.now)
        × EachAt (IsDone turn.now) all.items) }
{
    let mut all = Vec::with_capacity(alloc, 2).ok()?;
    all.push_reserved(first);
    all.push_reserved(second);
    Some(all)
}

#[test]
fn each_pass_sees_what_was_written_before(rt: HostRuntime) -> Result<(), Fail> {
    let alloc: Global = rt.alloc();
    let (turn, mut first, mut second) = for_two(alloc, 3, 0).ok_or("memory")?;
    let lines = [plain(0, 5), plain(1, 6)];
    let found = take_turn(&rt, alloc, &turn, &mut first, Some(5)).ok_or("memory")?;
    assert!(rt; found.is_empty());
    let found = take_turn(&rt, alloc, &turn, &mut second, Some(6)).ok_or("memory")?;
    assert_eq!(rt; found.as_slice(), [lines[0]].as_slice());
    let found = take_turn(&rt, alloc, &turn, &mut first, None).ok_or("memory")?;
    assert_eq!(rt; found.as_slice(), lines.as_slice());
    assert_eq!(rt; (first.turns_left(), second.turns_left()), (1, 2));
    assert_eq!(rt; (first.seen(), second.seen()), (2, 2));
    assert_eq!(rt; (first.number(), second.number()), (0, 1));
    let all = both(alloc, &turn, first, second).ok_or("memory")?;
    let pad = turn.close(all);
    assert_eq!(rt; pad.lines.as_slice(), lines.as_slice());
    Ok(())
}

#[test]
fn a_turn_comes_after_one_without_a_note(rt: HostRuntime) -> Result<(), Fail> {
    let alloc: Global = rt.alloc();
    let (turn, mut first, mut second) = for_two(alloc, 2, 0).ok_or("memory")?;
    let found = take_turn(&rt, alloc, &turn, &mut first, None).ok_or("memory")?;
    assert!(rt; found.is_empty());
    let found = take_turn(&rt, alloc, &turn, &mut second, Some(6)).ok_or("memory")?;
    assert!(rt; found.is_empty());
    let found = take_turn(&rt, alloc, &turn, &mut first, None).ok_or("memory")?;
    assert_eq!(rt; found.as_slice(), [plain(1, 6)].as_slice());
    assert_eq!(rt; (first.turns_left(), second.turns_left()), (0, 1));
    Ok(())
}

#[test]
fn a_guard_tells_of_a_newer_note(rt: HostRuntime) -> Result<(), Fail> {
    let alloc: Global = rt.alloc();
    let (turn, mut first, mut second) = for_two(alloc, 2, 2).ok_or("memory")?;
    assert_eq!(rt;
        write_held(&rt, &turn, &mut first, 0, 7),
        Hold::Held { version: 0 }
    );
    assert_eq!(rt;
        turn.hold(&rt, &mut second, 0, 0),
        Hold::Newer { version: 1 }
    );
    let found = take_turn(&rt, alloc, &turn, &mut second, None).ok_or("memory")?;
    assert_eq!(rt; found.as_slice(), [touching(0, 7, 0)].as_slice());
    assert_eq!(rt;
        hold_and_release(&rt, &turn, &mut second, 0),
        Hold::Held { version: 1 }
    );
    assert_eq!(rt;
        turn.hold(&rt, &mut second, 1, 5),
        Hold::Held { version: 0 }
    );
    Ok(())
}
