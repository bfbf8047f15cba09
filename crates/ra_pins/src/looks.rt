ghost use Rattle.std.specs.Prelude.{◌≡◌, ◌+◌, ◌*◌, ◌^◌, ◌<◌, ◌≤◌, ◌⊎◌, true, false, Bool, List, length, slice_index};
ghost use Rattle.ra_base.specs.declared.ids.Machine.{Machine};
ghost use Rattle.ra_model.specs.Numbers.{resource_count, machine_count, service_count, process_count, service_of};
ghost use Rattle.ra_model.specs.Assignments.{IsAssignment, machine_at};
ghost use Rattle.ra_model.specs.Members.{AreMembers};
ghost use Rattle.ra_pins.specs.PinLists.{flag_at};
ghost use Rattle.ra_pins.specs.Pins.{AreExact};
ghost use Rattle.ra_pins.specs.Loads.{AreKept, IsBelow};
ghost use Rattle.ra_pins.specs.Marks.{AreFlaggedMarked};
ghost use Rattle.ra_pins.specs.Walks.{IsWalk};
ghost use Rattle.ra_pins.specs.Searches.{IsSearch, IsBetweenPasses, HasLooked, HasWalked, IsFlagged, flag_count};
ghost use Rattle.ra_pins.specs.Searches.{looks_at};

use crate::blocked::{is_blocked, spot};
use crate::marks::mark_service;
use crate::search::Search;
use crate::tables::{Columns, add_row};
use ra_base::{Assignment, Fixed, Machine, Process, Service, Steps};
use ra_model::{Instance, Members, machine_of};
use std::sync::ledger::{Blank, Ledger};

/// Passes over the processes until one flags nothing: then exactly the pinned processes are flagged.
pub(crate) fn find_pinned<L: Ledger>(
    inst: &Instance,
    a0: &Assignment,
    members: &Members,
    search: &mut Search,
    blank: Blank,
)
    requires name { blank.name ≡ L.name }
    requires parts { blank.parts ≡ L.parts }
    requires some { 0 < blank.parts }
    requires fits { IsAssignment inst.now.tables a0.now.items }
    requires members { AreMembers members.now inst.now.tables }
    requires first { IsBetweenPasses inst.now.tables a0.now.items search.old 0 }
    ensures { AreExact inst.now.tables a0.now.items search.new.flags.items }
{
    let mut steps = Steps::<L>::make(blank);
    for t in 0..inst.processes() + 1 {
        if !pass(inst, a0, members, search, t, &mut steps) {
            return;
        }
    }
}

/// Lets each process look again, if it needs to, in the pass after pass `t`. Says whether one was flagged.
fn pass<L: Ledger>(
    inst: &Instance,
    a0: &Assignment,
    members: &Members,
    search: &mut Search,
    t: u32,
    steps: &mut Steps<L>,
) -> bool
    requires fits { IsAssignment inst.now.tables a0.now.items }
    requires members { AreMembers members.now inst.now.tables }
    requires few { t ≤ 50000 }
    requires between { IsBetweenPasses inst.now.tables a0.now.items search.old t }
    ensures between { IsBetweenPasses inst.now.tables a0.now.items search.new (t + 1) }
    ensures more { result ≡ true →
        flag_count inst.now.tables search.old + 1 ≤ flag_count inst.now.tables search.new }
    ensures none { result ≡ false →
        AreExact inst.now.tables a0.now.items search.new.flags.items }
{
    let mut some = false;
    for p in 0..inst.processes() {
        if look(inst, a0, members, search, Process(p), t, steps) {
            some = true;
        }
    }
    some
}

/// Lets a process look again if it isn't flagged, and the machine that it looked at has become fuller since. It goes on
/// to the next machine from which it isn't blocked, and is flagged if there is none. Says whether it was.
fn look<L: Ledger>(
    inst: &Instance,
    a0: &Assignment,
    members: &Members,
    search: &mut Search,
    p: Process,
    t: u32,
    steps: &mut Steps<L>,
) -> bool
    requires process { p.0 < process_count inst.now.tables }
    requires fits { IsAssignment inst.now.tables a0.now.items }
    requires members { AreMembers members.now inst.now.tables }
    requires few { t ≤ 50000 }
    requires search { IsSearch inst.now.tables a0.now.items search.old }
    ensures { HasLooked inst.now.tables a0.now.items search.old search.new t p.0 result }
{
    let home = machine_of(a0, p);
    if rests(inst, search, p, home, t) {
        return false;
    }
    if walk(inst, a0, members, search, p, home, steps) < inst.machines() {
        return false;
    }
    flag(inst, search, p, home, t + 1, steps);
    true
}

/// Whether a process needn't look: it is flagged, or no process that starts on the machine that it looked at was
/// flagged in pass `t` or later.
fn rests(inst: &Instance, search: &Search, p: Process, home: Machine, t: u32) -> bool
    requires process { p.0 < process_count inst.now.tables }
    requires home { home.0 < machine_count inst.now.tables }
    requires few { t ≤ 50000 }
    requires flags { length search.now.flags.items ≡ process_count inst.now.tables }
    requires fuller { length search.now.fuller.items ≡ machine_count inst.now.tables }
    requires places { length search.now.places.items ≡ process_count inst.now.tables }
    requires place { slice_index search.now.places.items p.0 ≤ machine_count inst.now.tables }
    ensures rests { result ≡ true → (a0 : List Machine) → machine_at a0 p.0 ≡ home.0 →
        (flag_at search.now.flags.items p.0 ≡ true) ⊎
        (slice_index search.now.fuller.items
        (looks_at inst.now.tables a0 search.now.places.items p.0) < t) }
    ensures free { result ≡ false → flag_at search.now.flags.items p.0 ≡ false }
{
    let place = search.places.get(p.0 as usize);
    let at = spot(home, place, inst.machines());
    search.flags.get(p.0 as usize) || search.fuller.get(at.0 as usize) < t
}

/// Moves a process on from its place to the next one whose machine it isn't blocked from. Gives how many places after
/// its own that is, or how many machines there are if there is none.
fn walk<L: Ledger>(
    inst: &Instance,
    a0: &Assignment,
    members: &Members,
    search: &mut Search,
    p: Process,
    home: Machine,
    steps: &mut Steps<L>,
) -> u32
    requires process { p.0 < process_count inst.now.tables }
    requires home { home.0 ≡ machine_at a0.now.items p.0 }
    requires fits { IsAssignment inst.now.tables a0.now.items }
    requires members { AreMembers members.now inst.now.tables }
    requires search { IsSearch inst.now.tables a0.now.items search.old }
    ensures { HasWalked inst.now.tables a0.now.items search.old search.new p.0 result }
{
    let s = inst.service_of(p);
    mark_service(
        inst,
        a0,
        members,
        &search.flags,
        &search.touched,
        s,
        &mut search.marks,
    );
    let from = search.places.get(p.0 as usize);
    let place = next_open(inst, &search.kept, &search.marks, p, s, home, from, steps);
    search.places.set(p.0 as usize, place);
    place
}

/// The next place from one on whose machine a process isn't blocked from, if the marks of its service are set.
fn next_open<L: Ledger>(
    inst: &Instance,
    kept: &Fixed<u64>,
    marks: &Fixed<u32>,
    p: Process,
    s: Service,
    home: Machine,
    from: u32,
    steps: &mut Steps<L>,
) -> u32
    requires process { p.0 < process_count inst.now.tables }
    requires service { s.0 ≡ service_of inst.now.tables p.0 }
    requires home { home.0 < machine_count inst.now.tables }
    requires from { from ≤ machine_count inst.now.tables }
    requires grid { length kept.now.items ≡
        machine_count inst.now.tables * resource_count inst.now.tables }
    requires marks { length marks.now.items ≡ machine_count inst.now.tables }
    ensures within { result ≤ machine_count inst.now.tables }
    ensures walk { (a0 : List Machine) (flags : List Bool) → machine_at a0 p.0 ≡ home.0 →
        AreKept inst.now.tables a0 (flag_at flags) kept.now.items →
        AreFlaggedMarked inst.now.tables a0 flags s.0 marks.now.items →
        IsWalk inst.now.tables a0 flags p.0 from result }
{
    let machines = inst.machines();
    for place in from..machines {
        if !is_blocked(inst, kept, marks, p, s, spot(home, place, machines), steps) {
            return place;
        }
    }
    machines
}

/// Flags a process that is blocked from every other machine: what it requires is then used on its machine at all times,
/// and the processes that look there will look again.
fn flag<L: Ledger>(
    inst: &Instance,
    search: &mut Search,
    p: Process,
    home: Machine,
    pass: u32,
    steps: &mut Steps<L>,
)
    requires process { p.0 < process_count inst.now.tables }
    requires home { home.0 < machine_count inst.now.tables }
    requires flags { length search.old.flags.items ≡ process_count inst.now.tables }
    requires fuller { length search.old.fuller.items ≡ machine_count inst.now.tables }
    requires touched { length search.old.touched.items ≡ service_count inst.now.tables }
    requires grid { length search.old.kept.items ≡
        machine_count inst.now.tables * resource_count inst.now.tables }
    requires below { IsBelow inst.now.tables (2 ^ 62) search.old.kept.items }
    ensures { IsFlagged inst.now.tables search.old search.new p.0 home.0 pass }
{
    let s = inst.service_of(p);
    search.flags.set(p.0 as usize, true);
    search.touched.set(s.0 as usize, true);
    search.fuller.set(home.0 as usize, pass);
    add_row(inst, p, home, Columns::Others, &mut search.kept, steps);
}
