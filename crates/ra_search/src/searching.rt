ghost use Rattle.std.specs.Prelude.{◌≡◌, ◌<◌, None, IfOk};
ghost use Rattle.ra_base.specs.declared.ids.Machine.{Machine};
ghost use Rattle.ra_model.specs.Assignments.{IsAssignment};
ghost use Rattle.ra_model.specs.Broken.{first_broken};
ghost use Rattle.ra_model.specs.Costs.{objective, parts_of};
ghost use Rattle.ra_model.specs.Situations.{parts_at, situation};
ghost use Rattle.ra_topology.specs.Fits.{IsTopologyOf};
ghost use Rattle.ra_search.specs.Found.{IsFound};
ghost use Rattle.ra_search.specs.Hunting.{HasHunted};
ghost use Rattle.ra_search.specs.Kept.{IsKept};

use crate::concerned::Concerned;
use crate::desk::{Desk, Seat};
use crate::found::Found;
use crate::hunt::Hunt;
use crate::kept::Kept;
use crate::orders::{Order, Task};
use crate::schedule::Schedule;
use crate::searcher::Searcher;
use ra_base::{Assignment, Fixed, NoMemory, Parts, Steps};
use ra_model::Instance;
use ra_topology::Topology;
use ra_world::World;
use std::alloc::Global;
use std::marker::{Brand, Sync};
use std::sync::Wait;
use std::sync::ledger::{Blank, Ledger};
use std::thread;
use std::thread::{Threads, join_mut};

/// How many moves a searcher may make before they are taken.
const MADE: usize = 16_384;

/// The most workers that a search may have.
const MOST_WORKERS: usize = 16;

/// At most so many searchers there are on few machines, and one for each so many machines on many. More would lose more
/// of their moves, and it would take them longer to follow those of the others than they save.
const FEW_SEARCHERS: u32 = 4;

const MACHINES_EACH: u32 = 1_000;

/// How many tries each searcher makes in the first slice.
const FIRST_SLICE: u64 = 20_000;

/// Where a search may begin: the list `from` breaks no constraint of its instance, nor does the initial list, from which
/// processes move, and their costs have these parts.
#[derive(Drop)]
pub struct Beginning<'a> {
    pub inst: &'a Instance,
    pub topo: &'a Topology,
    pub initial: &'a Assignment,
    pub start: Parts,
    pub from: &'a Assignment,
    pub from_parts: Parts,
    pub ghost topology: { IsTopologyOf topo.now inst.now.tables },
    pub ghost initial_fits: { IsAssignment inst.now.tables initial.now.items },
    pub ghost initial_unbroken: { first_broken inst.now.tables initial.now.items initial.now.items ≡ None },
    pub ghost start_is: { start ≡ parts_of inst.now.tables initial.now.items initial.now.items },
    pub ghost from_fits: { IsAssignment inst.now.tables from.now.items },
    pub ghost from_unbroken: { first_broken inst.now.tables initial.now.items from.now.items ≡ None },
    pub ghost from_is: { from_parts ≡ parts_of inst.now.tables initial.now.items from.now.items },
}

/// Searches for a cheaper list from where it begins, and ends in a descent. What it finds is the same for the same
/// schedule, however many processors there are and whoever is quick. All memory is taken before the first try.
pub fn search<R: Threads + Wait + Sync>(
    rt: &R,
    alloc: Global,
    beginning: &Beginning<'_>,
    schedule: &Schedule,
) -> Result<Found, NoMemory>
    ensures { IfOk result (IsFound beginning.now.inst.now.tables
        beginning.now.initial.now.items beginning.now.from.now.items) }
{
    search_counted::<R, Brand>(rt, alloc, beginning, schedule, Blank::new(1))
}

/// Searches as `search` does, with a counter of what is read.
fn search_counted<R: Threads + Wait + Sync, L: Ledger>(
    rt: &R,
    alloc: Global,
    beginning: &Beginning<'_>,
    schedule: &Schedule,
    blank: Blank,
) -> Result<Found, NoMemory>
    requires name { blank.name ≡ L.name }
    requires parts { blank.parts ≡ L.parts }
    requires some { 0 < blank.parts }
    ensures { IfOk result (IsFound beginning.now.inst.now.tables
        beginning.now.initial.now.items beginning.now.from.now.items) }
{
    let mut steps = Steps::<L>::make(blank);
    let world = world_of(alloc, beginning, &mut steps)?;
    let searchers = searchers_of(schedule.workers, beginning.inst.machines());
    let mut hunt = hunt_of(alloc, world, schedule, searchers)?;
    let threads = threads_of(rt, searchers as usize);
    let desk = desk_of(
        alloc,
        beginning,
        schedule.seed,
        searchers,
        threads,
        &mut steps,
    )?;
    run(rt, &desk, &mut hunt);
    drop(desk);
    Ok(hunt.ended(&mut steps))
}

/// A world that stands where the search begins.
fn world_of<'a, L: Ledger>(
    alloc: Global,
    beginning: &Beginning<'a>,
    steps: &mut Steps<L>,
) -> Result<World<'a>, NoMemory>
    ensures { IfOk result (λ world. world ≡ situation beginning.now.inst.now.tables
        beginning.now.initial.now.items beginning.now.from.now.items) }
{
    let mut world = World::make(
        alloc,
        beginning.inst,
        beginning.topo,
        beginning.initial,
        beginning.start,
    )?;
    world.stand_at(beginning.from, beginning.from_parts, steps);
    Ok(world)
}

/// The search of a schedule from a world, before its first try.
fn hunt_of<'a>(
    alloc: Global,
    world: World<'a>,
    schedule: &Schedule,
    searchers: u32,
) -> Result<Hunt<'a>, NoMemory>
    ensures world { IfOk result (λ hunt. hunt.lead.world ≡ world.entry) }
    ensures best { IfOk result (λ hunt. hunt.best.parts ≡ parts_at world.entry) }
{
    let processes = u64::from(world.instance().processes());
    let best = Kept::make(alloc, &world)?;
    let last = Kept::make(alloc, &world)?;
    let concerned = Concerned::make(alloc, world.instance())?;
    let room = if searchers > 0 {
        MADE * MOST_WORKERS
    } else {
        0
    };
    let lead = Searcher::make(alloc, world, schedule.seed, room)?;
    Ok(Hunt {
        lead,
        best,
        last,
        concerned,
        schedule: *schedule,
        by_process: schedule.tries / 512 >= processes,
        slice: FIRST_SLICE,
        tries: 0,
        heat: 0,
    })
}

/// How many searchers so many workers have, the lead among them: none besides it if there's one worker.
fn searchers_of(workers: u32, machines: u32) -> u32 {
    if workers > 1 {
        workers.min((machines / MACHINES_EACH).max(FEW_SEARCHERS))
    } else {
        0
    }
}

/// A desk with so many searchers.
fn desk_of<'a, L: Ledger>(
    alloc: Global,
    beginning: &Beginning<'a>,
    seed: u64,
    searchers: u32,
    threads: usize,
    steps: &mut Steps<L>,
) -> Result<Desk<'a>, NoMemory> {
    let room = if searchers > 0 {
        MADE * MOST_WORKERS
    } else {
        0
    };
    let mut seats = Vec::with_capacity(alloc, searchers as usize)?;
    for k in 1..searchers {
        let world = world_of(alloc, beginning, steps)?;
        let words = seed.wrapping_add(u64::from(k));
        seats.push(Seat::make(Searcher::make(alloc, world, words, MADE)?))?;
    }
    let order = Order {
        task: Task::Stop,
        taken: Fixed::make(alloc, room)?,
        list: Fixed::make(alloc, beginning.inst.processes() as usize)?,
    };
    Ok(Desk::make(seats, order, threads))
}

/// Runs a search, with threads that help if there are searchers at the desk.
fn run<'a, R: Threads + Wait + Sync>(rt: &R, desk: &Desk<'a>, hunt: &mut Hunt<'a>)
    ensures { HasHunted hunt.old hunt.new }
{
    let helpers = desk.threads.saturating_sub(1);
    if helpers == 0 {
        run_alone(rt, desk, hunt);
        return;
    }
    let mut lead = || run_alone(rt, desk, hunt);
    let mut others = || attend_all(rt, desk, helpers);
    join_mut(rt, &mut lead, &mut others);
}

/// Runs a search in this thread. The threads that help may end then.
fn run_alone<'a, R: Wait>(rt: &R, desk: &Desk<'a>, hunt: &mut Hunt<'a>)
    ensures { HasHunted hunt.old hunt.new }
{
    run_counted::<R, Brand>(rt, desk, hunt, Blank::new(1));
    desk.dismiss(rt);
}

/// Runs a search with a counter of what is read.
fn run_counted<'a, R: Wait, L: Ledger>(rt: &R, desk: &Desk<'a>, hunt: &mut Hunt<'a>, blank: Blank)
    requires name { blank.name ≡ L.name }
    requires parts { blank.parts ≡ L.parts }
    requires some { 0 < blank.parts }
    ensures { HasHunted hunt.old hunt.new }
{
    let mut steps = Steps::<L>::make(blank);
    hunt.run(rt, desk, &mut steps);
}

/// Has so many threads help at a desk until they are dismissed.
fn attend_all<'a, R: Threads + Wait + Sync>(rt: &R, desk: &Desk<'a>, helpers: usize) {
    let mut all = [0u8; MOST_WORKERS];
    let some = &mut all[..helpers.min(MOST_WORKERS)];
    thread::for_each_mut(
        rt,
        some,
        MOST_WORKERS,
        &|k, _| {
            attend(rt, desk, k.wrapping_add(1));
        },
    );
}

/// Helps at a desk.
fn attend<'a, R: Wait>(rt: &R, desk: &Desk<'a>, thread: usize) {
    attend_counted::<R, Brand>(rt, desk, thread, Blank::new(1));
}

/// Helps at a desk with a counter of what is read.
fn attend_counted<'a, R: Wait, L: Ledger>(rt: &R, desk: &Desk<'a>, thread: usize, blank: Blank)
    requires name { blank.name ≡ L.name }
    requires parts { blank.parts ≡ L.parts }
    requires some { 0 < blank.parts }
{
    let mut steps = Steps::<L>::make(blank);
    desk.attend(rt, thread, &mut steps);
}

/// How many threads carry out orders: as many as there are processors, and no more than there are searchers.
fn threads_of<R: Threads>(rt: &R, searchers: usize) -> usize {
    let processors = match thread::available_parallelism(rt) {
        Ok(count) => count.get(),
        Err(_) => 1,
    };
    processors.min(searchers)
}
