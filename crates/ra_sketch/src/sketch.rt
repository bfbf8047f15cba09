ghost use Rattle.std.specs.Prelude.{◌≡◌, ◌<◌, ◌≤◌, length, IfOk};
ghost use Rattle.ra_model.specs.Numbers.{resource_count, machine_count, process_count};
ghost use Rattle.ra_model.specs.Assignments.{machine_at};

use crate::change::{Change, NOTHING};
use crate::costs::{MachineCost, cost_after};
use crate::leaving::Leaving;
use crate::rows::{Row, has_room, have_room, renew_row, row_of};
use ra_base::{Fixed, Machine, NoMemory, Process, Resource};
use ra_model::{Instance, copies, machine_of};
use ra_world::World;
use std::alloc::Global;
use std::marker::Model;

/// The numbers of all machines from which rough costs are found, as they were when each machine was last renewed.
/// Contracts see the numbers of the instance. Only `make` takes memory.
pub struct Sketch<'a> {
    inst: &'a Instance,
    /// The weight of each resource's load cost.
    weights: Fixed<u32>,
    /// Three rows for each machine, with a number for each resource: what is free, what is free for a process that comes
    /// from elsewhere, and by how much the safety capacity is below the capacity.
    rows: Fixed<u32>,
    /// The cost of each machine.
    costs: Fixed<MachineCost>,
}

/// Frees all lists in one call, so that the end of an owner is short to prove.
impl Drop for Sketch<'_> {
    fn drop(self) {
        let Sketch {
            inst: _,
            weights: _,
            rows: _,
            costs: _,
        } = self;
    }
}

impl<'a> Model for Sketch<'a> {
    ghost use Rattle.std.specs.Prelude.{length};
    ghost use Rattle.ra_model.specs.declared.raw.Tables.{Tables};
    ghost use Rattle.ra_sketch.specs.Sizes.{HaveSizes};

    ghost Value = { Tables };

    ghost view = { λ s. s.inst.now.tables };

    ghost invariant = { λ s. HaveSizes s.inst.now.tables
        (length s.weights.items) (length s.rows.items) (length s.costs.items) };
}

/// What a move adds to the cost and what it takes away, as far as both are known. They may have wrapped.
#[derive(Clone, Copy)]
struct Sums {
    added: u64,
    taken: u64,
}

impl Sums {
    /// With what it costs to move a process off its initial machine: it is added if the process leaves that machine, and
    /// taken away if the process comes back.
    #[inline(always)]
    fn with_moved(self, moved: u64, home: Machine, from: Machine, to: Machine) -> Sums {
        Sums {
            added: self.added.wrapping_add(counted_if(from.0 == home.0, moved)),
            taken: self.taken.wrapping_add(counted_if(to.0 == home.0, moved)),
        }
    }
}

impl<'a> Sketch<'a> {
    ghost use Rattle.ra_sketch.specs.Leavers.{IsLeaverOf};

    /// The sketch of a world. It takes all its memory here.
    pub fn make(alloc: Global, world: &World<'a>) -> Result<Sketch<'a>, NoMemory>
        ensures { IfOk result (λ s. s ≡ world.now.tables) }
    {
        let inst = world.instance();
        let mut sketch = Sketch::blank(alloc, inst)?;
        for m in 0..inst.machines() {
            sketch.renew(world, Machine(m));
        }
        Ok(sketch)
    }

    /// A sketch in which all numbers of the machines are 0.
    fn blank(alloc: Global, inst: &'a Instance) -> Result<Sketch<'a>, NoMemory>
        ensures { IfOk result (λ s. s ≡ inst.now.tables) }
    {
        let machines = inst.machines() as usize;
        let weights = weights_of(alloc, inst)?;
        let rows = copies(alloc, machines * (3 * inst.resources() as usize), 0u32)?;
        let costs = copies(alloc, machines, MachineCost { all: 0, balance: 0 })?;
        Ok(Sketch {
            inst,
            weights,
            rows,
            costs,
        })
    }

    /// Renews the numbers of a machine from a world.
    pub fn renew(&mut self, world: &World<'_>, m: Machine)
        requires tables { world.now.tables ≡ self.old }
        requires machine { m.0 < machine_count self.old }
        ensures { self.new ≡ self.old }
    {
        renew_row(world, m, &mut self.rows);
        let cost = self.cost_after(&self.row(m), &NOTHING, &NOTHING);
        self.costs.set(m.0 as usize, cost);
    }

    /// The load and balance cost of a machine, which may have wrapped.
    #[inline(always)]
    fn cost(&self, m: Machine) -> MachineCost
        requires { m.0 < machine_count self.now }
    {
        self.costs.get(m.0 as usize)
    }

    /// The load cost of a machine, which may have wrapped.
    #[inline(always)]
    pub fn load_of(&self, m: Machine) -> u64
        requires { m.0 < machine_count self.now }
    {
        let cost = self.cost(m);
        cost.all.wrapping_sub(cost.balance)
    }

    /// The numbers of a machine.
    #[inline(always)]
    fn row(&self, m: Machine) -> Row<'_>
        requires { m.0 < machine_count self.now }
        ensures { length result.free.now ≡ resource_count self.now }
    {
        row_of(self.rows.as_slice(), self.inst.resources() as usize, m)
    }

    /// The cost of a machine after processes have gone and come that require so much.
    #[inline(always)]
    fn cost_after(&self, row: &Row<'_>, gone: &[u32], come: &[u32]) -> MachineCost
        requires row { length row.now.free.now ≡ resource_count self.now }
        requires gone { resource_count self.now ≤ length gone.now }
        requires come { resource_count self.now ≤ length come.now }
    {
        let inst = self.inst;
        let change = Change {
            free: row.free,
            gone,
            come,
        };
        cost_after(inst, self.weights.as_slice(), row.reserve, &change)
    }

    /// A process that may leave its machine.
    #[inline(always)]
    pub fn leaving<'r>(&self, world: &World<'_>, p: Process, required: &'r [u32]) -> Leaving<'r>
        requires tables { world.now.tables ≡ self.now }
        requires process { p.0 < process_count self.now }
        requires required { length required.now ≡ resource_count self.now }
        ensures process { result.process ≡ p }
        ensures from { result.from.0 ≡ machine_at world.now.here p.0 }
        ensures home { result.home.0 ≡ machine_at world.now.start p.0 }
        ensures required { result.required.now ≡ required.now }
        ensures fits { IsLeaverOf self.now result }
    {
        let from = machine_of(world.assignment(), p);
        let home = machine_of(world.initial(), p);
        let without = self.cost_after(&self.row(from), required, &NOTHING).all;
        let moved = self.moved(p);
        let way = self.way(world, home, from);
        Leaving {
            process: p,
            from,
            home,
            required,
            without,
            added: without.wrapping_add(counted_if(from.0 == home.0, moved)),
            taken: self.cost(from).all.wrapping_add(way),
            moved,
            way,
        }
    }

    /// What it costs to move a process off its initial machine.
    #[inline(always)]
    fn moved(&self, p: Process) -> u64
        requires { p.0 < process_count self.now }
    {
        let inst = self.inst;
        u64::from(inst.process_weight()).wrapping_mul(u64::from(inst.process_cost(p)))
    }

    /// What the way from a machine to another costs.
    #[inline(always)]
    fn way(&self, world: &World<'_>, from: Machine, to: Machine) -> u64
        requires tables { world.now.tables ≡ self.now }
        requires from { from.0 < machine_count self.now }
        requires to { to.0 < machine_count self.now }
    {
        u64::from(self.inst.machine_weight()).wrapping_mul(u64::from(world.way(from, to)))
    }

    /// What the way of a process to a machine adds, without what the machine adds.
    #[inline(always)]
    pub fn way_to(&self, world: &World<'_>, leaving: &Leaving<'_>, to: Machine) -> u64
        requires tables { world.now.tables ≡ self.now }
        requires leaving { IsLeaverOf self.now leaving.now }
        requires to { to.0 < machine_count self.now }
    {
        self.way(world, leaving.home, to)
    }

    /// Whether a shift to a machine other than the present and the initial one may be cheap enough: it may raise the
    /// cost by `most`.
    #[inline(always)]
    pub fn may_shift(&self, leaving: &Leaving<'_>, to: Machine, way: u64, most: u64) -> bool
        requires leaving { IsLeaverOf self.now leaving.now }
        requires to { to.0 < machine_count self.now }
    {
        let sums = Sums {
            added: leaving.added.wrapping_add(way),
            taken: leaving.taken.wrapping_add(most),
        };
        self.may_enter(leaving.required, to, false, sums)
    }

    /// Whether a shift to the initial machine, which isn't the present one, may be cheap enough: it may raise the cost by
    /// `most`.
    #[inline(always)]
    pub fn may_return(&self, world: &World<'_>, leaving: &Leaving<'_>, most: u64) -> bool
        requires tables { world.now.tables ≡ self.now }
        requires leaving { IsLeaverOf self.now leaving.now }
    {
        let home = leaving.home;
        let spared = leaving
            .moved
            .wrapping_add(u64::from(self.inst.service_weight()));
        let sums = Sums {
            added: leaving.without.wrapping_add(self.way(world, home, home)),
            taken: leaving.taken.wrapping_add(most).wrapping_add(spared),
        };
        self.may_enter(leaving.required, home, true, sums)
    }

    /// Whether a machine has room for a process that comes, and the whole move may be cheap enough. A process that comes
    /// home needs no room in transition.
    #[inline(always)]
    fn may_enter(&self, required: &[u32], to: Machine, home: bool, sums: Sums) -> bool
        requires to { to.0 < machine_count self.now }
        requires required { length required.now ≡ resource_count self.now }
    {
        if sums.added > sums.taken.wrapping_add(self.most_saved(to)) {
            return false;
        }
        let row = self.row(to);
        if !has_room(row.room_for(home), required) {
            return false;
        }
        let with = self.cost_after(&row, &NOTHING, required).all;
        sums.added.wrapping_add(with) <= sums.taken.wrapping_add(self.cost(to).all)
    }

    /// The most that a process saves by coming to a machine: the balance cost there. The list isn't read if there are no
    /// balance objectives.
    #[inline(always)]
    fn most_saved(&self, to: Machine) -> u64
        requires { to.0 < machine_count self.now }
    {
        if self.inst.balances() == 0 {
            0
        } else {
            self.cost(to).balance
        }
    }

    /// Whether an exchange with a process of another machine may be cheap enough: it may raise the cost by `most`.
    #[inline(always)]
    pub fn may_exchange(
        &self,
        world: &World<'_>,
        leaving: &Leaving<'_>,
        q: Process,
        at: Machine,
        back: &[u32],
        most: u64,
    ) -> bool
        requires tables { world.now.tables ≡ self.now }
        requires leaving { IsLeaverOf self.now leaving.now }
        requires partner { q.0 < process_count self.now }
        requires at { at.0 < machine_count self.now }
        requires back { length back.now ≡ resource_count self.now }
    {
        let sums = self.exchange_sums(world, leaving, q, at, most);
        if sums.added > sums.taken {
            return false;
        }
        let required = leaving.required;
        let here = self.row(leaving.from);
        let there = self.row(at);
        if !have_room(here.free, there.free, required, back) {
            return false;
        }
        let added = sums
            .added
            .wrapping_add(self.cost_after(&here, required, back).all);
        if added > sums.taken {
            return false;
        }
        added.wrapping_add(self.cost_after(&there, back, required).all) <= sums.taken
    }

    /// What an exchange adds and takes away, without the costs of the two machines after it.
    #[inline(always)]
    fn exchange_sums(
        &self,
        world: &World<'_>,
        leaving: &Leaving<'_>,
        q: Process,
        at: Machine,
        most: u64,
    ) -> Sums
        requires tables { world.now.tables ≡ self.now }
        requires leaving { IsLeaverOf self.now leaving.now }
        requires partner { q.0 < process_count self.now }
        requires at { at.0 < machine_count self.now }
    {
        let here = leaving.from;
        let home = leaving.home;
        let goes = Sums {
            added: self.way(world, home, at),
            taken: leaving.way,
        }
        .with_moved(leaving.moved, home, here, at);
        let back_home = machine_of(world.initial(), q);
        let comes = Sums {
            added: self.way(world, back_home, here),
            taken: self.way(world, back_home, at),
        }
        .with_moved(self.moved(q), back_home, at, here);
        let machines = self.cost(here).all.wrapping_add(self.cost(at).all);
        let spared = most.wrapping_add(u64::from(self.inst.service_weight()));
        Sums {
            added: goes.added.wrapping_add(comes.added),
            taken: goes
                .taken
                .wrapping_add(comes.taken)
                .wrapping_add(machines)
                .wrapping_add(spared),
        }
    }
}

/// An amount if a condition holds, else 0.
#[inline(always)]
fn counted_if(holds: bool, amount: u64) -> u64 {
    if holds { amount } else { 0 }
}

/// The weight of each resource's load cost.
fn weights_of(alloc: Global, inst: &Instance) -> Result<Fixed<u32>, NoMemory>
    ensures { IfOk result (λ weights. length weights.items ≡ resource_count inst.now.tables) }
{
    let mut weights = Fixed::make(alloc, inst.resources() as usize)?;
    for r in 0..inst.resources() {
        weights.push(inst.load_weight(Resource(r)));
    }
    Ok(weights)
}
