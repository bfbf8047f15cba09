ghost use Rattle.std.specs.Prelude.{◌≡◌, ◌^◌, ◌<◌, IfOk};
ghost use Rattle.ra_model.specs.Numbers.{machine_count, process_count};
ghost use Rattle.ra_search.specs.Moving.{Names, NamesIn};

use ra_base::{Machine, NoMemory, Process};
use ra_guides::{Chance, Heat, Nearby, Residents};
use ra_model::Instance;
use ra_moves::{Move, Step};
use ra_sketch::Sketch;
use ra_world::World;
use std::alloc::Global;

/// What guides a search from a world: rough costs, who is where, which machines are near, and words by chance.
#[derive(Drop)]
pub(crate) struct Guides<'a> {
    pub(crate) inst: &'a Instance,
    pub(crate) sketch: Sketch<'a>,
    pub(crate) residents: Residents<'a>,
    pub(crate) nearby: Nearby<'a>,
    pub(crate) chance: Chance,
    pub ghost sketched: { sketch ≡ inst.now.tables },
    pub ghost listed: { residents.tables ≡ inst.now.tables },
    pub ghost ranked: { nearby ≡ inst.now.tables },
}

impl<'a> Guides<'a> {
    /// The guides of a world, with the words of a seed. All their memory is taken here.
    pub(crate) fn make(alloc: Global, world: &World<'a>, seed: u64) -> Result<Guides<'a>, NoMemory>
        ensures { IfOk result (λ guides. guides.inst.now.tables ≡ world.now.tables) }
    {
        let inst = world.instance();
        Ok(Guides {
            inst,
            sketch: Sketch::make(alloc, world)?,
            residents: Residents::make(alloc, inst, world.assignment())?,
            nearby: Nearby::make(alloc, inst)?,
            chance: Chance::from_seed(seed),
        })
    }

    /// Follows a move to the world after it.
    pub(crate) fn follow(&mut self, world: &World<'_>, mv: &Move)
        requires world { world.now.tables ≡ self.old.inst.now.tables }
        requires names { Names self.old.inst.now.tables mv.now.steps }
        ensures { self.new.inst ≡ self.old.inst }
    {
        for j in 0..mv.steps() {
            self.follow_step(world, mv.step(j));
        }
    }

    /// Follows a step of a move to the world after the whole move.
    fn follow_step(&mut self, world: &World<'_>, step: Step)
        requires world { world.now.tables ≡ self.old.inst.now.tables }
        requires names { NamesIn self.old.inst.now.tables step }
        ensures { self.new.inst ≡ self.old.inst }
    {
        let here = world.assignment();
        self.residents.moved(step.process, step.from, step.to, here);
        self.sketch.renew(world, step.from);
        self.sketch.renew(world, step.to);
    }

    /// Takes all that guides from a world anew.
    pub(crate) fn renew(&mut self, world: &World<'_>)
        requires { world.now.tables ≡ self.old.inst.now.tables }
        ensures { self.new.inst ≡ self.old.inst }
    {
        self.residents.renew(world.assignment());
        for m in 0..self.inst.machines() {
            self.sketch.renew(world, Machine(m));
        }
    }

    /// By how much a move may raise the cost at a heat, by chance.
    #[inline(always)]
    pub(crate) fn allowance(&mut self, heat: Heat) -> u128
        ensures few { result < 2 ^ 100 }
        ensures same { self.new.inst ≡ self.old.inst }
    {
        heat.rise(self.chance.word())
    }

    /// A place of a list of so many by chance.
    #[inline(always)]
    pub(crate) fn any_place(&mut self, count: u32) -> u32
        ensures { self.new.inst ≡ self.old.inst }
    {
        self.chance.below(count)
    }

    /// A process by chance.
    #[inline(always)]
    pub(crate) fn any_process(&mut self) -> Process
        ensures process { result.0 < process_count self.old.inst.now.tables }
        ensures same { self.new.inst ≡ self.old.inst }
    {
        Process(self.chance.below(self.inst.processes()))
    }

    /// A machine by chance.
    #[inline(always)]
    pub(crate) fn any_machine(&mut self) -> Machine
        ensures machine { result.0 < machine_count self.old.inst.now.tables }
        ensures same { self.new.inst ≡ self.old.inst }
    {
        Machine(self.chance.below(self.inst.machines()))
    }

    /// A machine by chance, or three times of four another one if that one's load costs more.
    pub(crate) fn costly_machine(&mut self) -> Machine
        ensures machine { result.0 < machine_count self.old.inst.now.tables }
        ensures same { self.new.inst ≡ self.old.inst }
    {
        let one = self.any_machine();
        if self.chance.word() >> 62 == 0 {
            return one;
        }
        let other = self.any_machine();
        if self.sketch.load_of(other) > self.sketch.load_of(one) {
            return other;
        }
        one
    }

    /// A machine near the initial one of a process, the nearer the more often, of the nearest so many; with its place
    /// among them.
    #[inline(always)]
    pub(crate) fn near(&mut self, home: Machine, limit: u32) -> (u32, Machine)
        requires { home.0 < machine_count self.old.inst.now.tables }
        ensures machine { result.1.0 < machine_count self.old.inst.now.tables }
        ensures same { self.new.inst ≡ self.old.inst }
    {
        self.nearby.pick(home, limit, &mut self.chance)
    }

    /// A machine with which a process may exchange: its initial one in one of thirteen cases, one near it in half of them,
    /// else any.
    #[inline(always)]
    pub(crate) fn partner_machine(&mut self, home: Machine) -> Machine
        requires { home.0 < machine_count self.old.inst.now.tables }
        ensures machine { result.0 < machine_count self.old.inst.now.tables }
        ensures same { self.new.inst ≡ self.old.inst }
    {
        let word = self.chance.word() >> 56;
        if word < 20 {
            return home;
        }
        if word < 150 {
            let all = self.nearby.width();
            return self.near(home, all).1;
        }
        self.any_machine()
    }
}
