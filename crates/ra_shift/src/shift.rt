ghost use Rattle.std.specs.Prelude.{◌≡◌, ◌≢◌, ℕ, ◌+◌, ◌*◌, ◌^◌, ◌<◌, ◌≤◌, ◌↔◌, ◌-◌, None, Some, IfSome, true, false};
ghost use Rattle.ra_model.specs.Numbers.{resource_count, machine_count, process_count, service_of, transient_at, capacity_of, service_count, process_weight_of, process_cost_of};
ghost use Rattle.ra_shift.specs.Filter.{service_away};
ghost use Rattle.ra_model.specs.Assignments.{machine_at};
ghost use Rattle.ra_model.specs.Services.{on_machine, in_neighbourhood};
ghost use Rattle.ra_model.specs.Situations.{cost_at, IsSound};
ghost use Rattle.ra_shift.specs.Arriving.{BreaksNothing, cost_after, moved_after, room_below, members_near, service_now, cost_added, cost_taken, IsCostBelow, IsSumBelow, sum_at};
ghost use Rattle.ra_shift.specs.Lanes.{AreAsked, AreCheapMarked};
ghost use Rattle.ra_shift.specs.Conditions.{HasRoom, HasRoomBetween, IsAlone, locations_after, KeepsSpread, FindsOtherNeeds, Lacks, KeepsDependants, IsAdmitted};
ghost use Rattle.ra_shift.specs.Leaving.{machine_left, location_left, neighbourhood_left, spread_wanted, cost_left, cost_before};
ghost use Rattle.ra_shift.specs.Sharing.{AreRequired, way_cost};

use crate::costs::{cost_with, cost_without, way_cost};
use crate::filter::{balance_above, load_above, saved, service_away, service_with};
use crate::reads::{is_away, may_leave, spread_without};
use crate::terms::{Asks, asks_of};
use crate::windows::limit_below;
use ra_base::{Machine, Process, Resource, Service, Steps, one_when};
use ra_model::machine_of;
use ra_world::World;
use std::sync::ledger::Ledger;

/// A process that may be shifted, with all that doesn't depend on the machine to which it goes.
#[derive(Drop)]
pub struct Shift<'w, 'a> {
    pub(crate) world: &'w World<'a>,
    pub(crate) process: Process,
    /// The machine that it would leave.
    pub(crate) from: Machine,
    /// Its initial machine.
    pub(crate) home: Machine,
    pub(crate) service: Service,
    /// What it requires of each resource.
    pub(crate) required: &'a [u32],
    /// The labels of the location and of the neighbourhood that it would leave.
    location: u32,
    neighbourhood: u32,
    /// In how many locations there have to be processes of its service.
    pub(crate) spread_min: u32,
    /// The load and balance cost of the machine that it would leave, after it has left.
    pub(crate) without: u128,
    /// The load and balance cost of that machine while the process stays, and the process and machine cost of the
    /// process there.
    pub(crate) before: u128,
    /// The cost, and the service cost in it.
    kept: u128,
    service_cost: u128,
    /// For all machines but its initial one: the cost with what is added, and what is taken away.
    added: u128,
    taken: u128,
    pub ghost sound: { IsSound world.now },
    pub ghost process_known: { process.0 < process_count world.now.tables },
    ghost from_is: { from.0 ≡ machine_left world.now process.0 },
    ghost home_is: { home.0 ≡ machine_at world.now.start process.0 },
    ghost service_is: { service.0 ≡ service_of world.now.tables process.0 },
    ghost required_are: { AreRequired world.now.tables process.0 required.now },
    ghost location_is: { location ≡ location_left world.now process.0 },
    ghost neighbourhood_is: { neighbourhood ≡ neighbourhood_left world.now process.0 },
    ghost wants_is: { spread_min ≡ spread_wanted world.now process.0 },
    ghost without_is: { without ≡ cost_left world.now process.0 },
    ghost without_small: { without ≤ 30 * 2 ^ 96 },
    ghost before_is: { before ≡ cost_before world.now process.0 },
    ghost before_small: { before ≤ 2 ^ 102 },
    ghost kept_is: { kept ≡ cost_at world.now },
    ghost kept_small: { kept < 2 ^ 114 },
    ghost service_cost_is: { service_cost ≡ service_now world.now },
    ghost service_cost_small: { service_cost < 2 ^ 48 },
    ghost added_is: { added ≡ cost_added world.now process.0 },
    ghost added_small: { added < 2 ^ 115 },
    ghost taken_is: { taken ≡ cost_taken world.now process.0 },
    ghost taken_small: { taken < 2 ^ 103 },
}

impl<'w, 'a> Shift<'w, 'a> {
    /// Computes all that doesn't depend on the machine to which a process goes. It reads what the process requires,
    /// each number once.
    pub fn make<L: Ledger>(
        world: &'w World<'a>,
        process: Process,
        steps: &mut Steps<L>,
    ) -> Shift<'w, 'a>
        requires { process.0 < process_count world.now.tables }
        ensures world { result.world.now ≡ world.now }
        ensures process { result.process ≡ process }
        ensures counted { steps.new ≡ steps.old + resource_count world.now.tables }
    {
        let inst = world.instance();
        let from = machine_of(world.assignment(), process);
        let home = machine_of(world.initial(), process);
        let service = inst.service_of(process);
        let required = inst.requirements_of(process, steps);
        let location = inst.location(from);
        let neighbourhood = inst.neighbourhood(from);
        let without = cost_without(world, process, required, from);
        let before = cost_before(world, process, home, from);
        let parts = world.parts();
        let away = added_away(world, process, service, home, from);
        Shift {
            world,
            process,
            from,
            home,
            service,
            required,
            location,
            neighbourhood,
            spread_min: inst.spread_min(service),
            without,
            before,
            kept: parts.total,
            service_cost: parts.service,
            added: parts.total + (without + away),
            taken: before + saved(inst, required) + parts.service,
        }
    }

    /// Whether the shift to a machine breaks nothing. On a machine that costs little the service most often lacks what it
    /// needs, so that is tested first.
    #[inline(always)]
    fn fits(&self, to: Machine, lacking: &mut Option<u32>) -> bool
        requires machine { to.0 < machine_count self.now.world.now.tables }
        requires lacking { Lacks self.now.world.now self.now.process.0 lacking.old }
        ensures fits { (result ≡ true) ↔
            BreaksNothing self.now.world.now self.now.process.0 to.0 }
        ensures lacking { Lacks self.now.world.now self.now.process.0 lacking.new }
    {
        if to.0 == self.from.0 {
            return false;
        }
        if !self.finds_needs_or_lacks(to, lacking) {
            return false;
        }
        if !self.keeps_dependants(to) {
            return false;
        }
        if !self.has_room(to) {
            return false;
        }
        if !self.is_alone(to) {
            return false;
        }
        if !self.has_room_between(to) {
            return false;
        }
        if !self.keeps_spread(to) {
            return false;
        }
        self.is_admitted(to)
    }

    /// The cost after the shift to a machine, if it breaks nothing and costs less than a bound. What the machine adds is
    /// found before the search for a broken constraint.
    #[inline(always)]
    pub fn cost_below(&self, to: Machine, bound: u128) -> Option<u128>
        requires machine { to.0 < machine_count self.now.world.now.tables }
        requires bound { bound ≤ 2 ^ 120 }
        ensures { IsCostBelow self.now.world.now self.now.process.0 to.0 bound result }
    {
        if to.0 != self.home.0 {
            let sum = self.sum_below(to, self.room_below(bound))?;
            self.cost_adding(to, sum, &mut None)
        } else {
            self.cost_home(to, bound)
        }
    }

    /// The cost after the shift to a machine, if it breaks nothing and costs less than a bound. What the machine adds
    /// is known already, unless it is the initial one, and so is the room below the bound. `lacking` is a neighbourhood
    /// that is known to lack what the service needs: neighbouring machines often share it, and one look is enough.
    #[inline(always)]
    pub fn cost_summed(
        &self,
        to: Machine,
        sum: u32,
        bound: u128,
        room: u128,
        lacking: &mut Option<u32>,
    ) -> Option<u128>
        requires machine { to.0 < machine_count self.now.world.now.tables }
        requires bound { bound ≤ 2 ^ 120 }
        requires sum { machine_at self.now.world.now.start self.now.process.0 ≢ to.0 →
            sum ≡ sum_at self.now.world.now self.now.process.0 to.0 }
        requires room { room ≡ room_below self.now.world.now self.now.process.0 bound }
        requires lacking { Lacks self.now.world.now self.now.process.0 lacking.old }
        ensures below { IsCostBelow self.now.world.now self.now.process.0 to.0 bound result }
        ensures lacking { Lacks self.now.world.now self.now.process.0 lacking.new }
    {
        if to.0 == self.home.0 {
            return self.cost_home(to, bound);
        }
        let sum = u128::from(sum);
        if sum >= room {
            return None;
        }
        self.cost_adding(to, sum, lacking)
    }

    /// The cost after the shift to a machine other than the initial one, if it breaks nothing. It is below each bound
    /// that leaves room for what the machine adds.
    #[inline(always)]
    fn cost_adding(&self, to: Machine, sum: u128, lacking: &mut Option<u32>) -> Option<u128>
        requires machine { to.0 < machine_count self.now.world.now.tables }
        requires apart { to.0 ≢ self.now.home.0 }
        requires sum { sum ≡ sum_at self.now.world.now self.now.process.0 to.0 }
        requires lacking { Lacks self.now.world.now self.now.process.0 lacking.old }
        ensures below { (bound : ℕ) → sum < room_below self.now.world.now self.now.process.0 bound
            → IsCostBelow self.now.world.now self.now.process.0 to.0 bound result }
        ensures lacking { Lacks self.now.world.now self.now.process.0 lacking.new }
    {
        if !self.fits(to, lacking) {
            return None;
        }
        Some(self.added + sum - self.taken)
    }

    /// The least sum that is too much: a machine other than the initial one has to add less, so that the cost is below
    /// a bound.
    #[inline(always)]
    pub fn room_below(&self, bound: u128) -> u128
        requires { bound ≤ 2 ^ 120 }
        ensures { result ≡ room_below self.now.world.now self.now.process.0 bound }
    {
        (bound + self.taken).saturating_sub(self.added)
    }

    /// Marks those of sixty-four machines from one on to which the shift may cost less than a bound, not counting the
    /// initial one, with what each adds; or none if the numbers are too great for the lanes.
    pub fn marks(&self, first: u32, bound: u128, sums: &mut [u32; 64]) -> Option<u64>
        requires first { first < machine_count self.now.world.now.tables }
        requires bound { bound ≤ 2 ^ 120 }
        ensures { IfSome result (λ marks.
            AreCheapMarked self.now.world.now self.now.process.0 first bound marks sums.new) }
    {
        self.marks_by(&self.asks(), first, bound, sums)
    }

    /// What the process asks of the filter rows. Who marks several windows finds it once.
    #[inline(always)]
    pub fn asks(&self) -> Asks
        ensures { AreAsked self.now.world.now.tables self.now.process.0 result }
    {
        asks_of(self.world.instance(), self.required)
    }

    /// The marks of sixty-four machines as `marks` gives them, if what the process asks is known already.
    #[inline(always)]
    pub fn marks_by(
        &self,
        asks: &Asks,
        first: u32,
        bound: u128,
        sums: &mut [u32; 64],
    ) -> Option<u64>
        requires asks { AreAsked self.now.world.now.tables self.now.process.0 asks.now }
        requires first { first < machine_count self.now.world.now.tables }
        requires bound { bound ≤ 2 ^ 120 }
        ensures { IfSome result (λ marks.
            AreCheapMarked self.now.world.now self.now.process.0 first bound marks sums.new) }
    {
        let room = self.room_below(bound);
        if room == 0 {
            return Some(0);
        }
        let limit = limit_below(room);
        self.sums_from(asks, first, limit, sums)
    }

    /// The initial machine.
    pub fn home(&self) -> Machine
        ensures value { result.0 ≡ machine_at self.now.world.now.start self.now.process.0 }
        ensures within { result.0 < machine_count self.now.world.now.tables }
    {
        self.home
    }

    /// What a machine adds, if that is below a bound. The way to it is read last, since most machines add too much
    /// without it, and since on a large instance this read goes to memory.
    #[inline(always)]
    fn sum_below(&self, to: Machine, bound: u128) -> Option<u128>
        requires { to.0 < machine_count self.now.world.now.tables }
        ensures { IsSumBelow self.now.world.now self.now.process.0 to.0 bound result }
    {
        let load = load_above(self.world, self.required, to);
        if load >= bound {
            return None;
        }
        let costs = load + balance_above(self.world, self.required, to);
        if costs >= bound {
            return None;
        }
        let weight = self.world.instance().machine_weight();
        let way = u64::from(weight) * u64::from(self.world.way(self.home, to));
        let sum = costs + u128::from(way);
        if sum >= bound {
            return None;
        }
        Some(sum)
    }

    /// The cost after the shift to the initial machine, if it breaks nothing and costs less than a bound.
    fn cost_home(&self, to: Machine, bound: u128) -> Option<u128>
        requires machine { to.0 < machine_count self.now.world.now.tables }
        ensures { IsCostBelow self.now.world.now self.now.process.0 to.0 bound result }
    {
        if !self.fits(to, &mut None) {
            return None;
        }
        let cost = self.cost_at(to);
        if cost >= bound {
            return None;
        }
        Some(cost)
    }

    /// The cost after a shift that breaks nothing.
    fn cost_at(&self, to: Machine) -> u128
        requires machine { to.0 < machine_count self.now.world.now.tables }
        requires unbroken { BreaksNothing self.now.world.now self.now.process.0 to.0 }
        ensures { result ≡ cost_after self.now.world.now self.now.process.0 to.0 }
    {
        let world = self.world;
        let here = world.machine_load(to) + world.machine_balance(to);
        let with = cost_with(world, self.process, self.required, to);
        let way = way_cost(world, self.process, self.home, to);
        let service = service_with(world, self.service, self.moved(to));
        self.kept + self.without + with + way + service - (self.before + here + self.service_cost)
    }

    /// Whether a machine is open, or is the initial one of the process.
    #[inline(always)]
    pub(crate) fn is_admitted(&self, to: Machine) -> bool
        requires { to.0 < machine_count self.now.world.now.tables }
        ensures { (result ≡ true) ↔ IsAdmitted
            self.now.world.now.tables self.now.world.now.start self.now.process.0 to.0 }
    {
        if self.home.0 == to.0 {
            return true;
        }
        !self.world.instance().closed(to)
    }

    /// Whether a machine has room for what the process requires.
    #[inline(always)]
    fn has_room(&self, to: Machine) -> bool
        requires { to.0 < machine_count self.now.world.now.tables }
        ensures { (result ≡ true) ↔ HasRoom
            self.now.world.now.tables self.now.world.now.here self.now.process.0 to.0 }
    {
        self.over_capacity(to).is_none()
    }

    /// Whether a machine has room for what the process requires while the process moves.
    #[inline(always)]
    fn has_room_between(&self, to: Machine) -> bool
        requires { to.0 < machine_count self.now.world.now.tables }
        ensures { (result ≡ true) ↔ HasRoomBetween self.now.world.now self.now.process.0 to.0 }
    {
        self.over_between(to).is_none()
    }

    /// Whether an amount of a transient resource is above what a machine has.
    #[inline(always)]
    pub(crate) fn is_too_much(&self, to: Machine, r: Resource, wanted: u64) -> bool
        requires machine { to.0 < machine_count self.now.world.now.tables }
        requires resource { r.0 < resource_count self.now.world.now.tables }
        ensures { (result ≡ true) ↔ ((transient_at self.now.world.now.tables r.0 ≡ true) ×
            (capacity_of self.now.world.now.tables to.0 r.0 < wanted)) }
    {
        let inst = self.world.instance();
        if !inst.transient(r) {
            return false;
        }
        wanted > u64::from(inst.capacity(to, r))
    }

    /// Whether no process of the service is on a machine.
    #[inline(always)]
    pub(crate) fn is_alone(&self, to: Machine) -> bool
        ensures { (result ≡ true) ↔ IsAlone
            self.now.world.now.tables self.now.world.now.here self.now.process.0 to.0 }
    {
        self.world.cells().on_machine(self.service, to) == 0
    }

    /// Whether the service is in enough locations after the shift.
    #[inline(always)]
    pub(crate) fn keeps_spread(&self, to: Machine) -> bool
        requires { to.0 < machine_count self.now.world.now.tables }
        ensures { (result ≡ true) ↔ KeepsSpread
            self.now.world.now.tables self.now.world.now.here self.now.process.0 to.0 }
    {
        if self.spread_min < self.world.cells().locations(self.service) {
            return true;
        }
        self.spread_min <= self.locations_with(to)
    }

    /// In how many locations the service is after the shift.
    pub(crate) fn locations_with(&self, to: Machine) -> u32
        requires { to.0 < machine_count self.now.world.now.tables }
        ensures { result ≡ locations_after
            self.now.world.now.tables self.now.world.now.here self.now.process.0 to.0 }
    {
        let without = spread_without(self.world, self.process, self.service, self.location);
        let label = self.world.instance().location(to);
        let own = one_when(self.location == label);
        let comes = self.world.cells().in_location(self.service, label) == own;
        without + one_when(comes)
    }

    /// Whether no service that depends on the process's service is left without it.
    #[inline(always)]
    pub(crate) fn keeps_dependants(&self, to: Machine) -> bool
        requires { to.0 < machine_count self.now.world.now.tables }
        ensures { (result ≡ true) ↔ KeepsDependants
            self.now.world.now.tables self.now.world.now.here self.now.process.0 to.0 }
    {
        if self.world.instance().neighbourhood(to) == self.neighbourhood {
            return true;
        }
        may_leave(self.world, self.process, self.service, self.neighbourhood)
    }

    /// Whether what the service needs is in the neighbourhood of a machine. A neighbourhood that lacks it is remembered,
    /// and not looked at again.
    #[inline(always)]
    fn finds_needs_or_lacks(&self, to: Machine, lacking: &mut Option<u32>) -> bool
        requires machine { to.0 < machine_count self.now.world.now.tables }
        requires lacking { Lacks self.now.world.now self.now.process.0 lacking.old }
        ensures finds { (result ≡ true) ↔ FindsOtherNeeds
            self.now.world.now.tables self.now.world.now.here self.now.process.0 to.0 }
        ensures lacking { Lacks self.now.world.now self.now.process.0 lacking.new }
    {
        let label = self.world.instance().neighbourhood(to);
        if is_known(lacking, label) {
            return false;
        }
        if self.finds_needs(to) {
            return true;
        }
        *lacking = Some(label);
        false
    }

    /// Whether what the service needs is in the neighbourhood of a machine.
    #[inline(always)]
    pub(crate) fn finds_needs(&self, to: Machine) -> bool
        requires { to.0 < machine_count self.now.world.now.tables }
        ensures { (result ≡ true) ↔ FindsOtherNeeds
            self.now.world.now.tables self.now.world.now.here self.now.process.0 to.0 }
    {
        let label = self.world.instance().neighbourhood(to);
        let needs = self.world.topology().distinct_needs(self.service);
        for need in needs {
            if self.is_missing(*need, label) {
                return false;
            }
        }
        true
    }

    /// Whether a service is a different one and has no process in a neighbourhood.
    #[inline(always)]
    fn is_missing(&self, need: Service, label: u32) -> bool
        requires { need.0 < service_count self.now.world.now.tables }
        ensures other { result ≡ true →
            need.0 ≢ service_of self.now.world.now.tables self.now.process.0 }
        ensures none { result ≡ true → members_near self.now.world.now need.0 label ≡ 0 }
        ensures some { result ≡ false →
            need.0 ≢ service_of self.now.world.now.tables self.now.process.0 →
            0 < members_near self.now.world.now need.0 label }
    {
        if need.0 == self.service.0 {
            return false;
        }
        self.world.cells().in_neighbourhood(need, label) == 0
    }

    /// The moved count of the service after the shift.
    pub(crate) fn moved(&self, to: Machine) -> u32
        ensures value { result ≡ moved_after self.now.world.now self.now.process.0 to.0 }
        ensures few { result ≤ process_count self.now.world.now.tables }
    {
        let before = self.world.cells().moved(self.service);
        let gone = is_away(self.home, self.from);
        let come = is_away(self.home, to);
        before + come - gone
    }
}

/// Whether a label is the one that is known.
#[inline(always)]
fn is_known(known: &Option<u32>, label: u32) -> bool
    ensures { (result ≡ true) ↔ (known.now ≡ Some label) }
{
    match *known {
        Some(one) => one == label,
        None => false,
    }
}

/// The process cost and the service cost, if the process ends away from its initial machine. They are added for each
/// such machine, besides the costs of the machine that is left.
fn added_away(world: &World<'_>, p: Process, s: Service, home: Machine, from: Machine) -> u128
    requires process { p.0 < process_count world.now.tables }
    requires service { s.0 ≡ service_of world.now.tables p.0 }
    requires home { home.0 ≡ machine_at world.now.start p.0 }
    requires from { from.0 ≡ machine_at world.now.here p.0 }
    ensures value { result ≡
        process_weight_of world.now.tables * process_cost_of world.now.tables p.0
        + service_away world.now p.0 }
    ensures bound { result < 2 ^ 65 }
{
    let inst = world.instance();
    let moved = u64::from(inst.process_weight()) * u64::from(inst.process_cost(p));
    u128::from(moved) + service_away(world, p, s, home, from)
}

/// The load and balance cost of the machine of a process, and the process and machine cost of the process there.
fn cost_before(world: &World<'_>, p: Process, home: Machine, from: Machine) -> u128
    requires process { p.0 < process_count world.now.tables }
    requires home { home.0 ≡ machine_at world.now.start p.0 }
    requires from { from.0 ≡ machine_at world.now.here p.0 }
    requires machine { from.0 < machine_count world.now.tables }
    ensures value { result ≡ cost_before world.now p.0 }
    ensures bound { result ≤ 2 ^ 102 }
{
    let load = world.machine_load(from);
    let balance = world.machine_balance(from);
    load + balance + way_cost(world, p, home, from)
}
