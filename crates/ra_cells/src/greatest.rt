ghost use Rattle.std.specs.Prelude.{◌≡◌, ℕ, ◌+◌, ◌^◌, ◌<◌, ◌≤◌, length, replicate, slice_index, slice_set, IfOk, IfSome, IsTrue, true, false};
ghost use Rattle.ra_base.specs.Sums.{greatest};
ghost use Rattle.ra_model.specs.Numbers.{service_count, process_count};
ghost use Rattle.ra_cells.specs.Replaced.{greatest_with, IsChange, AreOfDifferentServices, lost_at, gained_at};
ghost use Rattle.ra_cells.specs.Replaced.{after_in, is_free};
ghost use Rattle.ra_cells.specs.Counted.{AreRetallied};

use ra_base::{Fixed, MovedCount, NoMemory, Service};
use ra_model::{Instance, copies};
use std::alloc::Global;
use std::marker::Model;

/// The moved count of each service, which is the number of its processes that aren't on their initial machine, and the
/// greatest of these counts. Contracts see the list of counts, and the limit that no count exceeds.
pub struct Greatest {
    counts: Fixed<u32>,
    tallies: Fixed<u32>,
    limit: u32,
    most: u32,
}

/// Frees all lists in one call, so that the end of an owner is short to prove.
impl Drop for Greatest {
    fn drop(self) {
        let Greatest {
            counts: _,
            tallies: _,
            limit: _,
            most: _,
        } = self;
    }
}

impl Model for Greatest {
    ghost use Rattle.ra_cells.specs.MovedCounts.{MovedCounts};
    ghost use Rattle.ra_cells.specs.Counted.{AreCounted};

    ghost Value = { MovedCounts };

    ghost view = { λ g. record { counts = g.counts.items; limit = g.limit } };

    ghost invariant = { λ g. AreCounted g.counts.items g.tallies.items g.limit g.most };
}

impl Greatest {
    /// The counts before any process has moved. The limit is the number of all processes.
    pub fn make(alloc: Global, inst: &Instance) -> Result<Greatest, NoMemory>
        ensures counts { IfOk result (λ g. g.counts ≡ replicate (service_count inst.now.tables) 0) }
        ensures limit { IfOk result (λ g. g.limit ≡ process_count inst.now.tables) }
    {
        let limit = inst.processes();
        let counts = copies(alloc, inst.services() as usize, 0u32)?;
        let mut tallies = copies(alloc, limit as usize + 1, 0u32)?;
        tallies.set(0, inst.services());
        Ok(Greatest {
            counts,
            tallies,
            limit,
            most: 0,
        })
    }

    /// The greatest count.
    pub fn greatest(&self) -> u32
        ensures value { result ≡ greatest (length self.now.counts) (slice_index self.now.counts) }
        ensures within { result ≤ self.now.limit }
    {
        self.most
    }

    /// The count of a service.
    pub fn count(&self, s: Service) -> u32
        requires { s.0 < length self.now.counts }
        ensures value { result ≡ slice_index self.now.counts s.0 }
        ensures within { result ≤ self.now.limit }
    {
        self.counts.get(s.0 as usize)
    }

    /// Gives a service another count.
    pub fn change(&mut self, s: Service, after: u32)
        requires there { s.0 < length self.old.counts }
        requires within { after ≤ self.old.limit }
        ensures counts { self.new.counts ≡ slice_set self.old.counts s.0 after }
        ensures limit { self.new.limit ≡ self.old.limit }
    {
        let place = s.0 as usize;
        let before = self.counts.get(place);
        let top = self.most.max(after);
        retally(&mut self.tallies, before, after);
        self.counts.set(place, after);
        self.most = highest(&self.tallies, top, None, None, None);
    }

    /// The greatest count after a move that changes the counts of up to three different services.
    pub fn greatest_after(
        &self,
        first: Option<MovedCount>,
        second: Option<MovedCount>,
        third: Option<MovedCount>,
    ) -> u32
        requires first { IfSome first (λ c. IsChange self.now c) }
        requires second { IfSome second (λ c. IsChange self.now c) }
        requires third { IfSome third (λ c. IsChange self.now c) }
        requires first_second { AreOfDifferentServices first second }
        requires first_third { AreOfDifferentServices first third }
        requires second_third { AreOfDifferentServices second third }
        ensures value { result ≡ greatest_with self.now.counts first second third }
        ensures within { result ≤ self.now.limit }
    {
        let top = self.most.max(after_in(first)).max(after_in(second));
        let top = top.max(after_in(third));
        highest(&self.tallies, top, first, second, third)
    }
}

/// Updates how many services have each count, if the count of one service changes.
#[tactic(auto, using(crate::proofs::GreatestLemmas::retallying))]
fn retally(tallies: &mut Fixed<u32>, left: u32, come: u32)
    requires left { left < length tallies.old.items }
    requires come { come < length tallies.old.items }
    requires some { 0 < slice_index tallies.old.items left }
    requires few { slice_index tallies.old.items come ≤ 50000 }
    ensures { AreRetallied tallies.old.items tallies.new.items left come }
{
    let left = left as usize;
    let come = come as usize;
    tallies.set(left, tallies.get(left) - 1);
    tallies.set(come, tallies.get(come) + 1);
}

/// The greatest number up to `top` that is the count of some service, after up to three counts have changed; 0 if there
/// is none.
fn highest(
    tallies: &Fixed<u32>,
    top: u32,
    first: Option<MovedCount>,
    second: Option<MovedCount>,
    third: Option<MovedCount>,
) -> u32
    requires { top < length tallies.now.items }
    ensures within { result ≤ top }
    ensures none { (v : ℕ) → result < v → v ≤ top → is_free tallies.now.items first second third v ≡
        true }
    ensures some { 0 < result → is_free tallies.now.items first second third result ≡ false }
{
    let mut v = top;
    while may_lower(tallies, v, first, second, third) {
        v -= 1;
    }
    v
}

/// Whether a number is above 0 and no service has it as its count.
fn may_lower(
    tallies: &Fixed<u32>,
    v: u32,
    first: Option<MovedCount>,
    second: Option<MovedCount>,
    third: Option<MovedCount>,
) -> bool
    requires { v < length tallies.now.items }
    ensures free { result ≡ true → is_free tallies.now.items first second third v ≡ true }
    ensures above { result ≡ true → 0 < v }
    ensures held { result ≡ false → 0 < v → is_free tallies.now.items first second third v ≡ false }
{
    if v == 0 {
        return false;
    }
    free_at(tallies, v, first, second, third)
}

/// Whether no service has a number as its count.
#[tactic(auto, unfolding(crate::specs::Replaced::is_free))]
fn free_at(
    tallies: &Fixed<u32>,
    v: u32,
    first: Option<MovedCount>,
    second: Option<MovedCount>,
    third: Option<MovedCount>,
) -> bool
    requires { v < length tallies.now.items }
    ensures { result ≡ is_free tallies.now.items first second third v }
{
    let had = u64::from(tallies.get(v as usize));
    let gained = gained_at(first, v) + gained_at(second, v) + gained_at(third, v);
    let lost = lost_at(first, v) + lost_at(second, v) + lost_at(third, v);
    had + gained == lost
}

/// 1 if a change takes its service's count away from a number, else 0.
#[tactic(auto, unfolding(crate::specs::Replaced::lost_at))]
fn lost_at(change: Option<MovedCount>, v: u32) -> u64
    ensures value { result ≡ lost_at change v }
    ensures few { result ≤ 1 }
{
    match change {
        Some(c) => u64::from(c.before == v),
        None => 0,
    }
}

/// 1 if a change makes its service's count a number, else 0.
#[tactic(auto, unfolding(crate::specs::Replaced::gained_at))]
fn gained_at(change: Option<MovedCount>, v: u32) -> u64
    ensures value { result ≡ gained_at change v }
    ensures few { result ≤ 1 }
{
    match change {
        Some(c) => u64::from(c.after == v),
        None => 0,
    }
}

/// The new count of a change, and 0 if there is none.
#[tactic(auto, unfolding(crate::specs::Replaced::after_in))]
fn after_in(change: Option<MovedCount>) -> u32
    ensures { result ≡ after_in change }
{
    match change {
        Some(c) => c.after,
        None => 0,
    }
}
