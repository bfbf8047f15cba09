ghost use Rattle.std.specs.Prelude.{◌≡◌, true, All, IfOk};
ghost use Rattle.ra_guards.specs.Kept.{HasGuard, version_in, AreAtMost, AreZero, IsSet, IsTouched};

use crate::written::WriteGuards;
use ra_base::{Fixed, Guard, NoMemory};
use ra_model::copies;
use std::alloc::Global;
use std::marker::Model;

/// The version of each guard: one more than the place of the last entry that touched it, and 0 if none did. Contracts
/// see the versions of the machines and those of the services.
pub struct Versions {
    machines: Fixed<u64>,
    services: Fixed<u64>,
    /// An upper bound of all versions.
    newest: u64,
}

/// Frees all lists in one call, so that the end of an owner is short to prove.
impl Drop for Versions {
    fn drop(self) {
        let Versions {
            machines: _,
            services: _,
            newest: _,
        } = self;
    }
}

impl Model for Versions {
    ghost use Rattle.ra_guards.specs.VersionTable.{VersionTable};
    ghost use Rattle.ra_guards.specs.Kept.{AreAtMost};

    ghost Value = { VersionTable };

    ghost view = { λ v. record { machines = v.machines.items; services = v.services.items } };

    ghost invariant = { λ v. AreAtMost v.newest
        (record { machines = v.machines.items; services = v.services.items }) };
}

impl Versions {
    /// Versions for these numbers of machines and services, all 0.
    pub fn make(alloc: Global, machines: u32, services: u32) -> Result<Versions, NoMemory>
        ensures { IfOk result (AreZero machines services) }
    {
        let machines = copies(alloc, machines as usize, 0u64)?;
        let services = copies(alloc, services as usize, 0u64)?;
        Ok(Versions {
            machines,
            services,
            newest: 0,
        })
    }

    /// The version of a guard.
    pub fn of(&self, guard: Guard) -> u64
        requires { HasGuard self.now guard }
        ensures { result ≡ version_in self.now guard }
    {
        match guard {
            Guard::Machine(m) => self.machines.get(m.0 as usize),
            Guard::Service(s) => self.services.get(s.0 as usize),
        }
    }

    /// Whether the bound alone shows that no guard has a version above a number.
    pub fn is_at_most(&self, version: u64) -> bool
        ensures { result ≡ true → AreAtMost version self.now }
    {
        self.newest <= version
    }

    /// Gives each of these guards a version, and leaves the others as they are.
    #[tactic(auto, using(crate::proofs::KeptLemmas::touching))]
    pub fn touch(&mut self, writes: &WriteGuards, version: u64)
        requires { All (HasGuard self.old) writes.now }
        ensures { IsTouched self.old self.new writes.now version }
    {
        for k in 0..writes.len() {
            self.set(writes.guard(k), version);
        }
    }

    /// Gives a guard a version.
    fn set(&mut self, guard: Guard, version: u64)
        requires { HasGuard self.old guard }
        ensures { IsSet self.old self.new guard version }
    {
        self.newest = self.newest.max(version);
        match guard {
            Guard::Machine(m) => self.machines.set(m.0 as usize, version),
            Guard::Service(s) => self.services.set(s.0 as usize, version),
        }
    }
}
