ghost use Rattle.std.specs.Prelude.{◌≡◌, ℕ, ◌+◌, ◌^◌, ◌<◌, OnOk};
ghost use Rattle.ra_edit.specs.Counts.{count_in, HasCount, HasOneAt};

use ra_base::{NoMemory, Service};
use std::alloc::Global;
use std::collections::BTreeMap;

/// How many processes of each service are counted at each label. Only the counts above 0 are kept, and those for which
/// memory was taken.
pub(crate) struct Counts {
    /// By service, then label.
    pub(crate) map: BTreeMap<(u32, u32), u32>,
}

/// Frees the map in one call, so that the end of an owner is short to prove.
impl Drop for Counts {
    fn drop(self) {
        let Counts { map: _ } = self;
    }
}

impl Counts {
    /// No process is counted.
    pub(crate) fn new(alloc: Global) -> Counts
        ensures { (s label : ℕ) → count_in result s label ≡ 0 }
    {
        Counts {
            map: BTreeMap::new(alloc),
        }
    }

    /// How many processes of a service are counted at a label.
    pub(crate) fn at(&self, s: Service, label: u32) -> u32
        ensures { result ≡ count_in self.now s.0 label }
    {
        self.map.get(&(s.0, label)).copied().unwrap_or(0)
    }

    /// Takes the memory to count a process of a service at a label. No count changes.
    pub(crate) fn admit(&mut self, s: Service, label: u32) -> Result<(), NoMemory>
        ensures same { (t other : ℕ) → count_in self.new t other ≡ count_in self.old t other }
        ensures there { OnOk result (HasCount self.new s.0 label) }
    {
        if self.map.get(&(s.0, label)).is_none() {
            self.map.insert((s.0, label), 0)?;
        }
        Ok(())
    }

    /// Counts one more process of a service at a label.
    pub(crate) fn come(&mut self, s: Service, label: u32)
        requires there { HasCount self.old s.0 label }
        requires below { count_in self.old s.0 label + 1 < 2 ^ 32 }
        ensures { HasOneAt s.0 label self.old self.new }
    {
        if let Some(count) = self.map.get_mut(&(s.0, label)) {
            *count += 1;
        }
    }

    /// Counts one process less of a service at a label.
    pub(crate) fn go(&mut self, s: Service, label: u32)
        requires { 0 < count_in self.old s.0 label }
        ensures { HasOneAt s.0 label self.new self.old }
    {
        let left = self.at(s, label) - 1;
        if left == 0 {
            self.map.remove(&(s.0, label));
        } else if let Some(count) = self.map.get_mut(&(s.0, label)) {
            *count = left;
        }
    }
}
