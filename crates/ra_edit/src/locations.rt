//! In how many locations the processes of each service are.
ghost use Rattle.std.specs.Prelude.{◌≡◌, ℕ, ◌+◌, ◌^◌, ◌<◌, length, slice_index, IfOk};
ghost use Rattle.ra_model.specs.Numbers.{service_count};
ghost use Rattle.ra_edit.specs.Counts.{count_in, HasCount, HasOneAt};
ghost use Rattle.ra_edit.specs.Locations.{labels_in, AreNumbered};

use crate::counts::Counts;
use ra_base::{Fixed, NoMemory, Service};
use ra_model::{Instance, copies};
use std::alloc::Global;

/// How many processes of each service are in each location, and in how many locations there is one.
pub(crate) struct Locations {
    pub(crate) counts: Counts,
    /// The numbers of locations, by service.
    pub(crate) numbers: Fixed<u32>,
}

/// Frees both in one call, so that the end of an owner is short to prove.
impl Drop for Locations {
    fn drop(self) {
        let Locations {
            counts: _,
            numbers: _,
        } = self;
    }
}

impl Locations {
    /// No process is counted.
    pub(crate) fn make(alloc: Global, inst: &Instance) -> Result<Locations, NoMemory>
        ensures empty { IfOk result (λ made. (s label : ℕ) → count_in made.counts s label ≡ 0) }
        ensures numbered { IfOk result (λ made. AreNumbered (service_count inst.now.tables) made) }
    {
        let numbers = copies(alloc, inst.services() as usize, 0u32)?;
        Ok(Locations {
            counts: Counts::new(alloc),
            numbers,
        })
    }

    /// In how many locations a process of a service is.
    pub(crate) fn number(&self, s: Service) -> u32
        requires { s.0 < length self.now.numbers.items }
        ensures { result ≡ slice_index self.now.numbers.items s.0 }
    {
        self.numbers.get(s.0 as usize)
    }

    /// Counts one more process of a service in a location.
    pub(crate) fn come(&mut self, s: Service, label: u32)
        requires service { s.0 < length self.old.numbers.items }
        requires numbered { AreNumbered (length self.old.numbers.items) self.old }
        requires there { HasCount self.old.counts s.0 label }
        requires below { count_in self.old.counts s.0 label + 1 < 2 ^ 32 }
        requires few { labels_in self.old.counts s.0 + 1 < 2 ^ 32 }
        ensures counted { HasOneAt s.0 label self.old.counts self.new.counts }
        ensures numbered { AreNumbered (length self.old.numbers.items) self.new }
    {
        let before = self.counts.at(s, label);
        self.counts.come(s, label);
        if before == 0 {
            let more = self.number(s) + 1;
            self.numbers.set(s.0 as usize, more);
        }
    }

    /// Counts one process less of a service in a location.
    pub(crate) fn go(&mut self, s: Service, label: u32)
        requires service { s.0 < length self.old.numbers.items }
        requires numbered { AreNumbered (length self.old.numbers.items) self.old }
        requires there { 0 < count_in self.old.counts s.0 label }
        ensures counted { HasOneAt s.0 label self.new.counts self.old.counts }
        ensures numbered { AreNumbered (length self.old.numbers.items) self.new }
    {
        self.counts.go(s, label);
        if self.counts.at(s, label) == 0 {
            let fewer = self.number(s) - 1;
            self.numbers.set(s.0 as usize, fewer);
        }
    }
}
