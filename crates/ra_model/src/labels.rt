ghost use Rattle.std.specs.Prelude.{◌≡◌, ℕ, ◌<◌, length, IfOk, Some, ◌==◌, if◌then◌else◌, unwrap_or};
ghost use Rattle.std.specs.Ordering.{nat_cmp};
ghost use Rattle.std.specs.BTreeMap.{get};
ghost use Rattle.ra_model.specs.Numbers.{machine_count};
ghost use Rattle.ra_model.specs.Assignments.{machine_at};
ghost use Rattle.ra_model.specs.Places.{AreFirst, ArePlaces, label_of};

use crate::numbers::Instance;
use ra_base::{Fixed, Machine, NoMemory};
use std::alloc::Global;
use std::collections::BTreeMap;
use std::marker::Model;

/// For each machine the first machine with the same location label, and the first with the same neighbourhood label.
/// Labels may be any numbers; places are below the number of machines, and two machines have one place exactly if they
/// have one label.
#[derive(Drop)]
pub struct Places {
    locations: Fixed<Machine>,
    neighbourhoods: Fixed<Machine>,
}

impl Model for Places {
    ghost use Rattle.ra_model.specs.PlaceLists.{PlaceLists};

    ghost Value = { PlaceLists };

    ghost view = { λ p. record {
      locations = p.locations.items;
      neighbourhoods = p.neighbourhoods.items;
    } };
}

/// Which of its two labels is read of a machine.
#[derive(Clone, Copy)]
pub(crate) enum Label {
    Location,
    Neighbourhood,
}

impl Places {
    /// The places of an instance's machines.
    pub fn make(alloc: Global, inst: &Instance) -> Result<Places, NoMemory>
        ensures { IfOk result (λ places. ArePlaces places inst.now.tables) }
    {
        let locations = firsts(alloc, inst, Label::Location)?;
        let neighbourhoods = firsts(alloc, inst, Label::Neighbourhood)?;
        Ok(Places {
            locations,
            neighbourhoods,
        })
    }

    /// The first machine with the location label of `m`.
    #[tactic(auto, using(crate::proofs::TallyLemmas::machine_at_read))]
    pub fn location(&self, m: Machine) -> Machine
        requires { m.0 < length self.now.locations }
        ensures { result.0 ≡ machine_at self.now.locations m.0 }
    {
        self.locations.get(m.0 as usize)
    }

    /// The first machine with the neighbourhood label of `m`.
    #[tactic(auto, using(crate::proofs::TallyLemmas::machine_at_read))]
    pub fn neighbourhood(&self, m: Machine) -> Machine
        requires { m.0 < length self.now.neighbourhoods }
        ensures { result.0 ≡ machine_at self.now.neighbourhoods m.0 }
    {
        self.neighbourhoods.get(m.0 as usize)
    }
}

/// A label of a machine.
#[tactic(auto, unfolding(crate::specs::Places::label_of))]
fn label_at(inst: &Instance, label: Label, m: Machine) -> u32
    requires { m.0 < machine_count inst.now.tables }
    ensures { result ≡ label_of inst.now.tables label m.0 }
{
    match label {
        Label::Location => inst.location(m),
        Label::Neighbourhood => inst.neighbourhood(m),
    }
}

/// For each machine the first one with its label.
fn firsts(alloc: Global, inst: &Instance, label: Label) -> Result<Fixed<Machine>, NoMemory>
    ensures { IfOk result (λ places.
        AreFirst (label_of inst.now.tables label) (machine_count inst.now.tables) places.items) }
{
    let count = inst.machines();
    let mut known = BTreeMap::new(alloc);
    let mut places = Fixed::make(alloc, count as usize)?;
    for m in 0..count {
        let x = label_at(inst, label, Machine(m));
        let place = first_of(&mut known, x, Machine(m))?;
        places.push(place);
    }
    Ok(places)
}

/// The machine that is known for a label. If none is known, `m` becomes it.
fn first_of(known: &mut BTreeMap<u32, Machine>, label: u32, m: Machine) -> Result<Machine, NoMemory>
    ensures place { IfOk result (λ p. p ≡ unwrap_or (get nat_cmp known.old label) m) }
    ensures known { IfOk result (λ p. (q : ℕ) →
        get nat_cmp known.new q ≡ (if label == q then Some p else get nat_cmp known.old q)) }
{
    match known.get(&label).copied() {
        Some(first) => Ok(first),
        None => {
            known.insert(label, m)?;
            Ok(m)
        }
    }
}
