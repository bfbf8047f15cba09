ghost use Rattle.std.specs.Prelude.{◌≡◌, ◌<◌, length};
ghost use Rattle.ra_topology.specs.Lists.{services_of};

use ra_base::{Fixed, Service};
use ra_model::part_of;
use std::marker::Model;

/// A list of services for each service, all in one table. Contracts see one list for each service.
#[derive(Drop)]
pub(crate) struct ServiceLists {
    pub(crate) all: Fixed<Service>,
    pub(crate) ends: Fixed<u32>,
}

impl Model for ServiceLists {
    ghost use Rattle.std.specs.Prelude.{List, length};
    ghost use Rattle.ra_base.specs.declared.ids.Service.{Service};
    ghost use Rattle.ra_model.specs.Parts.{parts_from, AreEnds};

    ghost Value = { List (List Service) };

    ghost view = { λ l. parts_from l.all.items 0 l.ends.items };

    ghost invariant = { λ l. AreEnds l.ends.items (length l.all.items) };
}

impl ServiceLists {
    /// The list of a service.
    #[tactic(auto, using(ra_model::proofs::PartLemmas::parts), unfolding(crate::specs::Lists::services_of))]
    pub(crate) fn of(&self, s: Service) -> &[Service]
        requires { s.0 < length self.now }
        ensures { result.now ≡ services_of self.now s.0 }
    {
        part_of(&self.all, &self.ends, s.0)
    }
}
