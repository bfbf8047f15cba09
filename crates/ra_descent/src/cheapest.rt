ghost use Rattle.std.specs.Prelude.{ℕ, ◌<◌};
ghost use Rattle.ra_model.specs.Numbers.{machine_count};
ghost use Rattle.ra_model.specs.Situations.{Situation};
ghost use Rattle.ra_shift.specs.Arriving.{IsCostBelow};
ghost use Rattle.ra_descent.specs.Cheapest.{IsOffer, HasAlso};

use ra_base::Machine;

/// The cheapest machine for a process so far.
#[derive(Clone, Copy)]
pub(crate) struct Cheapest {
    /// The cost after the shift to it, and the cost now if there is none.
    pub(crate) cost: u128,
    /// The machine, if the shift to one of those looked at makes the list cheaper.
    pub(crate) to: Option<Machine>,
}

impl Cheapest {
    /// Takes the next machine, if a cost below the least so far was found for it.
    #[inline(always)]
    pub(crate) fn or_found(self, to: Machine, found: Option<u128>) -> Cheapest
        ensures { (st : Situation) (p : ℕ) → to.0 < machine_count st.tables → IsOffer st p self
            → IsCostBelow st p to.0 self.cost found → HasAlso st p to.0 self result }
    {
        match found {
            Some(cost) => Cheapest { cost, to: Some(to) },
            None => self,
        }
    }
}
