ghost use Rattle.std.specs.Prelude.{◌≡◌, ◌<◌, ◌≤◌, length};
ghost use Rattle.ra_draws.specs.Lots.{IsLots, lot_at};

use crate::sources::Lot;
use ra_base::Drawing;

/// The lots of a run, one for each worker, with the slack and the drawing that all of them share.
#[derive(Drop)]
pub struct Lots {
    slack: u64,
    drawing: Drawing,
    lots: Vec<Lot>,
    pub ghost fitting: { IsLots lots.items },
}

impl Lots {
    ghost use Rattle.ra_draws.specs.Shown.{slack_in, drawing_in, lots_shown};

    /// The lots of a run: 1 to 16 of them, with budgets of at most 1,000,000 together, and with eight words for each
    /// proposal of a written lot.
    pub fn of(slack: u64, drawing: Drawing, lots: Vec<Lot>) -> Lots
        requires { IsLots lots.items }
        ensures slack { slack_in result ≡ slack }
        ensures drawing { drawing_in result ≡ drawing }
        ensures lots { lots_shown result ≡ lots.items }
    {
        Lots {
            slack,
            drawing,
            lots,
        }
    }

    /// An upper bound of the rise of cost that a worker's first proposal may bring; the allowance falls to 0 at its
    /// last one.
    pub fn slack(&self) -> u64
        ensures { result ≡ slack_in self.now }
    {
        self.slack
    }

    /// How the words of a proposal name the machines of a shift.
    pub fn drawing(&self) -> Drawing
        ensures { result ≡ drawing_in self.now }
    {
        self.drawing
    }

    /// How many lots there are, from 1 to 16.
    pub fn len(&self) -> u32
        ensures value { result ≡ length (lots_shown self.now) }
        ensures some { 1 ≤ result }
        ensures few { result ≤ 16 }
    {
        self.lots.len() as u32
    }

    /// The lot of worker `w`.
    #[tactic(auto, unfolding(crate::specs::Lots::lot_at))]
    pub fn lot(&self, w: u32) -> &Lot
        requires { w < length (lots_shown self.now) }
        ensures { result.now ≡ lot_at (lots_shown self.now) w }
    {
        &self.lots[w as usize]
    }
}
