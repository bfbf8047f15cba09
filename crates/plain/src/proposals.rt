ghost use Rattle.std.specs.Prelude.{◌≡◌, ◌<◌};
ghost use Rattle.ra_journal.specs.Entries.{worker_count, budget, words, allowed};

use ra_draws::{Draws, Lots, allow};

/// The words of proposal `k` of a worker. It first draws those of the proposals before.
pub(crate) fn words_of(lots: &Lots, worker: u32, k: u64) -> [u64; 8]
    requires there { worker < worker_count lots.now }
    requires left { k < budget lots.now worker }
    ensures { result ≡ words lots.now worker k }
{
    let lot = lots.lot(worker);
    let mut draws = Draws::make(lot);
    for _made in 0..k {
        let _earlier = draws.words_for_next();
    }
    draws.words_for_next()
}

/// By how much proposal `k` of a worker may raise the cost.
pub(crate) fn allowed_of(lots: &Lots, worker: u32, k: u64) -> u64
    requires there { worker < worker_count lots.now }
    requires left { k < budget lots.now worker }
    ensures { result ≡ allowed lots.now worker k }
{
    allow(lots.slack(), lots.lot(worker).budget, k)
}
