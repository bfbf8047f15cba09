ghost use Rattle.std.specs.Prelude.{◌≡◌, ◌<◌, length, slice_index, slice_set, ◌==◌};
ghost use Rattle.ra_model.specs.Members.{member_at};
ghost use Rattle.ra_check.specs.Stamps.{seat_of, site_of, AreMarksBelow};

use ra_base::{Assignment, Fixed, Machine, Process};
use ra_model::Places;

/// The machine of process `k` of a list.
#[tactic(auto, using(crate::proofs::StampLemmas::reads))]
pub(crate) fn seat(a: &Assignment, processes: &[Process], k: usize) -> Machine
    requires there { k < length processes.now }
    requires within { member_at processes.now k < length a.now.items }
    ensures { result.0 ≡ seat_of a.now.items processes.now k }
{
    let p = processes[k];
    a.get(p.0 as usize)
}

/// The location of that machine.
#[tactic(auto, unfolding(crate::specs::Stamps::site_of))]
pub(crate) fn location_place(
    places: &Places,
    a: &Assignment,
    processes: &[Process],
    k: usize,
) -> Machine
    requires there { k < length processes.now }
    requires within { member_at processes.now k < length a.now.items }
    requires place { seat_of a.now.items processes.now k < length places.now.locations }
    ensures { result.0 ≡ site_of places.now.locations a.now.items processes.now k }
{
    places.location(seat(a, processes, k))
}

/// The neighbourhood of that machine.
#[tactic(auto, unfolding(crate::specs::Stamps::site_of))]
pub(crate) fn neighbourhood_place(
    places: &Places,
    a: &Assignment,
    processes: &[Process],
    k: usize,
) -> Machine
    requires there { k < length processes.now }
    requires within { member_at processes.now k < length a.now.items }
    requires place { seat_of a.now.items processes.now k < length places.now.neighbourhoods }
    ensures { result.0 ≡ site_of places.now.neighbourhoods a.now.items processes.now k }
{
    places.neighbourhood(seat(a, processes, k))
}

/// Whether a place has the stamp.
#[tactic(auto, using(crate::proofs::StampLemmas::reads))]
pub(crate) fn is_stamped(marks: &Fixed<u32>, place: Machine, stamp: u32) -> bool
    requires { place.0 < length marks.now.items }
    ensures { result ≡ (slice_index marks.now.items place.0 == stamp) }
{
    marks.get(place.0 as usize) == stamp
}

/// Stamps a place, and says whether it had the stamp before.
pub(crate) fn stamp_place(marks: &mut Fixed<u32>, place: Machine, stamp: u32) -> bool
    requires { place.0 < length marks.old.items }
    ensures before { result ≡ (slice_index marks.old.items place.0 == stamp) }
    ensures marks { marks.new.items ≡ slice_set marks.old.items place.0 stamp }
{
    let before = is_stamped(marks, place, stamp);
    marks.set(place.0 as usize, stamp);
    before
}

/// Clears all stamps.
#[tactic(auto, using(crate::proofs::StampLemmas::clearing))]
pub(crate) fn clear(marks: &mut Fixed<u32>)
    ensures { AreMarksBelow marks.new.items (length marks.old.items) 1 }
{
    for x in 0..marks.len() {
        marks.set(x, 0);
    }
}
