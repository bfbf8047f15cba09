//! What a draft keeps.

use crate::lists::Lists;
use crate::loads::Loads;
use crate::members::Members;
use ra_base::Parts;
use ra_cells::Greatest;
use ra_model::Instance;
use ra_topology::Topology;

/// What a draft keeps: its instance and the topology of the instance, which it borrows, the lists that edits change,
/// the counts of these lists, and the parts of the cost of the current list.
#[derive(Drop)]
pub(crate) struct Kept<'a> {
    pub(crate) inst: &'a Instance,
    pub(crate) topo: &'a Topology,
    pub(crate) lists: Lists,
    pub(crate) loads: Loads,
    pub(crate) members: Members,
    pub(crate) moved: Greatest,
    pub(crate) parts: Parts,
}
