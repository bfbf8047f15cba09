ghost use Rattle.std.specs.Prelude.{List, IfOk};
ghost use Rattle.ra_journal.specs.declared.entries.Entry.{Entry as Recorded};
ghost use Rattle.ra_journal.specs.Openings.{opening};
ghost use Rattle.ra_topology.specs.Starts.{IsFeasibleStart};
ghost use Rattle.ra_worker.specs.AllReplicas.{AreAt};

use crate::Replica;
use ra_base::{Assignment, NoMemory, Parts};
use ra_draws::Lots;
use ra_model::Instance;
use ra_topology::Topology;
use std::alloc::Global;

/// One replica for each worker, in order, all at place 0.
pub fn make_replicas<'a>(
    alloc: Global,
    inst: &'a Instance,
    topo: &'a Topology,
    a0: &'a Assignment,
    start: Parts,
    lots: &'a Lots,
) -> Result<Vec<Replica<'a>>, NoMemory>
    requires { IsFeasibleStart inst.now.tables topo.now a0.now.items start }
    ensures { IfOk result (λ replicas. (h : List Recorded) →
        AreAt (opening inst.now.tables a0.now.items lots.now) h replicas.items) }
{
    let mut replicas = Vec::new(alloc);
    for worker in 0..lots.len() {
        let replica = Replica::make(alloc, inst, topo, a0, start, lots, worker)?;
        replicas.push(replica)?;
    }
    Ok(replicas)
}
