ghost use Rattle.std.specs.Prelude.{◌≡◌, ◌<◌, ◌≤◌, length};
ghost use Rattle.ra_model.specs.Numbers.{resource_count, requirement_of};
ghost use Rattle.ra_model.specs.Assignments.{IsAssignment};
ghost use Rattle.ra_model.proofs.BrokenLemmas.{Fine};
ghost use Rattle.ra_topology.specs.Fits.{IsTopologyOf};
ghost use Rattle.ra_moves.specs.Steps.{process_in, step_at};
ghost use Rattle.ra_moves.specs.Replacing.{applied};
ghost use Rattle.ra_moves.specs.Moving.{IsMove, MayMove};
ghost use Rattle.ra_moves.specs.Laws.{AreLocal};
ghost use Rattle.ra_rows.specs.Rows as row_words;
ghost use Rattle.ra_cells.specs.Stands as cell_words;
ghost use Rattle.ra_world.specs.Required.{AreRequiredRows};
ghost use Rattle.ra_weigh.specs.Flowing.{AreFirstSteps, AreNone};

use ra_base::{Assignment, Resource};
use ra_cells::Cells;
use ra_model::Instance;
use ra_moves::{Move, Step};
use ra_rows::Rows;
use ra_topology::Topology;
use ra_world::World;

/// A move on trial: what is kept of the assignment that it would change, and what its processes require, by step, then
/// resource, 20 for each step.
#[derive(Drop)]
pub(crate) struct Trial<'a, 'b> {
    pub(crate) inst: &'b Instance,
    pub(crate) topo: &'b Topology,
    pub(crate) start: &'b Assignment,
    pub(crate) at: &'a Assignment,
    pub(crate) rows: &'a Rows<'b>,
    pub(crate) cells: &'a Cells<'b>,
    pub(crate) mv: &'a Move,
    pub(crate) required: &'a [u32; 60],
    /// The steps of the move, read once, and how many there are.
    all: [Step; 3],
    count: u32,
    /// Zero of each resource.
    pub(crate) nothing: [u32; 20],
    pub ghost moves: { IsMove inst.now.tables at.now.items mv.now.steps },
    pub ghost begins: { IsAssignment inst.now.tables start.now.items },
    pub ghost fine: { Fine inst.now.tables start.now.items at.now.items },
    pub ghost local: { AreLocal inst.now.tables start.now.items (applied at.now.items
        mv.now.steps) mv.now.steps },
    pub ghost topology: { IsTopologyOf topo.now inst.now.tables },
    pub ghost rows_tables: { rows.now.tables ≡ inst.now.tables },
    pub ghost rows_start: { rows.now.start ≡ start.now.items },
    pub ghost rows_stand: { row_words.StandFor rows.now at.now.items },
    pub ghost cells_tables: { cells.now.inst.now.tables ≡ inst.now.tables },
    pub ghost cells_stand: { cell_words.StandFor cells.now inst.now.tables start.now.items
        at.now.items },
    pub ghost known: { AreRequiredRows inst.now.tables mv.now.steps (length mv.now.steps)
        required.now },
    pub ghost read: { AreFirstSteps mv.now.steps all },
    pub ghost counted: { count ≡ length mv.now.steps },
    pub ghost nothing_each: { AreNone nothing },
    pub ghost nothing_width: { length nothing ≡ 20 },
}

impl<'a, 'b> Trial<'a, 'b> {
    /// Makes the trial of a move of a world.
    #[inline(always)]
    pub(crate) fn of(world: &'a World<'b>, mv: &'a Move, required: &'a [u32; 60]) -> Trial<'a, 'b>
        requires moves { MayMove world.now mv.now.steps }
        requires required { AreRequiredRows world.now.tables mv.now.steps
            (length mv.now.steps) required.now }
        ensures instance { result.inst.now.tables ≡ world.now.tables }
        ensures initial { result.start.now.items ≡ world.now.start }
        ensures assignment { result.at.now.items ≡ world.now.here }
        ensures steps { result.mv.now.steps ≡ mv.now.steps }
    {
        Trial {
            inst: world.instance(),
            topo: world.topology(),
            start: world.initial(),
            at: world.assignment(),
            rows: world.rows(),
            cells: world.cells(),
            mv,
            required,
            all: steps_of(mv),
            count: mv.steps(),
            nothing: [0; 20],
        }
    }

    /// How many steps the move has.
    #[inline(always)]
    pub(crate) fn steps(&self) -> u32
        ensures value { result ≡ length self.now.mv.now.steps }
        ensures few { result ≤ 3 }
    {
        self.count
    }

    /// A step of the move, counted from 0.
    #[inline(always)]
    pub(crate) fn step(&self, j: u32) -> Step
        requires { j < length self.now.mv.now.steps }
        ensures { result ≡ step_at self.now.mv.now.steps j }
    {
        self.all[j as usize]
    }

    /// What the process of a step requires of a resource.
    #[inline(always)]
    pub(crate) fn required(&self, j: u32, r: Resource) -> u32
        requires step { j < length self.now.mv.now.steps }
        requires resource { r.0 < resource_count self.now.inst.now.tables }
        ensures { result ≡ requirement_of self.now.inst.now.tables
            (process_in self.now.mv.now.steps j) r.0 }
    {
        self.required[j as usize * 20 + r.0 as usize]
    }
}

/// The steps of a move, filled up with others.
#[inline(always)]
fn steps_of(mv: &Move) -> [Step; 3]
    ensures { AreFirstSteps mv.now.steps result }
{
    let count = mv.steps();
    let one = mv.step(0);
    if count == 1 {
        return [one, one, one];
    }
    let two = mv.step(1);
    if count == 2 {
        return [one, two, two];
    }
    [one, two, mv.step(2)]
}
