use ra_base::{Fixed, Machine, NoMemory, Process};
use ra_model::{Instance, copies};
use std::alloc::Global;
use std::mem::swap;

/// If more than one of so many machines was left in a turn, all processes are looked at in the next one.
const MANY: usize = 16;

/// Whom the moves of a descent concern: processes whose machine has become dearer, and machines that were left. Nothing
/// is promised of it.
#[derive(Drop)]
pub(crate) struct Concerned {
    /// Whether all processes are to be looked at in this turn; if not, whether each is.
    all: bool,
    awake: Fixed<bool>,
    /// The machines that processes left in the turn before, each once, and those that they have left in this one.
    before: Fixed<Machine>,
    now: Fixed<Machine>,
    /// The number of this turn, and of the last one in which each machine was left.
    turn: u32,
    turns: Fixed<u32>,
}

impl Concerned {
    /// All processes of an instance. All memory is taken here.
    pub(crate) fn make(alloc: Global, inst: &Instance) -> Result<Concerned, NoMemory> {
        let machines = inst.machines() as usize;
        Ok(Concerned {
            all: true,
            awake: copies(alloc, inst.processes() as usize, false)?,
            before: Fixed::make(alloc, machines)?,
            now: Fixed::make(alloc, machines)?,
            turn: 1,
            turns: copies(alloc, machines, 0)?,
        })
    }

    /// Begins anew, with all processes.
    pub(crate) fn begin_anew(&mut self) {
        self.all = true;
    }

    /// Begins the next turn.
    pub(crate) fn begin_turn(&mut self) {
        swap(&mut self.before, &mut self.now);
        self.now.clear();
        self.turn = self.turn.saturating_add(1);
        self.all = self.before.len() > self.turns.len() / MANY;
    }

    /// Whether a process is to be looked at, whatever machines were left. It isn't any more afterwards.
    pub(crate) fn takes(&mut self, p: Process) -> bool {
        let place = p.0 as usize;
        let awake = place < self.awake.len() && self.awake.get(place);
        if awake {
            self.awake.set(place, false);
        }
        awake || self.all
    }

    /// Has a process be looked at.
    pub(crate) fn wake(&mut self, p: Process) {
        let place = p.0 as usize;
        if place < self.awake.len() {
            self.awake.set(place, true);
        }
    }

    /// Notes that a process has left a machine.
    pub(crate) fn leave(&mut self, m: Machine) {
        let place = m.0 as usize;
        let is_new = place < self.turns.len() && self.turns.get(place) != self.turn;
        if is_new && self.now.len() < self.now.room() {
            self.turns.set(place, self.turn);
            self.now.push(m);
        }
    }

    /// The machines that were left in the turn before.
    pub(crate) fn left(&self) -> &[Machine] {
        self.before.as_slice()
    }
}
