use ra_base::{Machine, Process};

/// The kinds of moves.
#[derive(Clone, Copy, Debug, PartialEq, Eq)]
pub enum MoveKind {
    /// One step: a process goes to a machine.
    Shift,
    /// Two steps: two processes exchange their machines.
    Swap,
    /// Three steps: a process goes to the machine of a second one, which goes to the machine of a third one, which goes
    /// to a machine.
    Chain,
}

/// A process leaves one machine for another.
#[derive(Clone, Copy, Debug, PartialEq, Eq)]
pub struct Step {
    /// The process that moves.
    pub process: Process,
    /// The machine that it leaves.
    pub from: Machine,
    /// The machine that it enters.
    pub to: Machine,
}
