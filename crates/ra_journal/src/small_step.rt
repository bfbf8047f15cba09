ghost use Rattle.std.specs.Prelude.{◌≡◌, true};
ghost use Rattle.ra_journal.specs.SmallSteps.{IsSmallStep};

use ra_base::{Machine, Process};
use ra_moves::Step;
use std::marker::Model;

/// A step in six bytes, whose process and machines are below 2^16. Contracts see the step.
#[derive(Clone, Copy)]
pub(crate) struct SmallStep {
    process: u16,
    from: u16,
    to: u16,
}

impl Model for SmallStep {
    ghost use Rattle.ra_moves.specs.declared.steps.Step.{Step};

    ghost Value = { Step };

    ghost view = { λ s. record {
      process = record { 0 = s.process };
      from = record { 0 = s.from };
      to = record { 0 = s.to };
    } };

    ghost inverse = { λ s. record {
      process = s.process.0;
      from = s.from.0;
      to = s.to.0;
    } };
}

impl SmallStep {
    /// A step in six bytes.
    pub(crate) fn of(step: &Step) -> SmallStep
        requires { IsSmallStep step.now }
        ensures { result ≡ step.now }
    {
        SmallStep {
            process: step.process.0 as u16,
            from: step.from.0 as u16,
            to: step.to.0 as u16,
        }
    }

    /// The step.
    #[inline(always)]
    pub(crate) fn step(&self) -> Step
        ensures { result ≡ self.now }
    {
        Step {
            process: Process(u32::from(self.process)),
            from: Machine(u32::from(self.from)),
            to: Machine(u32::from(self.to)),
        }
    }
}
