ghost use Rattle.std.specs.Prelude.{◌≡◌, ◌<◌, ◌≤◌, [], ◌∷◌, length};
ghost use Rattle.ra_moves.specs.MoveSteps.{MoveSteps, step_count};
ghost use Rattle.ra_moves.specs.Steps.{step_at};
ghost use Rattle.ra_moves.specs.declared.steps.MoveKind.TheVariants.{Shift, Swap, Chain};

use crate::steps::{MoveKind, Step};
use std::marker::Model;

/// The steps of a move, by its kind.
#[derive(Clone, Copy, Debug, PartialEq, Eq)]
enum Form {
    One(Step),
    Two(Step, Step),
    Three(Step, Step, Step),
}

/// A move of one, two or three processes. Contracts see its kind and the list of its steps.
#[derive(Clone, Copy, Debug, PartialEq, Eq)]
pub struct Move {
    form: Form,
}

impl Model for Move {
    ghost use Rattle.std.specs.Prelude.{◌≡◌};
    ghost use Rattle.std.proofs.Common.{ap};
    ghost use Rattle.ra_moves.specs.MoveSteps.{MoveSteps};

    ghost Value = { MoveSteps };

    ghost use Rattle.ra_moves.specs.Forms.{value_of_form, form_of_value, form_back, inside_of};

    ghost view = { λ m. value_of_form m.form };

    ghost inverse = { λ v. inside_of (form_of_value v) };

    ghost inverse_ok = { λ m h. ap inside_of (form_back m.form) };
}

impl Move {
    /// A move of one step.
    pub fn shift(one: Step) -> Move
        ensures { result ≡ record { kind = Shift; steps = one ∷ [] } }
    {
        Move {
            form: Form::One(one),
        }
    }

    /// A move of two steps.
    pub fn swap(one: Step, two: Step) -> Move
        ensures { result ≡ record { kind = Swap; steps = one ∷ two ∷ [] } }
    {
        Move {
            form: Form::Two(one, two),
        }
    }

    /// A move of three steps.
    pub fn chain(one: Step, two: Step, three: Step) -> Move
        ensures { result ≡ record { kind = Chain; steps = one ∷ two ∷ three ∷ [] } }
    {
        Move {
            form: Form::Three(one, two, three),
        }
    }

    /// The kind of the move.
    pub fn kind(&self) -> MoveKind
        ensures { result ≡ self.now.kind }
    {
        match &self.form {
            Form::One(_) => MoveKind::Shift,
            Form::Two(_, _) => MoveKind::Swap,
            Form::Three(_, _, _) => MoveKind::Chain,
        }
    }

    /// How many steps the move has: one for a shift, two for a swap, three for a chain.
    #[tactic(auto, unfolding(crate::specs::MoveSteps::step_count))]
    pub fn steps(&self) -> u32
        ensures value { result ≡ length self.now.steps }
        ensures kind { result ≡ step_count self.now.kind }
        ensures some { 1 ≤ result }
        ensures few { result ≤ 3 }
    {
        match &self.form {
            Form::One(_) => 1,
            Form::Two(_, _) => 2,
            Form::Three(_, _, _) => 3,
        }
    }

    /// A step of the move, counted from 0.
    #[tactic(auto, using(crate::proofs::StepLemmas::step_first, crate::proofs::StepLemmas::step_second, crate::proofs::StepLemmas::step_third))]
    pub fn step(&self, i: u32) -> Step
        requires { i < length self.now.steps }
        ensures { result ≡ step_at self.now.steps i }
    {
        match &self.form {
            Form::One(one) => *one,
            Form::Two(one, two) => { if i == 0 { *one } else { *two } }
            Form::Three(one, two, three) => match i {
                0 => *one,
                1 => *two,
                _ => *three,
            },
        }
    }
}
