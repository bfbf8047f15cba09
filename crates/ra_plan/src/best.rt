ghost use Rattle.std.specs.Prelude.{◌≡◌, ℕ, ◌+◌, ◌≤◌, List, Option, Some, None, if◌then◌else◌};
ghost use Rattle.ra_base.specs.Searches.{is_better};
ghost use Rattle.ra_base.specs.declared.causes.Drawing.{Drawing};
ghost use Rattle.ra_model.specs.Situations.{Situation, cost_at};
ghost use Rattle.ra_moves.specs.Judging.{judge, IsMoveBelow};
ghost use Rattle.ra_moves.specs.declared.steps.Step.{Step};
ghost use Rattle.ra_plan.specs.Choosing.{IsBest, steps_in, cost_to_beat};

use ra_moves::Verdict;

/// The best option so far.
#[derive(Clone, Copy)]
pub(crate) struct Best {
    /// The cost after it, if an option is done.
    pub(crate) cost: Option<u128>,
    /// Its number, and 0 if no option is done.
    pub(crate) option: u32,
}

impl Best {
    /// No option so far.
    pub(crate) fn none() -> Best
        ensures { (st : Situation) (x : List ℕ) (d : Drawing) (allowed : ℕ) → IsBest st x d allowed 0
            result }
    {
        Best {
            cost: None,
            option: 0,
        }
    }

    /// What a cost has to be below so that its option becomes the best: the cost of the best so far, or the first cost
    /// that is too high.
    #[inline(always)]
    #[tactic(auto, unfolding(crate::specs::Choosing::cost_to_beat))]
    pub(crate) fn bound(&self, most: u128) -> u128
        ensures { result ≡ cost_to_beat self.now.cost most }
    {
        match self.cost {
            Some(least) => least,
            None => most,
        }
    }

    /// Takes the next option, if a cost below the bound was found for it.
    #[inline(always)]
    pub(crate) fn or_found(self, option: u32, found: Option<u128>) -> Best
        ensures best { (st : Situation) (x : List ℕ) (d : Drawing) (allowed : ℕ) (steps : List Step)
            → IsBest st x d allowed option self
            → steps_in st x d option ≡ steps
            → IsMoveBelow st steps (cost_to_beat self.cost (cost_at st + allowed + 1)) found
            → IsBest st x d allowed (option + 1) result }
        ensures bound { (st : Situation) (steps : List Step) (most : ℕ)
            → IsMoveBelow st steps (cost_to_beat self.cost most) found
            → cost_to_beat result.cost most ≤ cost_to_beat self.cost most }
        ensures next { (most : ℕ) → cost_to_beat result.cost most
            ≡ cost_to_beat found (cost_to_beat self.cost most) }
    {
        match found {
            Some(_) => Best {
                cost: found,
                option,
            },
            None => self,
        }
    }

    /// Takes the next option, with its verdict, if it is done at a lower cost.
    #[inline(always)]
    pub(crate) fn consider(self, option: u32, verdict: &Verdict) -> Best
        ensures { (st : Situation) (x : List ℕ) (d : Drawing) (allowed : ℕ)
            → IsBest st x d allowed option self
            → verdict.now ≡ judge st (steps_in st x d option) allowed
            → IsBest st x d allowed (option + 1) result }
    {
        match *verdict {
            Verdict::Done { cost } => self.or_done(option, cost),
            Verdict::Refused { .. } => self,
        }
    }

    /// The option that is done at a cost, if this cost is lower, else the best so far.
    #[inline(always)]
    fn or_done(self, option: u32, cost: u128) -> Best
        ensures { result ≡ (if is_better (Some cost) self.cost
            then record { cost = Some cost; option = option } else self) }
    {
        if self.is_above(cost) {
            Best {
                cost: Some(cost),
                option,
            }
        } else {
            self
        }
    }

    /// Whether a cost is below that of the best so far, or is the first one.
    #[inline(always)]
    #[tactic(auto, unfolding(ra_base::specs::Searches::is_better))]
    fn is_above(&self, cost: u128) -> bool
        ensures { result ≡ is_better (Some cost) self.now.cost }
    {
        match self.cost {
            Some(least) => cost < least,
            None => true,
        }
    }
}
