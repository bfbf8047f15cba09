ghost use Rattle.std.specs.Prelude.{◌≡◌, ℕ, ◌+◌, ◌<◌, ◌≤◌, true, false};
ghost use Rattle.ra_worker.specs.Ahead.{ahead_at, HasAdded, HasPlaced};

use ra_base::{Machine, Process};
use ra_moves::{Move, Plan, Step, Weighed};

/// What a worker has planned ahead. A round consists of a plan of its next proposal and of the plans of the proposals
/// after it that are made ahead. As soon as a move is done the rest of the round is dropped.
#[derive(Drop)]
pub(crate) struct Ahead {
    pub(crate) plans: [Plan; 63],
    /// How many plans of this round were made ahead.
    pub(crate) made: u64,
    /// Which plan of this round comes next. Plan 0 is the one that was not made ahead.
    pub(crate) at: u64,
    /// At most how many plans are made ahead in the next round, and in any round.
    most: u64,
    limit: u64,
}

impl Ahead {
    /// Room for what one of this number of workers plans ahead. A round has at most 64 plans, and one if the worker is
    /// alone.
    pub(crate) fn make(workers: u32) -> Ahead {
        let limit = if workers == 1 { 0 } else { 63 };
        Ahead {
            plans: [blank(); 63],
            made: 0,
            at: 0,
            most: 0,
            limit,
        }
    }

    /// Begins a round, and gives how many plans are made ahead in it at most.
    pub(crate) fn begin(&mut self) -> u64
        ensures few { result ≤ 63 }
        ensures none { self.new.made ≡ 0 }
        ensures at { self.new.at ≡ 0 }
    {
        self.made = 0;
        self.at = 0;
        self.most.min(63)
    }

    /// Adds a plan.
    pub(crate) fn add(&mut self, plan: Plan)
        requires { self.old.made < 63 }
        ensures { HasAdded self.old self.new plan }
    {
        self.plans[self.made as usize] = plan;
        self.made += 1;
    }

    /// Whether a plan of this round comes next.
    pub(crate) fn has_next(&self) -> bool
        ensures some { result ≡ true → self.now.at ≤ self.now.made }
        ensures none { result ≡ false → self.now.made < self.now.at }
    {
        self.at <= self.made
    }

    /// Gives the next plan the place at which it is handed in. Plan 0 has this place already.
    pub(crate) fn place_next(&mut self, place: u64)
        requires { self.old.at ≤ 63 }
        ensures { HasPlaced self.old self.new place }
    {
        if self.at > 0 {
            self.plans[(self.at - 1) as usize].q = place;
        }
    }

    /// The next plan of this round, whose plan 0 is `first`.
    #[inline(never)]
    pub(crate) fn next<'p>(&'p self, first: &'p Plan) -> &'p Plan
        requires { self.now.at ≤ 63 }
        ensures first { self.now.at ≡ 0 → result.now ≡ first.now }
        ensures later { (j : ℕ) → j + 1 ≡ self.now.at
            → result.now ≡ ahead_at self.now j result.now }
    {
        if self.at == 0 {
            first
        } else {
            &self.plans[(self.at - 1) as usize]
        }
    }

    /// Notes that the next plan was handed in. If the turn wasn't quiet, the rest of the round is dropped. The next
    /// round may be half as long if some plans were dropped, and one plan longer if none were.
    pub(crate) fn move_on(&mut self, quiet: bool)
        requires next { self.old.at ≤ self.old.made }
        requires few { self.old.made ≤ 63 }
        ensures plans { self.new.plans ≡ self.old.plans }
        ensures made { self.new.made ≡ self.old.made }
        ensures next { quiet ≡ true → self.new.at ≡ self.old.at + 1 }
        ensures none { quiet ≡ false → self.new.made < self.new.at }
    {
        if self.at == self.made {
            self.most = self.most.saturating_add(1).min(self.limit);
        } else if !quiet {
            self.most = self.most.saturating_sub(1) / 2;
            self.at = self.made;
        }
        self.at += 1;
    }
}

/// A plan that fills unused places.
fn blank() -> Plan {
    let step = Step {
        process: Process(0),
        from: Machine(0),
        to: Machine(0),
    };
    let weighed = Weighed {
        broken: None,
        local: 0,
        first: None,
        second: None,
        third: None,
    };
    Plan {
        q: 0,
        k: 0,
        mv: Move::shift(step),
        weighed,
    }
}
