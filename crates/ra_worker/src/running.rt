ghost use Rattle.ra_worker.specs.Running.{MayRun, HasRun};

use crate::ahead::Ahead;
use crate::worker::Worker;
use ra_io::Gate;
use ra_shared::{Labour, Shared};
use std::sync::Wait;

/// What all workers of a run share: the journal, and the gate that each passes before it commits.
#[derive(Drop)]
pub struct Desk<'s, 'a, G> {
    /// The journal.
    pub shared: &'s Shared<'a>,
    /// The gate.
    pub gate: &'s G,
}

impl<'s, 'a, G: Gate> Labour<Desk<'s, 'a, G>> for Worker<'a> {
    ghost able = { λ desk w. MayRun desk.shared.now w };

    ghost done = { λ desk before after. HasRun desk.shared.now before after };

    // Plans proposals, at one state, and hands in each plan after passing the gate, until the budget is used. If a plan
    // is stale, its proposal remains the next one and is planned again. The worker is outside its turns while it plans.
    fn labour<R: Wait>(&mut self, rt: &R, with: &Desk<'s, 'a, G>) {
        let mut ahead = Ahead::make(self.replica.lots().len());
        'proposals: while self.has_left() {
            let first = self.plan_next();
            self.plan_ahead(&first, &mut ahead);
            'round: while ahead.has_next() {
                ahead.place_next(self.replica.place());
                let plan = ahead.next(&first);
                with.gate.before_commit(self.pass.number(), plan.k);
                let quiet = self.hand_in(rt, with.shared, plan);
                ahead.move_on(quiet);
            }
        }
    }
}

impl<'a> Worker<'a> {
    /// Makes all proposals of the worker's budget: plans each, passes the gate and hands the plan in, and plans again
    /// if the plan was stale. It may wait for others.
    pub fn run<R: Wait, G: Gate>(&mut self, rt: &R, shared: &Shared<'a>, gate: &G)
        requires { MayRun shared.now self.old }
        ensures { HasRun shared.now self.old self.new }
    {
        let desk = Desk { shared, gate };
        self.labour(rt, &desk);
    }
}
