ghost use Rattle.std.specs.Prelude.{◌≡◌, ℕ, ◌<◌, None, length, IfOk, IfSome};
ghost use Rattle.ra_base.specs.declared.causes.Cause.{Cause};
ghost use Rattle.ra_model.specs.Numbers.{machine_count};
ghost use Rattle.ra_model.specs.Assignments.{IsAssignment};
ghost use Rattle.ra_model.specs.Broken.{first_broken};
ghost use Rattle.ra_model.specs.Situations.{situation, parts_at};
ghost use Rattle.ra_check.specs.Made.{IsMadeFor};
ghost use Rattle.ra_topology.specs.Fits.{IsTopologyOf};
ghost use Rattle.ra_moves.specs.declared.verdicts.Verdict.TheVariants.{Done, Refused};
ghost use Rattle.ra_moves.specs.Steps.{StandsAt, from_in, to_in};
ghost use Rattle.ra_moves.specs.Replacing.{after_move};
ghost use Rattle.ra_moves.specs.Judging.{judge};
ghost use Rattle.test_replica.specs.Asked.{asked};

use plain::judge_plainly;
use ra_base::{Assignment, Drawing, NoMemory, Parts, Steps};
use ra_check::{Scratch, first_broken, parts};
use ra_model::{Instance, copied};
use ra_moves::{Move, Verdict, apply, options, resolve};
use ra_topology::Topology;
use ra_world::World;
use std::alloc::Global;
use std::sync::ledger::Ledger;

/// A world, and a copy of its assignment with the tables of the checker. Both follow the same moves.
#[derive(Drop)]
pub struct Beside<'a> {
    world: World<'a>,
    other: Assignment,
    scratch: Scratch,
    pub ghost same: { other.items ≡ world.here },
    pub ghost made: { IsMadeFor scratch world.tables },
}

impl<'a> Beside<'a> {
    /// The world of an initial assignment, if this is feasible, and the checker beside it.
    pub fn make(
        alloc: Global,
        inst: &'a Instance,
        topo: &'a Topology,
        a0: &'a Assignment,
    ) -> Result<Option<Beside<'a>>, NoMemory>
        requires fits { IsAssignment inst.now.tables a0.now.items }
        requires topology { IsTopologyOf topo.now inst.now.tables }
        ensures world { IfOk result (λ made. IfSome made (λ b. b.world ≡
            situation inst.now.tables a0.now.items a0.now.items)) }
        ensures none { IfOk result (λ made. made ≡ None →
            first_broken inst.now.tables a0.now.items a0.now.items ≡ None → ⊥) }
    {
        let mut scratch = Scratch::make(alloc, inst)?;
        if first_broken(inst, a0, a0, &mut scratch).is_some() {
            return Ok(None);
        }
        let costs = parts(inst, a0, a0, &mut scratch);
        let world = World::make(alloc, inst, topo, a0, costs)?;
        let other = copied(alloc, a0)?;
        Ok(Some(Beside {
            world,
            other,
            scratch,
        }))
    }

    /// The world.
    pub fn world(&self) -> &World<'a>
        ensures { result.now ≡ self.now.world }
    {
        &self.world
    }

    /// The parts of the cost of its assignment, from scratch.
    pub fn checked_parts(&mut self) -> Parts
        ensures parts { result ≡ parts_at self.old.world }
        ensures world { self.new.world ≡ self.old.world }
    {
        let inst = self.world.instance();
        let a0 = self.world.initial();
        parts(inst, a0, &self.other, &mut self.scratch)
    }

    /// Follows a move on both sides, if the plain checker judges it Done; a rise of the cost is allowed.
    pub fn follow<L: Ledger>(&mut self, mv: &Move, steps: &mut Steps<L>) -> Verdict
        requires stands { StandsAt from_in mv.now.steps self.old.world.here }
        requires reaches { (j : ℕ) → j < length mv.now.steps →
            to_in mv.now.steps j < machine_count self.old.world.tables }
        ensures verdict { result ≡ judge self.old.world
            mv.now.steps 18446744073709551615 }
        ensures done { (cost : ℕ) → result ≡ Done cost →
            self.new.world ≡ after_move self.old.world mv.now.steps }
        ensures refused { (cause : Cause) → result ≡ Refused cause →
            self.new.world ≡ self.old.world }
        ensures instance { self.new.world.tables ≡ self.old.world.tables }
        ensures initial { self.new.world.start ≡ self.old.world.start }
    {
        let inst = self.world.instance();
        let a0 = self.world.initial();
        let before = self.world.parts().total;
        let (other, scratch) = (&mut self.other, &mut self.scratch);
        let verdict = judge_plainly(inst, a0, other, scratch, before, mv, u64::MAX);
        if let Verdict::Done { .. } = verdict {
            apply(&mut self.other, mv);
            self.world.apply(mv, steps);
        }
        verdict
    }

    /// Follows the move that eight words ask for, if it is judged Done: the last word picks one of those that they
    /// name.
    #[tactic(auto, unfolding(crate::specs::Asked::asked))]
    pub fn propose<L: Ledger>(&mut self, words: &[u64; 8], steps: &mut Steps<L>) -> Verdict
        ensures verdict { result ≡ judge self.old.world
            (asked self.old.world.tables self.old.world.here words.now)
            18446744073709551615 }
        ensures done { (cost : ℕ) → result ≡ Done cost →
            self.new.world ≡ after_move self.old.world
            (asked self.old.world.tables self.old.world.here words.now) }
        ensures refused { (cause : Cause) → result ≡ Refused cause →
            self.new.world ≡ self.old.world }
        ensures instance { self.new.world.tables ≡ self.old.world.tables }
        ensures initial { self.new.world.start ≡ self.old.world.start }
    {
        let machines = self.world.instance().machines();
        let count = options(words, machines, Drawing::Two);
        let option = (words[7] % u64::from(count)) as u32;
        let assignment = self.world.assignment();
        let mv = resolve(assignment, words, machines, Drawing::Two, option);
        self.follow(&mv, steps)
    }
}
