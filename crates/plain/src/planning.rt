ghost use Rattle.std.specs.Prelude.{◌≡◌, if◌then◌else◌};
ghost use Rattle.ra_base.specs.Searches.{is_better};
ghost use Rattle.ra_model.specs.Assignments.{IsAssignment};
ghost use Rattle.ra_model.specs.Costs.{objective};
ghost use Rattle.ra_model.specs.Situations.{situation};
ghost use Rattle.ra_check.specs.Made.{IsMadeFor};
ghost use Rattle.ra_moves.specs.Options.{done_cost};
ghost use Rattle.plain.specs.Plans.{IsPlannedWithVerdict};

use crate::judging::judge_plainly;
use ra_base::{Assignment, Drawing};
use ra_check::Scratch;
use ra_model::Instance;
use ra_moves::{Move, Verdict, options, resolve};

/// A move with the verdict on it.
#[derive(Clone, Copy, Debug, PartialEq, Eq)]
pub struct Planned {
    /// The move.
    pub mv: Move,
    /// The verdict on it.
    pub verdict: Verdict,
}

/// Plans a proposal on assignment `a`, whose cost is `before`: the first option of least cost among those that its
/// eight words name and that are judged Done, and option 0 if there is none. Each option is judged from scratch on
/// `other`, a second assignment that equals `a`. It takes no memory.
pub fn plan_plainly(
    inst: &Instance,
    a0: &Assignment,
    a: &Assignment,
    other: &mut Assignment,
    scratch: &mut Scratch,
    before: u128,
    words: &[u64; 8],
    drawing: Drawing,
    allowed: u64,
) -> Planned
    requires a0_fits { IsAssignment inst.now.tables a0.now.items }
    requires fits { IsAssignment inst.now.tables a.now.items }
    requires same { other.old.items ≡ a.now.items }
    requires made { IsMadeFor scratch.old inst.now.tables }
    requires before { before ≡ objective inst.now.tables a0.now.items a.now.items }
    ensures planned { IsPlannedWithVerdict (situation inst.now.tables a0.now.items a.now.items) words.now
        drawing allowed result }
    ensures unchanged { other.new ≡ other.old }
    ensures kept { IsMadeFor scratch.new inst.now.tables }
{
    let machines = inst.machines();
    let count = options(words, machines, drawing);
    let mv = resolve(a, words, machines, drawing, 0);
    let verdict = judge_plainly(inst, a0, other, scratch, before, &mv, allowed);
    let mut best = Planned { mv, verdict };
    for option in 1..count {
        let mv = resolve(a, words, machines, drawing, option);
        let verdict = judge_plainly(inst, a0, other, scratch, before, &mv, allowed);
        best = cheaper(best, Planned { mv, verdict });
    }
    best
}

/// The second of two moves if it is done at a lower cost than the first, else the first.
fn cheaper(first: Planned, second: Planned) -> Planned
    ensures { result ≡ (if is_better (done_cost second.verdict)
        (done_cost first.verdict) then second else first) }
{
    if is_cheaper(&second.verdict, &first.verdict) {
        second
    } else {
        first
    }
}

/// Whether a verdict is Done, and at a lower cost than another.
#[tactic(auto, unfolding(ra_base::specs::Searches::is_better, ra_moves::specs::Options::done_cost))]
fn is_cheaper(verdict: &Verdict, than: &Verdict) -> bool
    ensures { result ≡ is_better (done_cost verdict.now) (done_cost than.now) }
{
    match (verdict, than) {
        (Verdict::Refused { .. }, _) => false,
        (Verdict::Done { .. }, Verdict::Refused { .. }) => true,
        (Verdict::Done { cost }, Verdict::Done { cost: least }) => cost < least,
    }
}
