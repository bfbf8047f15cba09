//! How long the line of an entry is at most. Each function does nothing, and its contract is a bound that holds for the
//! values of its types.
ghost use Rattle.std.specs.Prelude.{◌≤◌, ◌++◌, length};
ghost use Rattle.ra_report.specs.Texts.{space, number_text, cause_text};
ghost use Rattle.ra_report.specs.JournalTexts.{step_text, steps_text, verdict_text, entry_line};

use crate::{CauseWords, cause_words};
use ra_base::Cause;
use ra_journal::Entry;
use ra_moves::{Move, Step, Verdict};

/// The most bytes of the line of an entry, including its LF.
pub const LONGEST_LINE: usize = 293;

/// The most bytes of the four numbers at the front of the line of an entry, including the space after each.
pub const LONGEST_FRONT: usize = 74;

/// The line of an entry is short.
pub(crate) fn entry_is_short(at: u64, entry: &Entry)
    ensures { length (entry_line at entry.now) ≤ LONGEST_LINE }
{
    number_is_short(at);
    label_is_short(entry.worker);
    number_is_short(entry.k);
    number_is_short(entry.q);
    steps_are_short(&entry.mv);
    verdict_is_short(&entry.verdict)
}

/// A number below 2 ^ 32 has at most 10 digits.
#[tactic(auto, using(crate::proofs::LengthLaws::label_length))]
fn label_is_short(label: u32)
    ensures { length (number_text label) ≤ 10 }
{}

/// A number below 2 ^ 64 has at most 20 digits.
#[tactic(auto, using(crate::proofs::LengthLaws::number_length))]
fn number_is_short(number: u64)
    ensures { length (number_text number) ≤ 20 }
{}

/// A number below 2 ^ 128 has at most 39 digits.
#[tactic(auto, using(crate::proofs::LengthLaws::cost_length))]
fn cost_is_short(cost: u128)
    ensures { length (number_text cost) ≤ 39 }
{}

/// The words of the steps of a move are short.
fn steps_are_short(mv: &Move)
    ensures { length (steps_text mv.now.steps) ≤ 99 }
{
    for i in 0..mv.steps() {
        step_is_short(mv.step(i));
    }
}

/// The word of a step is short, with a space after it.
fn step_is_short(step: Step)
    ensures { length (step_text step ++ space) ≤ 33 }
{
    label_is_short(step.process.0);
    label_is_short(step.from.0);
    label_is_short(step.to.0)
}

/// The words of a verdict are short.
fn verdict_is_short(verdict: &Verdict)
    ensures { length (verdict_text verdict.now) ≤ 113 }
{
    match *verdict {
        Verdict::Done { cost } => cost_is_short(cost),
        Verdict::Refused { cause } => cause_is_short(&cause),
    }
}

/// The words of a cause are short.
fn cause_is_short(cause: &Cause)
    ensures { length (cause_text cause.now) ≤ 105 }
{
    match cause_words(cause) {
        CauseWords::One(_, a) => label_is_short(a),
        CauseWords::Two(_, a, b) => {
            label_is_short(a);
            label_is_short(b)
        }
        CauseWords::Three(_, a, b, c) => {
            label_is_short(a);
            label_is_short(b);
            label_is_short(c)
        }
        CauseWords::Four(_, a, b, c, d) => {
            label_is_short(a);
            label_is_short(b);
            number_is_short(c);
            label_is_short(d)
        }
        CauseWords::Rise(before, after, allowed) => {
            cost_is_short(before);
            cost_is_short(after);
            number_is_short(allowed)
        }
    }
}
