ghost use Rattle.std.specs.Prelude.{◌≡◌, ◌≤◌, cond, length};
ghost use Rattle.ra_report.specs.Gathering.{AddsText};
ghost use Rattle.ra_report.specs.Summaries.{is_done, done_count, summary_lines};

use crate::Gathered;
use crate::solved::{add_number, add_outcome};
use ra_base::Parts;
use ra_io::Sink;
use ra_journal::Entries;
use ra_moves::Verdict;

/// Adds the summary of a run: the parts, the total of the bound, a place, and how many entries are done and refused.
pub(crate) fn add_summary<O: Sink>(
    text: &mut Gathered<'_, O>,
    parts: &Parts,
    bound_total: u128,
    best_at: u64,
    entries: &Entries,
)
    ensures { AddsText O.taken O.faults text.old text.new
        (summary_lines parts.now bound_total best_at entries.now.items) }
{
    let done = count_done(entries);
    let refused = entries.len() as u64 - done;
    add_outcome(text, parts, bound_total, best_at);
    add_number(text, "done", done as u128);
    add_number(text, "refused", refused as u128)
}

/// How many entries are done.
fn count_done(entries: &Entries) -> u64
    ensures value { result ≡ done_count entries.now.items }
    ensures within { result ≤ length entries.now.items }
{
    let mut done = 0;
    for place in 0..entries.len() {
        done += one_if_done(&entries.get(place).verdict);
    }
    done
}

/// 1 if a verdict is done, else 0.
fn one_if_done(verdict: &Verdict) -> u64
    ensures value { result ≡ cond (is_done verdict.now) 1 0 }
    ensures one { result ≤ 1 }
{
    match verdict {
        Verdict::Done { .. } => 1,
        Verdict::Refused { .. } => 0,
    }
}
