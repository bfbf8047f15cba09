ghost use Rattle.std.specs.Prelude.{◌≡◌, ◌≤◌, ◌↔◌, true, length, IfSome, IfNone};
ghost use Rattle.ra_token.specs.Lines.{FirstUnlike};
ghost use Rattle.ra_report.specs.JournalTexts.{best_state, parts_in, bound_in, head_of, entry_line};
ghost use Rattle.ra_report.specs.declared.lengths.TheConstants.{LONGEST_LINE};

use crate::Line;
use crate::journal::write_line;
use crate::lengths::entry_is_short;
use crate::writing::write_head;
use ra_base::{Assignment, Parts};
use ra_bounds::Bound;
use ra_journal::{Entry, Journal};
use ra_token::Expected;

/// Whether some bytes are exactly the line of the entry at a place, counted from 0. No such line has more than
/// `LONGEST_LINE` bytes, including its LF.
pub fn is_entry_line(line: &[u8], at: u64, entry: &Entry) -> bool
    ensures exact { (result ≡ true) ↔ (line.now ≡ entry_line at entry.now) }
    ensures short { length (entry_line at entry.now) ≤ LONGEST_LINE }
{
    entry_is_short(at, entry);
    let mut own = Line::new();
    write_line(&mut own, at, entry);
    line == own.as_slice()
}

/// The number of the first line, counted from 0, at which some bytes differ from the ten lines of a report before its
/// entries, or which only one of them has; none if they are equal. `best`, `parts` and `bound` are as in
/// `write_report`.
pub fn unlike_head(
    bytes: &[u8],
    best: &Assignment,
    parts: &Parts,
    bound: &Bound,
    journal: &Journal<'_>,
) -> Option<usize>
    requires best { best.now.items ≡ best_state journal.now }
    requires parts { parts.now ≡ parts_in journal.now best.now.items }
    requires bound { bound.now ≡ bound_in journal.now }
    ensures same { IfNone result (bytes.now ≡ head_of journal.now) }
    ensures unlike { IfSome result (FirstUnlike bytes.now (head_of journal.now)) }
    ensures few { IfSome result (λ n. n ≤ 10) }
{
    let mut sink = Expected::make(bytes);
    let _ = write_head(&mut sink, best, parts, bound, journal);
    sink.unlike_line()
}
