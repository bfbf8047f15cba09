ghost use Rattle.std.specs.Prelude.{◌+◌, ◌<◌, ◌≤◌, length};
ghost use Rattle.ra_token.specs.Scan.{TakesRuns};
ghost use Rattle.ra_token.specs.declared.scan.TheConstants.{BLOCK, NEAR};

use crate::scan::{BLOCK, NEAR, block_runs, near_run, others};
use crate::short::{MOST_SHORT, is_tidy, tidy_runs};
use ra_base::Fixed;

/// Adds the value of the next run from `from` on to a list, if `near_run` gives it. Gives the index after it.
#[inline]
pub fn one_run(bytes: &[u8], from: usize, values: &mut Fixed<u32>) -> usize
    requires within { from ≤ length bytes.now }
    requires room { length values.old.items < values.old.room }
    ensures { TakesRuns bytes.now from result 1 values.old values.new }
{
    let Some(stretch) = near_run(bytes, from) else {
        return from;
    };
    values.push(stretch.value as u32);
    stretch.end
}

/// Adds the values of the runs that end among the `BLOCK` bytes after the blank at `from` to a list, at most `most` of
/// them, as long as each follows one blank and has few digits. Gives the index after the last one.
#[inline(always)]
fn some_runs(bytes: &[u8], from: usize, most: usize, values: &mut Fixed<u32>) -> usize
    requires within { from + BLOCK + NEAR < length bytes.now }
    requires room { length values.old.items + most ≤ values.old.room }
    ensures { TakesRuns bytes.now from result most values.old values.new }
{
    if from >= 2 && most >= MOST_SHORT {
        let rest = others(bytes, from + 1);
        if is_tidy(bytes, from, rest) {
            return tidy_runs(bytes, from, rest, values);
        }
    }
    block_runs(bytes, from, most, values)
}

/// Adds the values of the next runs from `from` on to a list, at most `most` of them, as long as they are close
/// together: each follows one blank, and ends well before the end of the bytes. Gives the index after the last one.
#[inline(never)]
pub fn take_runs(bytes: &[u8], from: usize, most: usize, values: &mut Fixed<u32>) -> usize
    requires within { from ≤ length bytes.now }
    requires room { length values.old.items + most ≤ values.old.room }
    ensures { TakesRuns bytes.now from result most values.old values.new }
{
    let before = values.len();
    let mut at = from;
    let mut taken = 0;
    while taken < most {
        let end = if bytes.len() - at > BLOCK + NEAR {
            some_runs(bytes, at, most - taken, values)
        } else {
            one_run(bytes, at, values)
        };
        if end == at {
            return at;
        }
        at = end;
        taken = values.len() - before;
    }
    at
}
