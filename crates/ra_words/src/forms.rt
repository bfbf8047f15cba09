ghost use Rattle.std.specs.Prelude.{◌≡◌, ◌+◌, ◌≤◌, codes, drop};
ghost use Rattle.std.specs.Str.{bytes_eq};
ghost use Rattle.ra_words.specs.Words.{texts, value_at};
ghost use Rattle.ra_words.specs.Forms.{form_of};
ghost use Rattle.ra_words.specs.Jobs.{is_check, is_bound, is_bound_from, is_solve, is_trial, is_verify, is_repair, lot_place, is_edit, is_closed, is_slack, is_drawing, ends_closed, ends_in_lots, closed_place, draws_place, lots_place};

use crate::lots::are_lots;
use crate::numbers::is_number;
use crate::words::{behind, has_option, names_file, text_at};

/// The forms that the words of a job have.
#[derive(Clone, Copy)]
pub(crate) enum Form {
    Check,
    Bound,
    BoundFrom,
    Solve,
    Trial,
    Verify,
    Repair,
    Edit,
}

/// The form of the words. `None` if they are no job.
#[tactic(auto, unfolding(crate::specs::Forms::form_of))]
pub(crate) fn form_of(words: &[String]) -> Option<Form>
    ensures { result ≡ form_of (texts words.now) }
{
    if is_check(words) {
        Some(Form::Check)
    } else if is_bound(words) {
        Some(Form::Bound)
    } else if is_bound_from(words) {
        Some(Form::BoundFrom)
    } else if is_solve(words) {
        Some(Form::Solve)
    } else if is_trial(words) {
        Some(Form::Trial)
    } else if is_verify(words) {
        Some(Form::Verify)
    } else if is_repair(words) {
        Some(Form::Repair)
    } else if is_edit(words) {
        Some(Form::Edit)
    } else {
        None
    }
}

/// Whether the words are a check.
#[tactic(auto, unfolding(crate::specs::Jobs::is_check))]
fn is_check(words: &[String]) -> bool
    ensures { result ≡ is_check (texts words.now) }
{
    text_at(words, 0) == "check"
        && names_file(text_at(words, 1))
        && names_file(text_at(words, 2))
        && names_file(text_at(words, 3))
        && ends_closed(words, 4)
}

/// Whether the words ask for a bound.
#[tactic(auto, unfolding(crate::specs::Jobs::is_bound))]
fn is_bound(words: &[String]) -> bool
    ensures { result ≡ is_bound (texts words.now) }
{
    words.len() == 2 && text_at(words, 0) == "bound" && names_file(text_at(words, 1))
}

/// Whether the words ask for a bound from a start.
#[tactic(auto, unfolding(crate::specs::Jobs::is_bound_from))]
fn is_bound_from(words: &[String]) -> bool
    ensures { result ≡ is_bound_from (texts words.now) }
{
    text_at(words, 0) == "bound"
        && names_file(text_at(words, 1))
        && names_file(text_at(words, 2))
        && ends_closed(words, 3)
}

/// Whether the words are a run of a solver.
#[tactic(auto, unfolding(crate::specs::Jobs::is_solve))]
fn is_solve(words: &[String]) -> bool
    ensures { result ≡ is_solve (texts words.now) }
{
    text_at(words, 0) == "solve"
        && names_file(text_at(words, 1))
        && names_file(text_at(words, 2))
        && ends_in_lots(words, 3)
}

/// Whether the words ask for a trial.
#[tactic(auto, unfolding(crate::specs::Jobs::is_trial))]
fn is_trial(words: &[String]) -> bool
    ensures { result ≡ is_trial (texts words.now) }
{
    words.len() == 2 && text_at(words, 0) == "trial" && is_number(text_at(words, 1).as_bytes())
}

/// Whether the words ask for a report to be checked.
#[tactic(auto, unfolding(crate::specs::Jobs::is_verify))]
fn is_verify(words: &[String]) -> bool
    ensures { result ≡ is_verify (texts words.now) }
{
    text_at(words, 0) == "verify"
        && names_file(text_at(words, 1))
        && names_file(text_at(words, 2))
        && names_file(text_at(words, 3))
        && ends_in_lots(words, 4)
}

/// Whether the words ask for a repair.
#[tactic(auto, unfolding(crate::specs::Jobs::is_repair))]
fn is_repair(words: &[String]) -> bool
    ensures { result ≡ is_repair (texts words.now) }
{
    text_at(words, 0) == "repair"
        && names_file(text_at(words, 1))
        && names_file(text_at(words, 2))
        && fits_closed(words, 3)
        && words.len() == lot_place(words) + 1
        && are_lots(words, lot_place(words))
}

/// The place of the lot of a repair.
#[tactic(auto, unfolding(crate::specs::Jobs::lot_place))]
fn lot_place(words: &[String]) -> usize
    ensures value { result ≡ lot_place (texts words.now) }
    ensures near { result ≤ 5 }
{
    behind(words, 3, "--closed")
}

/// Whether the words ask for edits.
#[tactic(auto, unfolding(crate::specs::Jobs::is_edit))]
fn is_edit(words: &[String]) -> bool
    ensures { result ≡ is_edit (texts words.now) }
{
    text_at(words, 0) == "edit"
        && names_file(text_at(words, 1))
        && names_file(text_at(words, 2))
        && names_file(text_at(words, 3))
        && names_file(text_at(words, 4))
        && ends_closed(words, 5)
}

/// Whether `--closed` and a file name come from a place on, or nothing, and no more words.
#[tactic(auto, unfolding(crate::specs::Jobs::ends_closed))]
fn ends_closed(words: &[String], place: usize) -> bool
    requires { place ≤ 16 }
    ensures { result ≡ ends_closed (texts words.now) place }
{
    fits_closed(words, place) && words.len() == behind(words, place, "--closed")
}

/// Whether the options in their order come from a place on, and then lots.
#[tactic(auto, unfolding(crate::specs::Jobs::ends_in_lots, crate::specs::Jobs::slack_text, crate::specs::Jobs::closed_text, crate::specs::Jobs::draws_text, crate::specs::Jobs::lot_words))]
fn ends_in_lots(words: &[String], place: usize) -> bool
    requires { place ≤ 8 }
    ensures { result ≡ ends_in_lots (texts words.now) place }
{
    fits_slack(words, place)
        && fits_closed(words, closed_place(words, place))
        && fits_drawing(words, draws_place(words, place))
        && are_lots(words, lots_place(words, place))
}

/// Where `--closed` may be: at a place, or after `--slack` and its value if they are there.
#[tactic(auto, unfolding(crate::specs::Jobs::closed_place))]
fn closed_place(words: &[String], place: usize) -> usize
    requires { place ≤ 8 }
    ensures value { result ≡ closed_place (texts words.now) place }
    ensures near { result ≤ place + 2 }
{
    behind(words, place, "--slack")
}

/// Where `--draws` may be, after these two options.
#[tactic(auto, unfolding(crate::specs::Jobs::draws_place))]
fn draws_place(words: &[String], place: usize) -> usize
    requires { place ≤ 8 }
    ensures value { result ≡ draws_place (texts words.now) place }
    ensures near { result ≤ place + 4 }
{
    behind(words, closed_place(words, place), "--closed")
}

/// Where the lots begin, after all three options.
#[tactic(auto, unfolding(crate::specs::Jobs::lots_place))]
fn lots_place(words: &[String], place: usize) -> usize
    requires { place ≤ 8 }
    ensures value { result ≡ lots_place (texts words.now) place }
    ensures near { result ≤ place + 6 }
{
    behind(words, draws_place(words, place), "--draws")
}

/// Whether a file name follows `--closed`, if this option is at a place.
#[tactic(auto, unfolding(crate::specs::Words::value_at))]
fn fits_closed(words: &[String], place: usize) -> bool
    requires { place ≤ 16 }
    ensures { result ≡ is_closed (value_at (codes "--closed") (texts words.now) place) }
{
    !has_option(words, place, "--closed") || names_file(text_at(words, place + 1))
}

/// Whether a number follows `--slack`, if this option is at a place.
#[tactic(auto, unfolding(crate::specs::Words::value_at))]
fn fits_slack(words: &[String], place: usize) -> bool
    requires { place ≤ 16 }
    ensures { result ≡ is_slack (value_at (codes "--slack") (texts words.now) place) }
{
    !has_option(words, place, "--slack") || is_number(text_at(words, place + 1).as_bytes())
}

/// Whether `1` or `2` follows `--draws`, if this option is at a place.
#[tactic(auto, unfolding(crate::specs::Words::value_at))]
fn fits_drawing(words: &[String], place: usize) -> bool
    requires { place ≤ 16 }
    ensures { result ≡ is_drawing (value_at (codes "--draws") (texts words.now) place) }
{
    !has_option(words, place, "--draws")
        || text_at(words, place + 1) == "1"
        || text_at(words, place + 1) == "2"
}
