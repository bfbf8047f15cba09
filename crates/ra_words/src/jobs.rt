ghost use Rattle.std.specs.Prelude.{◌≡◌, true, codes, drop, None, Some, Err, IfOk, ◌↔◌};
ghost use Rattle.clap.specs.Words.{first_value, found_of};
ghost use Rattle.ra_words.specs.Words.{texts, word_at};
ghost use Rattle.ra_words.specs.Numbers.{is_number};
ghost use Rattle.ra_words.specs.LotTexts.{are_lots};
ghost use Rattle.ra_words.specs.Lines.{plain_of};
ghost use Rattle.ra_words.specs.Jobs.{job_of, is_slack};
ghost use Rattle.ra_words.specs.Forms.{form_of, FitsForm, found_says, found_check, found_bound, found_bound_from, found_solve, found_trial, found_verify, found_repair, found_edit};
ghost use Rattle.ra_words.specs.Said.{said};

use crate::forms::{Form, form_of};
use crate::line::{closed_name, lots, plain_at, plain_name, run_lots, take_line};
use crate::numbers::number;
use clap::ArgMatches;
use ra_base::{Drawing, Name, NoMemory};
use ra_draws::Lots;
use std::alloc::Global;

/// What the command words ask for.
#[derive(Drop)]
pub enum Job {
    /// Check the list `changed` against the list `initial` of a model, with the machines of the
    /// list `closed` closed.
    Check {
        model: Name,
        initial: Name,
        changed: Name,
        closed: Option<Name>,
    },
    /// Print a lower bound on the cost of every feasible assignment of a model, with the machines of the list `closed`
    /// closed; with a list `initial`, on the cost of every assignment that is feasible from it.
    Bound {
        model: Name,
        initial: Option<Name>,
        closed: Option<Name>,
    },
    /// Lower the cost of the list `initial` of a model, with the machines of the list `closed`
    /// closed, by the proposals of the lots.
    Solve {
        model: Name,
        initial: Name,
        closed: Option<Name>,
        lots: Lots,
    },
    /// Lower the cost of an instance that is made from a number.
    Trial {
        number: u64,
    },
    /// Check the report `report` of a run of the lots from the list `initial` of a model, with the machines of the list
    /// `closed` closed.
    Verify {
        model: Name,
        initial: Name,
        report: Name,
        closed: Option<Name>,
        lots: Lots,
    },
    /// Look for a list that meets all constraints from the list `initial` of a model, which may break some, with the machines
    /// of the list `closed` closed, by the tries of one lot.
    Repair {
        model: Name,
        initial: Name,
        closed: Option<Name>,
        lots: Lots,
    },
    /// Add, retire and resize the processes of a model and of its lists `initial` and `current` as the list `edits` says, with
    /// the machines of the list `closed` closed.
    Edit {
        model: Name,
        initial: Name,
        current: Name,
        edits: Name,
        closed: Option<Name>,
    },
}

/// Why command words are refused.
#[derive(Clone, Copy, Debug, PartialEq, Eq)]
pub enum WordsFault {
    /// The words are not a job.
    Usage,
    /// The system refused memory.
    NoMemory,
}

impl From<NoMemory> for WordsFault {
    ghost use Rattle.std.specs.Prelude.{◌≡◌};
    ghost use Rattle.ra_words.specs.declared.jobs.WordsFault.TheVariants.{NoMemory};

    ghost from_gives = { λ _ e. e ≡ NoMemory };

    fn from(_: NoMemory) -> WordsFault {
        WordsFault::NoMemory
    }
}

/// The job of the command words, which leave out the program's name. The words are judged before any memory is taken.
pub fn read_words(alloc: Global, words: &[String]) -> Result<Job, WordsFault>
    ensures ok { IfOk result (λ job. job_of (texts words.now) ≡ Some (said job)) }
    ensures usage { (result ≡ Err WordsFault.Usage) ↔ (job_of (texts words.now) ≡ None) }
{
    if let Some(form) = form_of(words) {
        return Ok(read_job(alloc, words, form)?);
    }
    Err(WordsFault::Usage)
}

/// The job of words that have a form.
fn read_job(alloc: Global, words: &[String], form: Form) -> Result<Job, NoMemory>
    requires { form_of (texts words.now) ≡ Some form }
    ensures { IfOk result (λ job. job_of (texts words.now) ≡ Some (said job)) }
{
    let taken = take_line(alloc, words)?;
    found_job(alloc, &taken, form)
}

/// The job of this form, of words that were taken apart.
fn found_job(alloc: Global, taken: &ArgMatches<'_>, form: Form) -> Result<Job, NoMemory>
    requires { FitsForm form (found_of taken.now) }
    ensures { IfOk result (λ job. said job ≡ found_says form (found_of taken.now)) }
{
    match form {
        Form::Check => check_job(alloc, taken),
        Form::Bound => bound_job(alloc, taken),
        Form::BoundFrom => bound_from_job(alloc, taken),
        Form::Solve => solve_job(alloc, taken),
        Form::Trial => Ok(trial_job(taken)),
        Form::Verify => verify_job(alloc, taken),
        Form::Repair => repair_job(alloc, taken),
        Form::Edit => edit_job(alloc, taken),
    }
}

/// The names that come first in most forms: the model, its list `initial`, and the list of machines to close.
#[derive(Drop)]
struct Names {
    model: Name,
    initial: Name,
    closed: Option<Name>,
}

/// Makes these names. A job's other parts are made before, so that nothing can fail while these are owned.
fn take_names(alloc: Global, taken: &ArgMatches<'_>) -> Result<Names, NoMemory>
    ensures model { IfOk result (λ names. names.model ≡ word_at (plain_of (found_of taken.now)) 0) }
    ensures initial { IfOk result (λ names. names.initial ≡ word_at (plain_of (found_of
        taken.now)) 1) }
    ensures closed { IfOk result (λ names. names.closed ≡ first_value (found_of taken.now) (codes
        "closed")) }
{
    Ok(Names {
        model: plain_name(alloc, taken, 0)?,
        initial: plain_name(alloc, taken, 1)?,
        closed: closed_name(alloc, taken)?,
    })
}

fn check_job(alloc: Global, taken: &ArgMatches<'_>) -> Result<Job, NoMemory>
    ensures { IfOk result (λ job. said job ≡ found_check (found_of taken.now)) }
{
    let changed = plain_name(alloc, taken, 2)?;
    let Names {
        model,
        initial,
        closed,
    } = take_names(alloc, taken)?;
    Ok(Job::Check {
        model,
        initial,
        changed,
        closed,
    })
}

fn bound_job(alloc: Global, taken: &ArgMatches<'_>) -> Result<Job, NoMemory>
    ensures { IfOk result (λ job. said job ≡ found_bound (found_of taken.now)) }
{
    Ok(Job::Bound {
        model: plain_name(alloc, taken, 0)?,
        initial: None,
        closed: None,
    })
}

fn bound_from_job(alloc: Global, taken: &ArgMatches<'_>) -> Result<Job, NoMemory>
    ensures { IfOk result (λ job. said job ≡ found_bound_from (found_of taken.now)) }
{
    let Names {
        model,
        initial,
        closed,
    } = take_names(alloc, taken)?;
    Ok(Job::Bound {
        model,
        initial: Some(initial),
        closed,
    })
}

fn solve_job(alloc: Global, taken: &ArgMatches<'_>) -> Result<Job, NoMemory>
    requires slack { is_slack (first_value (found_of taken.now) (codes "slack")) ≡ true }
    requires lots { are_lots (drop 2 (plain_of (found_of taken.now))) ≡ true }
    ensures { IfOk result (λ job. said job ≡ found_solve (found_of taken.now)) }
{
    let lots = run_lots(alloc, taken, 2)?;
    let Names {
        model,
        initial,
        closed,
    } = take_names(alloc, taken)?;
    Ok(Job::Solve {
        model,
        initial,
        closed,
        lots,
    })
}

fn trial_job(taken: &ArgMatches<'_>) -> Job
    requires { is_number (word_at (plain_of (found_of taken.now)) 0) ≡ true }
    ensures { said result ≡ found_trial (found_of taken.now) }
{
    Job::Trial {
        number: number(plain_at(taken, 0).as_bytes()),
    }
}

fn verify_job(alloc: Global, taken: &ArgMatches<'_>) -> Result<Job, NoMemory>
    requires slack { is_slack (first_value (found_of taken.now) (codes "slack")) ≡ true }
    requires lots { are_lots (drop 3 (plain_of (found_of taken.now))) ≡ true }
    ensures { IfOk result (λ job. said job ≡ found_verify (found_of taken.now)) }
{
    let report = plain_name(alloc, taken, 2)?;
    let lots = run_lots(alloc, taken, 3)?;
    let Names {
        model,
        initial,
        closed,
    } = take_names(alloc, taken)?;
    Ok(Job::Verify {
        model,
        initial,
        report,
        closed,
        lots,
    })
}

fn repair_job(alloc: Global, taken: &ArgMatches<'_>) -> Result<Job, NoMemory>
    requires { are_lots (drop 2 (plain_of (found_of taken.now))) ≡ true }
    ensures { IfOk result (λ job. said job ≡ found_repair (found_of taken.now)) }
{
    let lots = Lots::of(0, Drawing::Two, lots(alloc, taken, 2)?);
    let Names {
        model,
        initial,
        closed,
    } = take_names(alloc, taken)?;
    Ok(Job::Repair {
        model,
        initial,
        closed,
        lots,
    })
}

fn edit_job(alloc: Global, taken: &ArgMatches<'_>) -> Result<Job, NoMemory>
    ensures { IfOk result (λ job. said job ≡ found_edit (found_of taken.now)) }
{
    let current = plain_name(alloc, taken, 2)?;
    let edits = plain_name(alloc, taken, 3)?;
    let Names {
        model,
        initial,
        closed,
    } = take_names(alloc, taken)?;
    Ok(Job::Edit {
        model,
        initial,
        current,
        edits,
        closed,
    })
}
