ghost use Rattle.std.specs.Prelude.{◌≡◌, ◌↔◌, true, codes, Err, None, Some, IfOk};
ghost use Rattle.clap.specs.Words.{first_value, found_of};
ghost use Rattle.ra_anneal.specs.Jobs.{anneal_says, is_anneal, job_of, schedule_of};
ghost use Rattle.ra_anneal.specs.Found.{found_says};
ghost use Rattle.ra_anneal.specs.Said.{said};
ghost use Rattle.ra_anneal.specs.Words.{heat_says, is_heat, is_run, is_workers, workers_says};
ghost use Rattle.ra_words.specs.Lines.{plain_of};
ghost use Rattle.ra_words.specs.Words.{texts, word_at};

use crate::forms::{is_anneal, is_help, is_version};
use crate::pairs::{first, second};
use clap::ArgMatches;
use ra_base::{Name, NoMemory};
use ra_search::Schedule;
use ra_words::{WordsFault, closed_name, number, plain_at, plain_name, take_line, text_at};
use std::alloc::Global;

/// What the command words ask for.
#[derive(Drop)]
pub enum Job {
    /// Tell how the program is called.
    Help,
    /// Tell its version.
    Version,
    /// Look for a list that costs less than the list `initial` of a model, or than the list `from` if it is named, with
    /// the machines of the list `closed` closed.
    Anneal {
        model: Name,
        initial: Name,
        from: Option<Name>,
        closed: Option<Name>,
        schedule: Schedule,
    },
}

/// The job of the command words, which leave out the program's name. The words are judged before any memory is taken.
pub fn read_words(alloc: Global, words: &[String]) -> Result<Job, WordsFault>
    ensures ok { IfOk result (λ job. job_of (texts words.now) ≡ Some (said job)) }
    ensures usage { (result ≡ Err WordsFault.Usage) ↔ (job_of (texts words.now) ≡ None) }
{
    if is_help(words) {
        return Ok(Job::Help);
    }
    if is_version(words) {
        return Ok(Job::Version);
    }
    if !is_anneal(words) {
        return Err(WordsFault::Usage);
    }
    Ok(anneal_job(alloc, words)?)
}

/// The search that the words ask for.
fn anneal_job(alloc: Global, words: &[String]) -> Result<Job, NoMemory>
    requires { is_anneal (texts words.now) ≡ true }
    ensures { IfOk result (λ job. said job ≡ anneal_says (texts words.now)) }
{
    let taken = take_line(alloc, words)?;
    found_job(alloc, text_at(words, 0), &taken)
}

/// The search that these words ask for: the first one, and those after it, which were taken apart.
fn found_job(alloc: Global, model: &str, taken: &ArgMatches<'_>) -> Result<Job, NoMemory>
    requires heat { is_heat (first_value (found_of taken.now) (codes "heat")) ≡ true }
    requires workers { is_workers (first_value (found_of taken.now) (codes "workers")) ≡ true }
    requires run { is_run (word_at (plain_of (found_of taken.now)) 1) ≡ true }
    ensures { IfOk result (λ job. said job ≡ found_says model.now (found_of taken.now)) }
{
    let schedule = schedule(taken);
    Ok(Job::Anneal {
        model: Name::make(alloc, model)?,
        initial: plain_name(alloc, taken, 0)?,
        from: from_name(alloc, taken)?,
        closed: closed_name(alloc, taken)?,
        schedule,
    })
}

/// The file that `--from` names, if the option is given.
fn from_name(alloc: Global, taken: &ArgMatches<'_>) -> Result<Option<Name>, NoMemory>
    ensures { IfOk result (λ name. name ≡ first_value (found_of taken.now) (codes "from")) }
{
    match taken.get_str("from") {
        Some(file) => Ok(Some(Name::make(alloc, file)?)),
        None => Ok(None),
    }
}

/// How the search goes.
fn schedule(taken: &ArgMatches<'_>) -> Schedule
    requires heat { is_heat (first_value (found_of taken.now) (codes "heat")) ≡ true }
    requires workers { is_workers (first_value (found_of taken.now) (codes "workers")) ≡ true }
    requires run { is_run (word_at (plain_of (found_of taken.now)) 1) ≡ true }
    ensures { result ≡ schedule_of (first_value (found_of taken.now) (codes "heat"))
        (first_value (found_of taken.now) (codes "workers"))
        (word_at (plain_of (found_of taken.now)) 1) }
{
    let run = plain_at(taken, 1).as_bytes();
    Schedule {
        seed: first(run),
        tries: second(run),
        heat: heat(taken),
        workers: workers(taken),
    }
}

/// The heats that `--heat` gives, if the option is given.
fn heat(taken: &ArgMatches<'_>) -> Option<(u64, u64)>
    requires { is_heat (first_value (found_of taken.now) (codes "heat")) ≡ true }
    ensures { result ≡ heat_says (first_value (found_of taken.now) (codes "heat")) }
{
    match taken.get_str("heat") {
        Some(text) => Some((first(text.as_bytes()), second(text.as_bytes()))),
        None => None,
    }
}

/// How many workers `--workers` gives, and 1 if the option isn't given.
fn workers(taken: &ArgMatches<'_>) -> u32
    requires { is_workers (first_value (found_of taken.now) (codes "workers")) ≡ true }
    ensures { result ≡ workers_says (first_value (found_of taken.now) (codes "workers")) }
{
    match taken.get_str("workers") {
        Some(text) => number(text.as_bytes()) as u32,
        None => 1,
    }
}
