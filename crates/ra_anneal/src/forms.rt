ghost use Rattle.std.specs.Prelude.{◌≡◌, ◌+◌, ◌≤◌};
ghost use Rattle.ra_anneal.specs.Jobs.{is_anneal, is_help, is_version};
ghost use Rattle.ra_anneal.specs.Words.{closed_place, heat_place, is_file, is_heat, is_workers, run_place, workers_place};
ghost use Rattle.ra_words.specs.Words.{texts, value_at};
ghost use Rattle.std.specs.Prelude.{codes};

use crate::pairs::{is_pair, is_run};
use ra_words::{behind, has_option, is_number, names_file, number, text_at};

/// How many workers a search may have.
const MOST_WORKERS: u64 = 16;

/// Whether the words ask how the program is called.
#[tactic(auto, unfolding(crate::specs::Jobs::is_help))]
pub(crate) fn is_help(words: &[String]) -> bool
    ensures { result ≡ is_help (texts words.now) }
{
    words.len() == 1 && text_at(words, 0) == "--help"
}

/// Whether the words ask for the version.
#[tactic(auto, unfolding(crate::specs::Jobs::is_version))]
pub(crate) fn is_version(words: &[String]) -> bool
    ensures { result ≡ is_version (texts words.now) }
{
    words.len() == 1 && text_at(words, 0) == "--version"
}

/// Whether the words are a search: two file names, then the options in their order, each or not, then SEED:TRIES.
#[tactic(auto, unfolding(crate::specs::Jobs::is_anneal, crate::specs::Words::from_text, crate::specs::Words::closed_text, crate::specs::Words::heat_text, crate::specs::Words::workers_text))]
pub(crate) fn is_anneal(words: &[String]) -> bool
    ensures { result ≡ is_anneal (texts words.now) }
{
    names_file(text_at(words, 0))
        && names_file(text_at(words, 1))
        && fits_file(words, 2, "--from")
        && fits_file(words, closed_place(words), "--closed")
        && fits_heat(words, heat_place(words))
        && fits_workers(words, workers_place(words))
        && words.len() == run_place(words) + 1
        && is_run(text_at(words, run_place(words)).as_bytes())
}

/// Where `--closed` may be: after the two names, or after `--from` and its value if they are there.
#[tactic(auto, unfolding(crate::specs::Words::closed_place))]
fn closed_place(words: &[String]) -> usize
    ensures value { result ≡ closed_place (texts words.now) }
    ensures near { result ≤ 4 }
{
    behind(words, 2, "--from")
}

/// Where `--heat` may be, after these.
#[tactic(auto, unfolding(crate::specs::Words::heat_place))]
fn heat_place(words: &[String]) -> usize
    ensures value { result ≡ heat_place (texts words.now) }
    ensures near { result ≤ 6 }
{
    behind(words, closed_place(words), "--closed")
}

/// Where `--workers` may be, after these.
#[tactic(auto, unfolding(crate::specs::Words::workers_place))]
fn workers_place(words: &[String]) -> usize
    ensures value { result ≡ workers_place (texts words.now) }
    ensures near { result ≤ 8 }
{
    behind(words, heat_place(words), "--heat")
}

/// Where SEED:TRIES is, after all options.
#[tactic(auto, unfolding(crate::specs::Words::run_place))]
fn run_place(words: &[String]) -> usize
    ensures value { result ≡ run_place (texts words.now) }
    ensures near { result ≤ 10 }
{
    behind(words, workers_place(words), "--workers")
}

/// Whether a file name follows an option, if this option is at a place.
#[tactic(auto, unfolding(ra_words::specs::Words::value_at))]
fn fits_file(words: &[String], place: usize, option: &str) -> bool
    requires { place ≤ 16 }
    ensures { result ≡ is_file (value_at option.now (texts words.now) place) }
{
    !has_option(words, place, option) || names_file(text_at(words, place + 1))
}

/// Whether HIGH:LOW follows `--heat`, if this option is at a place.
#[tactic(auto, unfolding(ra_words::specs::Words::value_at))]
fn fits_heat(words: &[String], place: usize) -> bool
    requires { place ≤ 16 }
    ensures { result ≡ is_heat (value_at (codes "--heat") (texts words.now) place) }
{
    !has_option(words, place, "--heat") || is_pair(text_at(words, place + 1).as_bytes())
}

/// Whether a number of workers follows `--workers`, if this option is at a place.
#[tactic(auto, unfolding(ra_words::specs::Words::value_at))]
fn fits_workers(words: &[String], place: usize) -> bool
    requires { place ≤ 16 }
    ensures { result ≡ is_workers (value_at (codes "--workers") (texts words.now) place) }
{
    !has_option(words, place, "--workers") || is_workers(text_at(words, place + 1).as_bytes())
}

/// Whether a text is a number of workers, 1 to 16.
fn is_workers(text: &[u8]) -> bool
    ensures { result ≡ is_workers (Some text.now) }
{
    is_number(text) && number(text) >= 1 && number(text) <= MOST_WORKERS
}
