ghost use Rattle.std.specs.Prelude.{◌≡◌, true, false, codes, IfOk, drop, map};
ghost use Rattle.clap.specs.Words.{app_of, first_value, found_of, kind_of, rule_of};
ghost use Rattle.clap.specs.declared.error.kind.ErrorKind.TheVariants.{OutOfMemory};
ghost use Rattle.ra_words.specs.Words.{texts, word_at};
ghost use Rattle.ra_draws.specs.Lots.{IsLots};
ghost use Rattle.ra_draws.specs.Shown.{drawing_in, lots_shown, slack_in};
ghost use Rattle.ra_words.specs.Lines.{Line, Spells, Finds, line_app, option_rule, plain_of};
ghost use Rattle.ra_words.specs.LotTexts.{are_lots, lot_says};
ghost use Rattle.ra_words.specs.Jobs.{is_slack, slack_says, drawing_says};
ghost use Rattle.ra_words.specs.Said.{said_lot};

use crate::lots::read_lots;
use crate::numbers::number;
use crate::words::str_at;
use clap::{Arg, ArgAction, ArgMatches, Command, Error};
use ra_base::{Drawing, Name, NoMemory};
use ra_draws::{Lot, Lots};
use std::alloc::{AllocError, Global};

/// An option that has a value.
fn option<'a>(alloc: Global, name: &'a str) -> Arg<'a>
    ensures rule { rule_of result ≡ option_rule name.entry.now }
    ensures local { result.global ≡ false }
{
    Arg::new(alloc, name).long(name)
}

/// The one command that takes the words of every job apart.
fn line_command<'a>(alloc: Global) -> Result<Command<'a>, AllocError>
    ensures { IfOk result (λ command. app_of command ≡ line_app) }
{
    let mut arguments = Vec::with_capacity(alloc, 7)?;
    arguments.push_reserved(option(alloc, "slack"));
    arguments.push_reserved(option(alloc, "from"));
    arguments.push_reserved(option(alloc, "closed"));
    arguments.push_reserved(option(alloc, "draws"));
    arguments.push_reserved(option(alloc, "heat"));
    arguments.push_reserved(option(alloc, "workers"));
    arguments.push_reserved(Arg::new(alloc, "plain").action(ArgAction::Append));
    Command::new(alloc, "reassign").args(arguments)
}

/// Takes the words of a line apart. They were judged before, so it can only fail for memory.
pub fn take_line<'a>(alloc: Global, words: &'a [String]) -> Result<ArgMatches<'a>, NoMemory>
    requires { (line : Line) × Spells line (texts words.now) }
    ensures { IfOk result (λ taken. (line : Line) → Spells line (texts words.now)
        → Finds line (found_of taken)) }
{
    let command = line_command(alloc)?;
    match command.try_get_matches_from(words) {
        Ok(taken) => Ok(taken),
        Err(error) => Err(no_memory(error)),
    }
}

/// The fault of a parse that lacked memory.
fn no_memory(error: Error) -> NoMemory
    requires { kind_of error ≡ OutOfMemory }
{
    drop(error);
    NoMemory
}

/// The plain word at a place, and the empty text after the last one.
#[tactic(auto, using(crate::proofs::WordLaws::some_plain, crate::proofs::WordLaws::no_plain))]
pub fn plain_at<'a>(taken: &ArgMatches<'a>, place: usize) -> &'a str
    ensures { result.now ≡ word_at (plain_of (found_of taken.now)) place }
{
    match taken.get_strs("plain") {
        Some(words) => str_at(words, place),
        None => "",
    }
}

/// The plain word at a place as a name.
pub fn plain_name(alloc: Global, taken: &ArgMatches<'_>, place: usize) -> Result<Name, NoMemory>
    ensures { IfOk result (λ name. name ≡ word_at (plain_of (found_of taken.now)) place) }
{
    Name::make(alloc, plain_at(taken, place))
}

/// The file that `--closed` names, if the option is given.
pub fn closed_name(alloc: Global, taken: &ArgMatches<'_>) -> Result<Option<Name>, NoMemory>
    ensures { IfOk result (λ name. name ≡ first_value (found_of taken.now) (codes "closed")) }
{
    match taken.get_str("closed") {
        Some(file) => Ok(Some(Name::make(alloc, file)?)),
        None => Ok(None),
    }
}

/// The number that `--slack` gives, and 0 if the option isn't given.
fn slack(taken: &ArgMatches<'_>) -> u64
    requires { is_slack (first_value (found_of taken.now) (codes "slack")) ≡ true }
    ensures { result ≡ slack_says (first_value (found_of taken.now) (codes "slack")) }
{
    match taken.get_str("slack") {
        Some(text) => number(text.as_bytes()),
        None => 0,
    }
}

/// The drawing that `--draws` names, and the second one if the option isn't given.
fn drawing(taken: &ArgMatches<'_>) -> Drawing
    ensures { result ≡ drawing_says (first_value (found_of taken.now) (codes "draws")) }
{
    match taken.get_str("draws") {
        Some(text) if text == "1" => Drawing::One,
        _ => Drawing::Two,
    }
}

/// The lots in the plain words from a place on.
pub(crate) fn lots(
    alloc: Global,
    taken: &ArgMatches<'_>,
    place: usize,
) -> Result<Vec<Lot>, NoMemory>
    requires { are_lots (drop place (plain_of (found_of taken.now))) ≡ true }
    ensures said { IfOk result (λ lots. map said_lot lots.items ≡
        map lot_says (drop place (plain_of (found_of taken.now)))) }
    ensures fitting { IfOk result (λ lots. IsLots lots.items) }
{
    read_lots(alloc, taken.get_strs("plain").unwrap_or(&[]), place)
}

/// The lots of a run, with the slack and the drawing that the options give.
pub(crate) fn run_lots(
    alloc: Global,
    taken: &ArgMatches<'_>,
    place: usize,
) -> Result<Lots, NoMemory>
    requires slack { is_slack (first_value (found_of taken.now) (codes "slack")) ≡ true }
    requires lots { are_lots (drop place (plain_of (found_of taken.now))) ≡ true }
    ensures slack { IfOk result (λ l. slack_in l ≡ slack_says
        (first_value (found_of taken.now) (codes "slack"))) }
    ensures drawing { IfOk result (λ l. drawing_in l ≡ drawing_says
        (first_value (found_of taken.now) (codes "draws"))) }
    ensures lots { IfOk result (λ l. map said_lot (lots_shown l) ≡
        map lot_says (drop place (plain_of (found_of taken.now)))) }
{
    let lots = lots(alloc, taken, place)?;
    Ok(Lots::of(slack(taken), drawing(taken), lots))
}
