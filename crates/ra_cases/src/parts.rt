ghost use Rattle.std.specs.Prelude.{◌≡◌, ◌<◌, [], IfOk};
ghost use Rattle.ra_io.specs.MemoryFiles as memory;
ghost use Rattle.ra_io.specs.MemorySink as taken;

use crate::asking::Program;
use crate::texts::{Text, text_of};
use crate::tokens::{Token, filled};
use crate::trouble::Trouble;
use ra_base::Fixed;
use ra_io::{MemoryFiles, MemorySink};
use std::alloc::Global;

/// The most bytes of an output, and of an error line, of a case.
const ROOM: usize = 100_000;

/// A case: the lines after its name, with the pieces of one of its rows, and the shared texts.
#[derive(Clone, Copy)]
pub(crate) struct Case<'c> {
    pub(crate) lines: &'c [&'c str],
    pub(crate) row: &'c [Token<'c>],
    pub(crate) texts: &'c [Text<'c>],
}

/// The text after a word at the head of a line.
pub(crate) fn behind<'t>(line: &'t str, word: &str) -> Option<&'t str> {
    match line.strip_prefix(word) {
        Some("") => Some(""),
        Some(rest) => rest.strip_prefix(" "),
        None => None,
    }
}

/// The text after a word at the head of the first line that begins with it, and the lines below that.
pub(crate) fn part<'c>(lines: &'c [&'c str], word: &str) -> Option<(&'c str, &'c [&'c str])> {
    let mut rest = lines;
    while let [line, below @ ..] = rest {
        if let Some(text) = behind(line, word) {
            return Some((text, below));
        }
        rest = below;
    }
    None
}

/// The program that a case names, and `reassign` if it names none.
pub(crate) fn program_of(case: &Case<'_>) -> Result<Program, Trouble> {
    let Some((name, _)) = part(case.lines, "program") else {
        return Ok(Program::Reassign);
    };
    match name {
        "reassign" => Ok(Program::Reassign),
        "anneal" => Ok(Program::Anneal),
        _ => Err(Trouble::Unclear),
    }
}

/// The command words of a case.
pub(crate) fn words_of(alloc: Global, case: &Case<'_>) -> Result<Vec<String>, Trouble> {
    let Some((rest, _)) = part(case.lines, "words") else {
        return Err(Trouble::Unclear);
    };
    let pieces = filled(alloc, rest, case.row)?;
    let words = strings(alloc, pieces.as_slice());
    drop(pieces);
    words
}

/// The texts of pieces.
fn strings(alloc: Global, pieces: &[Token<'_>]) -> Result<Vec<String>, Trouble> {
    let mut words = Vec::new(alloc);
    for piece in pieces {
        words.push(String::from_str(alloc, piece.text)?)?;
    }
    Ok(words)
}

/// The text after a word, and nothing if no line begins with it.
pub(crate) fn wanted(alloc: Global, case: &Case<'_>, word: &str) -> Result<Vec<u8>, Trouble> {
    match part(case.lines, word) {
        Some((rest, below)) => text_of(alloc, case.texts, rest, below, case.row),
        None => Ok(Vec::new(alloc)),
    }
}

/// The one number after a word, if a line begins with it.
pub(crate) fn number(alloc: Global, case: &Case<'_>, word: &str) -> Result<Option<u64>, Trouble> {
    let numbers = numbers(alloc, case, word)?;
    Ok(numbers.as_slice().first().copied())
}

/// The numbers after a word, and none if no line begins with it.
fn numbers(alloc: Global, case: &Case<'_>, word: &str) -> Result<Fixed<u64>, Trouble> {
    let rest = match part(case.lines, word) {
        Some((rest, _)) => rest,
        None => "",
    };
    let pieces = filled(alloc, rest, case.row)?;
    let numbers = values(alloc, pieces.as_slice());
    drop(pieces);
    numbers
}

/// The pieces as numbers.
fn values(alloc: Global, pieces: &[Token<'_>]) -> Result<Fixed<u64>, Trouble> {
    let mut numbers = Fixed::make(alloc, pieces.len())?;
    for piece in pieces {
        let Ok(value) = piece.text.parse::<u64>() else {
            return Err(Trouble::Unclear);
        };
        if numbers.len() < numbers.room() {
            numbers.push(value);
        }
    }
    Ok(numbers)
}

/// The files of a case, which give at most `each` bytes at once.
pub(crate) fn files_of(alloc: Global, case: &Case<'_>, each: usize) -> Result<MemoryFiles, Trouble>
    requires { 0 < each }
    ensures { IfOk result (λ f. memory.each f ≡ each) }
{
    let mut files = MemoryFiles::make(alloc, each, numbers(alloc, case, "fetch-fails")?)?;
    let mut rest = case.lines;
    while let [line, below @ ..] = rest {
        if let Some(file) = behind(line, "file") {
            add_file(alloc, case, &mut files, file, below)?;
        }
        rest = below;
    }
    Ok(files)
}

/// Adds a file: its name and its text are in this rest of a line and below it.
fn add_file(
    alloc: Global,
    case: &Case<'_>,
    files: &mut MemoryFiles,
    file: &str,
    below: &[&str],
) -> Result<(), Trouble>
    ensures { memory.each files.new ≡ memory.each files.old }
{
    let (name, rest) = file.split_once(' ').unwrap_or((file, ""));
    let bytes = text_of(alloc, case.texts, rest, below, case.row)?;
    files.add(alloc, name, bytes.as_slice())?;
    Ok(())
}

/// A sink of a case. The numbers after these words say how much it takes at once, and which of its puts fail.
pub(crate) fn sink_of(
    alloc: Global,
    case: &Case<'_>,
    takes: &str,
    fails: &str,
) -> Result<MemorySink, Trouble>
    ensures { IfOk result (λ s. taken.bytes s ≡ []) }
{
    let each = number(alloc, case, takes)?.unwrap_or(ROOM as u64) as usize;
    if each == 0 {
        return Err(Trouble::Unclear);
    }
    let fails = numbers(alloc, case, fails)?;
    Ok(MemorySink::make(alloc, ROOM, each, fails)?)
}
