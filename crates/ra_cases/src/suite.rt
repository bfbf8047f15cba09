use crate::parts::{Case, behind, part};
use crate::texts::{Text, text_of};
use crate::tokens::{Token, tokens};
use crate::trouble::Trouble;
use crate::trying::try_case;
use crate::verdicts::put_line;
use ra_io::Sink;
use std::alloc::Global;
use std::marker::Sync;
use std::sync::Wait;
use std::thread::Threads;

/// The words that begin the lines of a case.
const HEADS: [&str; 13] = [
    "program",
    "words",
    "rows",
    "file",
    "fetch-gives",
    "fetch-fails",
    "out-takes",
    "out-fails",
    "err-takes",
    "err-fails",
    "status",
    "out",
    "err",
];

/// How many cases were tried, and how many of them didn't end as they should.
#[derive(Clone, Copy)]
pub struct Tally {
    pub tried: u64,
    pub failed: u64,
}

impl Tally {
    /// A tally of no cases.
    pub(crate) fn none() -> Tally {
        Tally {
            tried: 0,
            failed: 0,
        }
    }

    /// Counts one more.
    fn add(&mut self, same: bool) {
        self.tried = self.tried.saturating_add(1);
        if !same {
            self.failed = self.failed.saturating_add(1);
        }
    }
}

/// Tries all cases of a text, puts a line for each, and at the end how many there were.
///
/// # Errors
///
/// `NoMemory`, or `Write` if a line can't be put. A paragraph that isn't a case counts as one that failed.
pub fn try_all<R: Threads + Wait + Sync, O: Sink>(
    rt: &R,
    alloc: Global,
    text: &str,
    sink: &mut O,
) -> Result<Tally, Trouble> {
    let lines = lines_of(alloc, text)?;
    let mut texts = Vec::new(alloc);
    let mut tally = Tally::none();
    let tried = try_lines(rt, alloc, lines.as_slice(), &mut texts, &mut tally, sink);
    drop(texts);
    drop(lines);
    tried?;
    put_count(alloc, &tally, sink)?;
    Ok(tally)
}

/// The lines of a text without those that begin with `#`.
fn lines_of<'t>(alloc: Global, text: &'t str) -> Result<Vec<&'t str>, Trouble> {
    let mut lines = Vec::new(alloc);
    for line in text.lines() {
        if !line.starts_with('#') {
            lines.push(line)?;
        }
    }
    Ok(lines)
}

/// Tries the cases of lines. Empty lines separate their paragraphs.
fn try_lines<'t, R: Threads + Wait + Sync, O: Sink>(
    rt: &R,
    alloc: Global,
    lines: &[&'t str],
    texts: &mut Vec<Text<'t>>,
    tally: &mut Tally,
    sink: &mut O,
) -> Result<(), Trouble> {
    for paragraph in lines.split(|line| line.is_empty()) {
        if let [head, below @ ..] = paragraph {
            match try_paragraph(rt, alloc, head, below, texts, tally, sink) {
                Err(Trouble::Unclear) => {
                    tally.add(false);
                    put_line(sink, head, ": NOT UNDERSTOOD")?;
                }
                tried => tried?,
            }
        }
    }
    Ok(())
}

/// Puts how many cases there were.
fn put_count<O: Sink>(alloc: Global, tally: &Tally, sink: &mut O) -> Result<(), Trouble> {
    let count = format!(in alloc; "{} cases, {} failed", tally.tried, tally.failed)?;
    put_line(sink, count.as_str(), "")?;
    Ok(())
}

/// Keeps a shared text, or tries a case, whose head and lines these are.
fn try_paragraph<'t, R: Threads + Wait + Sync, O: Sink>(
    rt: &R,
    alloc: Global,
    head: &'t str,
    below: &[&'t str],
    texts: &mut Vec<Text<'t>>,
    tally: &mut Tally,
    sink: &mut O,
) -> Result<(), Trouble> {
    if let Some(rest) = behind(head, "text") {
        return keep_text(alloc, rest, below, texts);
    }
    let Some(name) = behind(head, "case") else {
        return Err(Trouble::Unclear);
    };
    if !are_known(below) {
        return Err(Trouble::Unclear);
    }
    try_rows(rt, alloc, name, below, texts.as_slice(), tally, sink)
}

/// Keeps a shared text: its name and its text are in this rest of a line and below it.
fn keep_text<'t>(
    alloc: Global,
    rest: &'t str,
    below: &[&'t str],
    texts: &mut Vec<Text<'t>>,
) -> Result<(), Trouble> {
    let (name, pieces) = rest.split_once(' ').unwrap_or((rest, ""));
    let bytes = text_of(alloc, texts.as_slice(), pieces, below, &[])?;
    texts.push(Text { name, bytes })?;
    Ok(())
}

/// Whether each line begins with a word of cases, or with four spaces.
fn are_known(lines: &[&str]) -> bool {
    lines.iter().all(|line| line.starts_with("    ")
        || HEADS.iter().any(|head| behind(line, head).is_some()))
}

/// Tries a case once for each of its rows, or once if it has none.
fn try_rows<R: Threads + Wait + Sync, O: Sink>(
    rt: &R,
    alloc: Global,
    name: &str,
    lines: &[&str],
    texts: &[Text<'_>],
    tally: &mut Tally,
    sink: &mut O,
) -> Result<(), Trouble> {
    let Some((rest, below)) = part(lines, "rows") else {
        let case = Case {
            lines,
            row: &[],
            texts,
        };
        tally.add(try_case(rt, alloc, &case, name, sink)?);
        return Ok(());
    };
    match rest.split_once(" to ") {
        Some((first, last)) => {
            try_numbers(rt, alloc, name, lines, texts, first, last, tally, sink)
        }
        None => try_listed(rt, alloc, name, lines, texts, below, tally, sink),
    }
}

/// Tries a case once for each row of the lines below `rows`.
fn try_listed<R: Threads + Wait + Sync, O: Sink>(
    rt: &R,
    alloc: Global,
    name: &str,
    lines: &[&str],
    texts: &[Text<'_>],
    below: &[&str],
    tally: &mut Tally,
    sink: &mut O,
) -> Result<(), Trouble> {
    for line in below {
        let Some(row) = line.strip_prefix("    ") else {
            break;
        };
        try_row(rt, alloc, name, lines, texts, row, tally, sink)?;
    }
    Ok(())
}

/// Tries a case once for each number from the first to the last.
fn try_numbers<R: Threads + Wait + Sync, O: Sink>(
    rt: &R,
    alloc: Global,
    name: &str,
    lines: &[&str],
    texts: &[Text<'_>],
    first: &str,
    last: &str,
    tally: &mut Tally,
    sink: &mut O,
) -> Result<(), Trouble> {
    let (Ok(first), Ok(last)) = (first.parse::<u32>(), last.parse::<u32>()) else {
        return Err(Trouble::Unclear);
    };
    for number in first..=last {
        try_number(rt, alloc, name, lines, texts, number, tally, sink)?;
    }
    Ok(())
}

/// Tries a case with a number as its row.
fn try_number<R: Threads + Wait + Sync, O: Sink>(
    rt: &R,
    alloc: Global,
    name: &str,
    lines: &[&str],
    texts: &[Text<'_>],
    number: u32,
    tally: &mut Tally,
    sink: &mut O,
) -> Result<(), Trouble> {
    let row = format!(in alloc; "{number}")?;
    try_row(rt, alloc, name, lines, texts, row.as_str(), tally, sink)
}

/// Tries a case with one of its rows.
fn try_row<R: Threads + Wait + Sync, O: Sink>(
    rt: &R,
    alloc: Global,
    name: &str,
    lines: &[&str],
    texts: &[Text<'_>],
    row: &str,
    tally: &mut Tally,
    sink: &mut O,
) -> Result<(), Trouble> {
    let label = format!(in alloc; "{name} [{row}]")?;
    let pieces = tokens(alloc, row)?;
    let case = Case {
        lines,
        row: pieces.as_slice(),
        texts,
    };
    tally.add(try_case(rt, alloc, &case, label.as_str(), sink)?);
    Ok(())
}
