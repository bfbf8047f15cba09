//! Command words of each form.
use super::found::same;
use ra_base::Name;
use ra_draws::{Lot, Lots, Source};
use ra_words::{Job, read_words};
use std::alloc::{AllocError, Global};
use std::process::Abort;
use test_samples::strings;

/// Words of each form, with the job told in words of this file. The conformance suite has the words that are not a job.
const JOBS: &[(&[&str], &str)] = &[
    (
        &["check", "a b", "i-", ":", "--closed", "1"],
        "check a b i- : closed 1",
    ),
    (&["bound", "check"], "bound check closed none"),
    (&["bound", "m", "i"], "bound from m i closed none"),
    (
        &["bound", "m", "i", "--closed", "c"],
        "bound from m i closed c",
    ),
    (&["trial", "0"], "trial 0"),
    (
        &["trial", "00018446744073709551"],
        "trial 18446744073709551",
    ),
    (
        &["trial", "18446744073709551615"],
        "trial 18446744073709551615",
    ),
    (
        &[
            "solve",
            "m",
            "i",
            "--slack",
            "18446744073709551615",
            "7:1000000",
        ],
        "solve m i closed none slack 18446744073709551615 drawing Two lots 1 budget 1000000 seed 7",
    ),
    (
        &[
            "solve",
            "m",
            "i",
            "--slack",
            "5",
            "--closed",
            "c",
            "--draws",
            "1",
            "w:8,7,6,5,4,3,2,18446744073709551615",
        ],
        "solve m i closed c slack 5 drawing One lots 1 budget 1 words [8, 7, 6, 5, 4, 3, 2, 18446744073709551615]",
    ),
    (
        &["solve", "m", "i", "7:1", "w:8,7,6,5,4,3,2,1", "9:999998"],
        "solve m i closed none slack 0 drawing Two lots 3 budget 999998 seed 9",
    ),
    (
        &[
            "verify", "m", "i", "r", "--slack", "7", "--closed", "c", "--draws", "1", "9:3",
        ],
        "verify r m i closed c slack 7 drawing One lots 1 budget 3 seed 9",
    ),
    (
        &["repair", "m", "i", "--closed", "c", "9:1000000"],
        "repair m i closed c slack 0 drawing Two lots 1 budget 1000000 seed 9",
    ),
    (
        &["edit", "m", "i", "n", "e", "--closed", "c"],
        "edit m i n e closed c",
    ),
];

/// Demands that words are a job that is told like this.
fn demand(rt: &impl Abort, alloc: Global, words: &[&str], want: &str) {
    let list = strings(alloc, words).expect(rt, "no memory");
    let read = read_words(alloc, list.as_slice());
    drop(list);
    let job = read.expect(rt, "no job");
    let told = tell(alloc, &job).expect(rt, "no memory");
    drop(job);
    same(rt, told.as_str(), want);
    drop(told);
}

#[test]
fn words_of_each_form_are_jobs(rt: HostRuntime) {
    for row in JOBS {
        demand(&rt, rt.alloc(), row.0, row.1);
    }
}

/// A form, the names of its files, and the one that is closed.
fn told(
    alloc: Global,
    form: &str,
    names: &[&Name],
    closed: &Option<Name>,
) -> Result<String, AllocError> {
    let mut text = String::from_str(alloc, form)?;
    for name in names {
        text.push(' ')?;
        text.push_str(name.as_str())?;
    }
    text.push_str(" closed ")?;
    text.push_str(name_of(closed))?;
    Ok(text)
}

/// A form, the names of its files, the one that is closed, and the lots of a run after it.
fn told_with(
    alloc: Global,
    form: &str,
    names: &[&Name],
    closed: &Option<Name>,
    lots: &Lots,
) -> Result<String, AllocError> {
    let front = told(alloc, form, names, closed)?;
    tell_lots(alloc, front.as_str(), lots)
}

/// What a job is, in words of this file.
fn tell(alloc: Global, job: &Job) -> Result<String, AllocError> {
    match job {
        Job::Check {
            model,
            initial,
            changed,
            closed,
        } => told(alloc, "check", &[model, initial, changed], closed),
        Job::Bound {
            model,
            initial,
            closed,
        } => tell_bound(alloc, model, initial, closed),
        Job::Solve {
            model,
            initial,
            closed,
            lots,
        } => told_with(alloc, "solve", &[model, initial], closed, lots),
        Job::Trial { number } => format!(in alloc; "trial {}", number),
        Job::Verify {
            model,
            initial,
            report,
            closed,
            lots,
        } => told_with(alloc, "verify", &[report, model, initial], closed, lots),
        Job::Repair {
            model,
            initial,
            closed,
            lots,
        } => told_with(alloc, "repair", &[model, initial], closed, lots),
        Job::Edit {
            model,
            initial,
            current,
            edits,
            closed,
        } => told(alloc, "edit", &[model, initial, current, edits], closed),
    }
}

fn tell_bound(
    alloc: Global,
    model: &Name,
    initial: &Option<Name>,
    closed: &Option<Name>,
) -> Result<String, AllocError> {
    match initial {
        Some(initial) => told(alloc, "bound from", &[model, initial], closed),
        None => told(alloc, "bound", &[model], closed),
    }
}

/// The lots of a run, added after a text. The last lot is told.
fn tell_lots(alloc: Global, front: &str, lots: &Lots) -> Result<String, AllocError> {
    let last = tell_lot(alloc, lots.lot(lots.len() - 1))?;
    format!(in alloc;
        "{} slack {} drawing {:?} lots {} {}",
        front,
        lots.slack(),
        lots.drawing(),
        lots.len(),
        last.as_str()
    )
}

fn tell_lot(alloc: Global, lot: &Lot) -> Result<String, AllocError> {
    match &lot.source {
        Source::Seed(seed) => format!(in alloc; "budget {} seed {}", lot.budget, seed),
        Source::Written(words) => format!(in alloc;
            "budget {} words {:?}",
            lot.budget,
            words.as_slice()
        ),
    }
}

fn name_of(closed: &Option<Name>) -> &str {
    match closed {
        Some(name) => name.as_str(),
        None => "none",
    }
}
