//! Long reports, and those of several workers, are made and verified through the top call.
use super::running::{files_of, output_of};
use super::texts::{SAMPLE, START};
use ra_io::NoGate;
use ra_trial::trial_text;
use std::alloc::Global;
use std::marker::Sync;
use std::process::Abort;
use std::sync::Wait;
use std::thread::Threads;

/// Makes a report by these command words after `solve m i`, and verifies it with the same words.
fn is_accepted<R: Abort + Threads + Wait + Sync>(
    rt: &R,
    alloc: Global,
    files: (&[u8], &[u8]),
    solve: &[&str],
    verify: &[&str],
    room: usize,
    accepted: &str,
) {
    let mut files = files_of(rt, alloc, files.0, files.1);
    let report = output_of(rt, alloc, solve, &mut files, room, &NoGate);
    files
        .add(alloc, "r", report.bytes())
        .expect(rt, "no memory");
    let told = output_of(rt, alloc, verify, &mut files, 1000, &NoGate);
    assert!(rt; told.bytes() == accepted.as_bytes());
    drop(told);
    drop(report);
    drop(files);
}

/// The whole runs on the texts of trial 1: one worker, and four.
fn trial_reports_are_accepted<R: Abort + Threads + Wait + Sync>(rt: &R, alloc: Global) {
    let text = trial_text(alloc, 1).expect(rt, "no memory");
    let files = (text.model.as_slice(), text.start.as_slice());
    is_accepted(
        rt,
        alloc,
        files,
        ["solve", "m", "i", "--slack", "1000", "1:2000"].as_slice(),
        ["verify", "m", "i", "r", "--slack", "1000", "1:2000"].as_slice(),
        500_000,
        "accepted 2000\n",
    );
    is_accepted(
        rt,
        alloc,
        files,
        [
            "solve", "m", "i", "--slack", "1000", "1:2000", "2:2000", "3:2000", "4:2000",
        ]
        .as_slice(),
        [
            "verify", "m", "i", "r", "--slack", "1000", "1:2000", "2:2000", "3:2000", "4:2000",
        ]
        .as_slice(),
        2_000_000,
        "accepted 8000\n",
    );
    drop(text);
}

#[test]
fn reports_on_a_trial_are_accepted(rt: HostRuntime) {
    trial_reports_are_accepted(&rt, rt.alloc());
}

/// Whatever the order in which they came, the report of several workers is one that is accepted.
#[test]
fn reports_of_sixteen_workers_are_accepted(rt: HostRuntime) {
    let solve = [
        "solve", "m", "i", "--slack", "500", "1:20", "2:20", "3:20", "4:20", "5:20", "6:20",
        "7:20", "8:20", "9:20", "10:20", "11:20", "12:20", "13:20", "14:20", "15:20", "16:20",
    ];
    let verify = [
        "verify", "m", "i", "r", "--slack", "500", "1:20", "2:20", "3:20", "4:20", "5:20", "6:20",
        "7:20", "8:20", "9:20", "10:20", "11:20", "12:20", "13:20", "14:20", "15:20", "16:20",
    ];
    for _ in 0..3 {
        is_accepted(
            &rt,
            rt.alloc(),
            (SAMPLE, START),
            solve.as_slice(),
            verify.as_slice(),
            100_000,
            "accepted 320\n",
        );
    }
}
