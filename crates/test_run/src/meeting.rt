//! Two workers of one run, through the top call: that they run at the same time, and the reports that they may give.
use super::running::{files_of, output_of};
use super::texts::{BETTER_HEAD, PAIR, PAIR_HEAD, PAIR_START, SAMPLE, START, START_HEAD};
use ra_io::{Gate, NoGate, PairGate};
use std::alloc::Global;
use std::marker::Sync;
use std::process::Abort;
use std::sync::Wait;
use std::thread::Threads;

/// Whether bytes are a report with this head and these entries.
fn is_report(bytes: &[u8], head: &str, entries: &str) -> bool {
    let head = head.as_bytes();
    bytes.len() >= head.len()
        && (&bytes[..head.len()] == head && &bytes[head.len()..] == entries.as_bytes())
}

/// Runs command words over a model and its start, and says which of the reports it gave, if one of them.
fn report_of<R: Abort + Threads + Wait + Sync, G: Gate>(
    rt: &R,
    alloc: Global,
    files: (&[u8], &[u8]),
    words: &[&str],
    reports: &[(&str, &str)],
    gate: &G,
) -> Option<usize> {
    let mut files = files_of(rt, alloc, files.0, files.1);
    let out = output_of(rt, alloc, words, &mut files, 10_000, gate);
    let mut found = None;
    for (place, report) in reports.iter().enumerate() {
        if is_report(out.bytes(), report.0, report.1) {
            found = Some(place);
        }
    }
    drop(out);
    drop(files);
    found
}

/// Each of two workers waits at the gate for the other, with a plan that it made at the start. A run that passes
/// another gate, or runs its workers one after another, isn't met.
fn two_workers_meet<R: Abort + Threads + Wait + Sync>(
    rt: &R,
    alloc: Global,
    files: (&[u8], &[u8]),
    words: &[&str],
    reports: &[(&str, &str)],
) {
    let gate = PairGate::make();
    let found = report_of(rt, alloc, files, words, reports, &gate);
    assert!(rt; gate.met());
    assert!(rt; found.is_some());
    drop(gate);
}

#[test]
fn two_workers_meet_on_the_sample(rt: HostRuntime) {
    let words = [
        "solve",
        "m",
        "i",
        "--draws",
        "1",
        "w:0,1,1,0,3,1,0,0",
        "w:0,2,2,2,2,2,0,0",
    ];
    let reports = [
        (
            START_HEAD,
            "0 0 0 0 shift 1:3>1 refused spread 0 1 2\n1 1 0 0 shift 2:0>2 refused capacity 2 1 200 100\n",
        ),
        (
            START_HEAD,
            "0 1 0 0 shift 2:0>2 refused capacity 2 1 200 100\n1 0 0 0 shift 1:3>1 refused spread 0 1 2\n",
        ),
    ];
    two_workers_meet(
        &rt,
        rt.alloc(),
        (SAMPLE, START),
        words.as_slice(),
        reports.as_slice(),
    );
}

#[test]
fn two_workers_meet_on_a_pair_of_machines(rt: HostRuntime) {
    let words = [
        "solve",
        "m",
        "i",
        "--draws",
        "1",
        "w:0,0,0,0,0,0,0,0",
        "w:0,1,1,1,1,1,0,0",
    ];
    let reports = [
        (
            PAIR_HEAD,
            "0 0 0 0 shift 0:0>0 refused same 0\n1 1 0 0 shift 1:1>1 refused same 1\n",
        ),
        (
            PAIR_HEAD,
            "0 1 0 0 shift 1:1>1 refused same 1\n1 0 0 0 shift 0:0>0 refused same 0\n",
        ),
    ];
    two_workers_meet(
        &rt,
        rt.alloc(),
        (PAIR, PAIR_START),
        words.as_slice(),
        reports.as_slice(),
    );
}

/// Worker 0 would put process 1 on machine 2, and worker 1 process 2. The second finds less room if it comes after the
/// first; if it comes first, worker 0 has planned before or after it.
#[test]
fn two_workers_go_one_of_three_ways(rt: HostRuntime) {
    let words = [
        "solve",
        "m",
        "i",
        "--draws",
        "1",
        "w:0,1,2,1,0,3,0,0",
        "w:0,2,2,2,2,2,0,0",
    ];
    let reports = [
        (
            BETTER_HEAD,
            "1\nassignment 0 2 0\ndraws 1\n0 0 0 0 shift 1:3>2 done 3510\n1 1 0 1 shift 2:0>2 refused capacity 2 0 16 15\n",
        ),
        (
            BETTER_HEAD,
            "2\nassignment 0 2 0\ndraws 1\n0 1 0 0 shift 2:0>2 refused capacity 2 1 200 100\n1 0 0 0 shift 1:3>2 done 3510\n",
        ),
        (
            BETTER_HEAD,
            "2\nassignment 0 2 0\ndraws 1\n0 1 0 0 shift 2:0>2 refused capacity 2 1 200 100\n1 0 0 1 shift 1:3>2 done 3510\n",
        ),
    ];
    for _ in 0..20 {
        let found = report_of(
            &rt,
            rt.alloc(),
            (SAMPLE, START),
            words.as_slice(),
            reports.as_slice(),
            &NoGate,
        );
        assert!(rt; found.is_some());
    }
}
