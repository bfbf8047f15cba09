//! Command lines over files and sinks in memory.
use ra_base::Fixed;
use ra_io::{Gate, MemoryFiles, MemorySink};
use ra_jobs::Status;
use ra_run::run;
use std::alloc::Global;
use std::marker::Sync;
use std::process::Abort;
use std::sync::Wait;
use std::thread::Threads;
use test_samples::strings;

/// Files in memory that never fail: a model `m` and its start `i`.
pub(super) fn files_of(rt: &impl Abort, alloc: Global, model: &[u8], start: &[u8]) -> MemoryFiles {
    let fails = Fixed::make(alloc, 0).expect(rt, "no memory");
    let mut files = MemoryFiles::make(alloc, 65_536, fails).expect(rt, "no memory");
    files.add(alloc, "m", model).expect(rt, "no memory");
    files.add(alloc, "i", start).expect(rt, "no memory");
    files
}

/// A sink in memory with this room, which never fails.
fn sink_of(rt: &impl Abort, alloc: Global, room: usize) -> MemorySink {
    let fails = Fixed::make(alloc, 0).expect(rt, "no memory");
    MemorySink::make(alloc, room, 65_536, fails).expect(rt, "no memory")
}

/// Runs a command line that is done, and gives the sink that has its output.
pub(super) fn output_of<R: Abort + Threads + Wait + Sync, G: Gate>(
    rt: &R,
    alloc: Global,
    words: &[&str],
    files: &mut MemoryFiles,
    room: usize,
    gate: &G,
) -> MemorySink {
    let words = strings(alloc, words).expect(rt, "no memory");
    let mut out = sink_of(rt, alloc, room);
    let mut err = sink_of(rt, alloc, 1000);
    let status = run(rt, alloc, words.as_slice(), files, &mut out, &mut err, gate);
    assert!(rt; status == Status::Done);
    assert_eq!(rt; err.bytes().len(), 0);
    drop(err);
    drop(words);
    out
}
