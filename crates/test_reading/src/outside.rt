//! Files and sinks, and the gate at which two workers meet.
ghost use Rattle.std.specs.Prelude.{◌^◌, ◌<◌, length};

use super::files::{failing, steady};
use super::found::same;
use ra_io::{
    CountSink, DiskFiles, ErrSink, Failed, Files, Gate, MemorySink, NoGate, OutSink, PairGate,
    Sink, put_all,
};
use std::alloc::Global;
use std::io::{ErrorKind, Write};
use std::os::fd::AsRawFd;
use std::process::Abort;
use std::{fs, io, thread};
use test_samples::list;

/// Demands that a file has these bytes, read one by one.
fn demand_bytes(rt: &impl Abort, files: &mut impl Files, name: &str, want: &[u8])
    requires { length want.now < 2 ^ 62 }
{
    let mut into = [0u8; 1];
    for (at, &byte) in want.iter().enumerate() {
        same(rt, files.fetch(name, at as u64, &mut into), Ok(1));
        same(rt, into[0], byte);
    }
    same(rt, files.fetch(name, want.len() as u64, &mut into), Ok(0));
}

#[test]
fn steady_files_hold_what_was_added(rt: HostRuntime) {
    let mut files = steady(rt.alloc(), "m", b"old").expect(&rt, "no memory");
    files
        .add(rt.alloc(), "i", b"0 3 0\n")
        .expect(&rt, "no memory");
    files
        .add(rt.alloc(), "m", b"1 2 3")
        .expect(&rt, "no memory");
    demand_bytes(&rt, &mut files, "m", b"1 2 3");
    demand_bytes(&rt, &mut files, "i", b"0 3 0\n");
    demand_bytes(&rt, &mut files, "n", b"");
    drop(files);
}

#[test]
fn memory_files_give_few_bytes_and_fail_where_wanted(rt: HostRuntime) {
    let mut files = failing(rt.alloc(), 4, &[1], "m", b"0123456789").expect(&rt, "no memory");
    let mut into = [0u8; 8];
    same(&rt, files.fetch("m", 3, &mut into), Ok(4));
    same(&rt, &into[..4], b"3456".as_slice());
    same(&rt, files.fetch("m", 3, &mut into), Err(Failed));
    same(&rt, files.fetch("m", 8, &mut into), Ok(2));
    same(&rt, files.fetch("m", 10, &mut into), Ok(0));
    same(&rt, files.fetch("n", 0, &mut into), Err(Failed));
    demand_bytes(&rt, &mut files, "m", b"0123456789");
    drop(files);
}

#[test]
fn a_memory_sink_takes_few_bytes_and_fails_where_wanted(rt: HostRuntime) {
    let fails = list(rt.alloc(), &[2]).expect(&rt, "no memory");
    let mut sink = MemorySink::make(rt.alloc(), 8, 3, fails).expect(&rt, "no memory");
    same(&rt, put_all(&mut sink, b"01234"), Ok(()));
    same(&rt, sink.bytes(), b"01234".as_slice());
    same(&rt, put_all(&mut sink, b"56"), Err(Failed));
    same(&rt, put_all(&mut sink, b"567"), Ok(()));
    same(&rt, sink.bytes(), b"01234567".as_slice());
    same(&rt, sink.put(b"8"), Err(Failed));
    drop(sink);
}

#[test]
fn a_count_sink_counts_bytes(rt: HostRuntime) {
    let mut sink = CountSink::make();
    same(&rt, put_all(&mut sink, b"12345"), Ok(()));
    same(&rt, sink.put(b"678"), Ok(3));
    same(&rt, sink.count(), 8);
    NoGate.before_commit(0, 0);
}

#[test]
fn disk_files_read_a_file(rt: HostRuntime) {
    let name = "disk_files_read_a_file.txt";
    fs::write(&rt, name, "0 3 0\n").expect(&rt, "not written");
    let mut files = DiskFiles::make(&rt);
    demand_bytes(&rt, &mut files, name, b"0 3 0\n");
    let mut into = [0u8; 2];
    same(&rt, files.fetch(name, 2, &mut into), Ok(2));
    same(&rt, into, *b"3 ");
    fs::remove_file(&rt, name).expect(&rt, "not removed");
    same(&rt, files.fetch(name, 0, &mut into), Err(Failed));
}

#[test]
fn a_file_that_is_replaced_is_read_to_its_end(rt: HostRuntime) {
    let name = "a_file_that_is_replaced.txt";
    let other = "a_file_that_replaces.txt";
    fs::write(&rt, name, "0 3 0\n").expect(&rt, "not written");
    fs::write(&rt, other, "12 12 12\n").expect(&rt, "not written");
    let mut files = DiskFiles::make(&rt);
    let mut into = [0u8; 4];
    same(&rt, files.fetch(name, 0, &mut into), Ok(4));
    same(&rt, into, *b"0 3 ");
    fs::rename(&rt, other, name).expect(&rt, "not renamed");
    same(&rt, files.fetch(name, 4, &mut into), Ok(2));
    same(&rt, into, *b"0\n3 ");
    same(&rt, files.fetch(name, 6, &mut into), Ok(0));
    demand_bytes(&rt, &mut files, name, b"12 12 12\n");
    fs::remove_file(&rt, name).expect(&rt, "not removed");
}

#[test]
fn a_file_that_is_removed_is_read_to_its_end(rt: HostRuntime) {
    let name = "a_file_that_is_removed.txt";
    fs::write(&rt, name, "0 3 0\n").expect(&rt, "not written");
    let mut files = DiskFiles::make(&rt);
    let mut into = [0u8; 4];
    same(&rt, files.fetch(name, 0, &mut into), Ok(4));
    fs::remove_file(&rt, name).expect(&rt, "not removed");
    same(&rt, files.fetch(name, 4, &mut into), Ok(2));
    same(&rt, into, *b"0\n3 ");
    same(&rt, files.fetch(name, 0, &mut into), Err(Failed));
    same(&rt, files.fetch(name, 4, &mut into), Err(Failed));
    fs::write(&rt, name, "12 12 12\n").expect(&rt, "not written");
    same(&rt, files.fetch(name, 5, &mut into), Ok(4));
    same(&rt, into, *b" 12\n");
    fs::remove_file(&rt, name).expect(&rt, "not removed");
}

#[test]
fn two_files_are_read_by_turns(rt: HostRuntime) {
    let first = "two_files_are_read_by_turns.txt";
    let second = "two_files_are_read_by_turns.txt.2";
    fs::write(&rt, first, "0 3 0\n").expect(&rt, "not written");
    fs::write(&rt, second, "12 12\n").expect(&rt, "not written");
    let mut files = DiskFiles::make(&rt);
    let mut into = [0u8; 2];
    same(&rt, files.fetch(first, 0, &mut into), Ok(2));
    same(&rt, files.fetch(second, 2, &mut into), Ok(2));
    same(&rt, into, *b" 1");
    same(&rt, files.fetch(first, 4, &mut into), Ok(2));
    same(&rt, into, *b"0\n");
    same(&rt, files.fetch(first, 1, &mut into), Ok(2));
    same(&rt, into, *b" 3");
    fs::remove_file(&rt, first).expect(&rt, "not removed");
    fs::remove_file(&rt, second).expect(&rt, "not removed");
}

#[test]
fn disk_files_read_a_pipe(rt: HostRuntime) {
    let (reader, mut writer) = io::pipe(&rt).expect(&rt, "no pipe");
    let name = format!(in rt.alloc(); "/proc/self/fd/{}", reader.as_raw_fd()).expect(
        &rt,
        "no memory",
    );
    writer.write_all(b"0 3 0\n").expect(&rt, "not written");
    drop(writer);
    let mut files = DiskFiles::make(&rt);
    let mut into = [0u8; 4];
    same(&rt, files.fetch(name.as_str(), 0, &mut into), Ok(4));
    same(&rt, into, *b"0 3 ");
    same(&rt, files.fetch(name.as_str(), 4, &mut into), Ok(2));
    same(&rt, into, *b"0\n3 ");
    same(&rt, files.fetch(name.as_str(), 6, &mut into), Ok(0));
    same(&rt, files.fetch(name.as_str(), 2, &mut into), Err(Failed));
    drop(name);
    drop(reader);
}

#[test]
fn a_name_longer_than_any_path_fails(rt: HostRuntime) {
    let name = format!(in rt.alloc(); "{:a>5000}", "").expect(&rt, "no memory");
    let mut files = DiskFiles::make(&rt);
    let mut into = [0u8; 4];
    same(&rt, files.fetch(name.as_str(), 0, &mut into), Err(Failed));
    drop(name);
}

/// A writer that takes one byte at once, and has room for three. It holds a byte back until it is flushed, and takes no
/// other before that.
#[derive(Drop)]
struct Narrow<'a> {
    held: Option<u8>,
    bytes: &'a mut Vec<u8>,
}

impl Write for Narrow<'_> {
    fn write(&mut self, piece: &[u8]) -> io::Result<usize> {
        if self.held.is_some() || piece.is_empty() {
            return Ok(0);
        }
        self.held = Some(piece[0]);
        Ok(1)
    }

    fn flush(&mut self) -> io::Result<()> {
        if self.bytes.len() >= 3 {
            return Err(io::Error::from(ErrorKind::WriteZero));
        }
        if let Some(byte) = self.held {
            self.bytes.push(byte)?;
        }
        self.held = None;
        Ok(())
    }
}

/// Demands that a sink flushes each byte, fails if it can't be flushed, and fails if the writer then takes none.
fn demand_flushed(rt: &impl Abort, sink: &mut impl Sink) {
    same(rt, put_all(sink, b"012"), Ok(()));
    same(rt, sink.put(b"3"), Err(Failed));
    same(rt, sink.put(b"4"), Err(Failed));
}

#[test]
fn an_out_sink_writes_and_flushes(rt: HostRuntime) {
    let mut bytes = Vec::new(rt.alloc());
    let mut sink = OutSink::make(Narrow {
        held: None,
        bytes: &mut bytes,
    });
    demand_flushed(&rt, &mut sink);
    same(&rt, bytes.as_slice(), b"012".as_slice());
    drop(bytes);
}

#[test]
fn an_err_sink_writes_and_flushes(rt: HostRuntime) {
    let mut bytes = Vec::new(rt.alloc());
    let mut sink = ErrSink::make(Narrow {
        held: None,
        bytes: &mut bytes,
    });
    demand_flushed(&rt, &mut sink);
    same(&rt, bytes.as_slice(), b"012".as_slice());
    drop(bytes);
}

#[test]
fn two_workers_meet_at_a_pair_gate(rt: HostRuntime) {
    let gate = PairGate::make();
    gate.before_commit(0, 1);
    gate.before_commit(2, 0);
    same(&rt, gate.met(), false);
    thread::join(
        &rt,
        || gate.before_commit(0, 0),
        || gate.before_commit(1, 0),
    );
    same(&rt, gate.met(), true);
}
