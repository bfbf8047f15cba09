//! The lines of a file, and a text that is compared with an expected one.
ghost use Rattle.std.specs.Prelude.{◌≡◌};
ghost use Rattle.ra_token.specs.Reading.{Reads};

use super::files::failing;
use super::found::same;
use ra_base::Fixed;
use ra_io::{Files, MemoryFiles, put_all};
use ra_token::{Expected, LineReader, Next, ReadFault};
use std::alloc::Global;
use std::process::Abort;

/// A reader of a file that has these bytes, gives at most 5 at once and fails at these fetches.
fn open(rt: &impl Abort, alloc: Global, fails: &[u64], bytes: &[u8]) -> (MemoryFiles, LineReader)
    ensures reads { Reads (⟦<MemoryFiles as Files>⟧.held result.0 result.1.name) result.1 }
    ensures start { result.1.place ≡ 0 }
{
    let files = failing(alloc, 5, fails, "r", bytes).expect(rt, "no memory");
    let reader = LineReader::make(alloc, "r").expect(rt, "no memory");
    (files, reader)
}

/// Demands these answers of a reader that is given room for 7 bytes, with the line after each. A line that was given is
/// cleared.
fn demand<F: Files>(
    rt: &impl Abort,
    files: &mut F,
    reader: &mut LineReader,
    line: &mut Fixed<u8>,
    wants: &[(Result<Next, ReadFault>, &[u8])],
)
    requires reads { Reads (F.held files.old reader.old.name) reader.old }
    requires start { reader.old.place ≡ 0 }
{
    assert!(rt; wants.len() < 100);
    for want in wants {
        assert!(rt; line.room() - line.len() > 7);
        same(rt, reader.next(files, 7, line), want.0);
        same(rt, line.as_slice(), want.1);
        if want.0.is_ok() {
            line.clear();
        }
    }
}

/// Demands these answers of a file that has these bytes and fails at these fetches, with a line of this room.
fn answers(
    rt: &impl Abort,
    alloc: Global,
    room: usize,
    fails: &[u64],
    bytes: &[u8],
    wants: &[(Result<Next, ReadFault>, &[u8])],
) {
    let (mut files, mut reader) = open(rt, alloc, fails, bytes);
    let mut line = Fixed::make(alloc, room).expect(rt, "no memory");
    demand(rt, &mut files, &mut reader, &mut line, wants);
}

/// The answers for a file of four lines, of which the last has no end.
const LINES: &[(Result<Next, ReadFault>, &[u8])] = &[
    (Ok(Next::Line), b"one\n"),
    (Ok(Next::Line), b"\n"),
    (Ok(Next::Line), b"seven 7\n"),
    (Ok(Next::Last), b"last"),
    (Ok(Next::End), b""),
];

/// The answers for a line that is too long.
const LONG: &[(Result<Next, ReadFault>, &[u8])] = &[(Ok(Next::Long), b"eight of")];

/// The answers for a line whose second fetch fails.
const FAILED: &[(Result<Next, ReadFault>, &[u8])] = &[
    (Err(ReadFault), b"seven"),
    (Ok(Next::Line), b"seven 7\n"),
];

#[test]
fn lines_are_given_one_by_one(rt: HostRuntime) {
    answers(&rt, rt.alloc(), 8, &[], b"one\n\nseven 7\nlast", LINES);
}

#[test]
fn a_long_line_is_found(rt: HostRuntime) {
    answers(&rt, rt.alloc(), 8, &[], b"eight of them\n", LONG);
}

#[test]
fn a_failed_fetch_loses_no_byte(rt: HostRuntime) {
    answers(&rt, rt.alloc(), 16, &[1], b"seven 7\n", FAILED);
}

#[test]
fn a_text_is_compared(rt: HostRuntime) {
    let mut sink = Expected::make(b"one\ntwo\n");
    same(&rt, put_all(&mut sink, b"one\n").is_ok(), true);
    same(&rt, sink.is_same(), false);
    same(&rt, put_all(&mut sink, b"two\n").is_ok(), true);
    same(&rt, sink.is_same(), true);
    same(&rt, sink.unlike_line(), None);
    let mut sink = Expected::make(b"one\ntwo\n");
    same(&rt, put_all(&mut sink, b"one\nten\n").is_err(), true);
    same(&rt, sink.is_same(), false);
    same(&rt, sink.unlike_line(), Some(1));
}
